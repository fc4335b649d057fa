//! The parts of the top call: what each command does with its files, and how a call ends.
#![tactic(auto)]

mod checking;
mod conversions;
pub mod laws;
mod loading;
mod place;
mod ran;
mod reading;
mod replaying;
mod runs;
mod status;

pub use checking::check_files;
pub use conversions::{decode, migrate};
pub use place::Place;
pub use qp_kernel_runs::{run_qv, run_sim};
pub use qp_kernel_turns::{Objects, kernel_turn};
pub use qp_replay::rerun;
pub use qp_summary::{SummaryFault, write_summary};
pub use qp_system::generate;
pub use qp_told::Told;
pub use qp_wait_runs::{Sealed, Threaded, run_port, run_qk, run_wait};
pub use ran::{Finished, kept_seal};
pub use replaying::replay_files;
pub use runs::{run_files, run_made};
pub use status::Status;
