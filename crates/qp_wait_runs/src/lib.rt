//! Whole runs of the waiting port: over the running table, from a system and its stimuli to a sealed journal.
#![tactic(auto)]

mod ringing;
mod run;
mod turns;

pub use qp_port_runs::{Sealed, Threaded, run_port, run_qk};
pub use qp_wait::wait_turn;
pub use run::run_wait;
