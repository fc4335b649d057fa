//! Runs with threads: over the running table, from a system and its stimuli to a sealed journal.
#![tactic(auto)]

mod alone;
mod port;
mod qk;
mod sealing;

pub use port::run_port;
pub use qk::run_qk;
pub use qp_port::{Beside, PortRun, Terms, Turns, run_lanes_of};
pub use qp_shared::{Sealed, Shared, SharedLane};
pub use sealing::{Threaded, seal};
