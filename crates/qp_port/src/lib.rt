//! A run in which each object and each source has a lane of its own, over any lanes that may meet.
#![tactic(auto)]

mod beside;
mod crossing;
mod job;
pub mod laws;
mod making;
mod rests;
mod run;
mod starting;
mod turns;
mod worker;

pub use beside::Beside;
pub use crossing::jobs_cross_threads;
pub use job::Job;
pub use making::Terms;
pub use qp_port_lanes::{Cursor, Home, object_turn, pass_settle, source_turn};
pub use qp_port_phases::{Passed, PhaseLane, PhasesEnd, Rounds, Worker, run_lanes, run_phases};
pub use run::{PortRun, run_lanes_of, run_lanes_of_port};
pub use starting::Starts;
pub use turns::{PortTurns, Turns};
pub use worker::PortWorker;
