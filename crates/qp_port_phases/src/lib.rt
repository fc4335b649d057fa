//! Phases: lanes run beside one another, and are looked at between.
#![tactic(auto)]

mod lanes;
mod looking;
mod objects;
mod phases;
mod rounds;
mod running;
mod seats;
mod staying;

pub use lanes::{Passed, PhaseLane};
pub use objects::objects_of;
pub use phases::{PhasesEnd, run_phases};
pub use rounds::Rounds;
pub use running::{Manner, Worker, run_lanes};
pub use seats::Serves;
