//! The atomic steps of the event table, on one thread: of one seat, and of any in a schedule.
#![tactic(auto)]

mod runs;
mod splits;
mod state;

pub use qp_core_steps::words::{WORDS, Words};
pub use qp_core_steps::{Glances, Items, Op, Seat, SeatGive, SeatLog, step};
pub use runs::{CoreFault, apply, run};
pub use state::CoreState;
