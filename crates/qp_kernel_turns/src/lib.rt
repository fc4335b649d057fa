//! The objects of a system, and the kernel's turn over them.
#![tactic(auto)]

mod halting;
mod objects;
mod starting;
mod turning;

pub use halting::{Halt, ready};
pub use objects::Objects;
pub use turning::{Bounds, floor, kernel_turn, look, scan, step, top};
