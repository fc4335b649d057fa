//! The cooperative kernel: one step at a time, and rests where every queue is empty.
#![tactic(auto)]

mod turning;
mod vanilla;

pub use turning::vanilla_turn;
pub use vanilla::Vanilla;
