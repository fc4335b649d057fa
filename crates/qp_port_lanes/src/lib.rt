//! An object in a lane of its own, and a source in one: starts, turns, and how a `settle` is passed.
#![tactic(auto)]

mod answers;
mod crossing;
mod cursor;
mod home;
pub mod laws;
mod passing;
mod source_turning;
mod turning;

pub use answers::{is_idle, is_short, turn_by};
pub use crossing::homes_cross_threads;
pub use cursor::Cursor;
pub use home::Home;
pub use passing::pass_settle;
pub use qp_port_phases::Passed;
pub use source_turning::source_turn;
pub use turning::{begin_step, finish_step, object_turn};
