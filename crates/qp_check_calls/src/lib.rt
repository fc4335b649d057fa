//! The records that a call of given arguments may leave, read one by one.
#![tactic(auto)]

mod call;
mod call_state;
mod ends;
mod firsts;
mod goes;
mod kept;
pub mod lookups;
mod members;
mod pieces;
mod puts;
mod singles;
mod stage;
mod told;

pub use call::{Answer, Call};
pub use call_state::CallState;
pub use kept::Kept;
pub use pieces::{Cut, Piece};
pub use told::{Known, Told};
