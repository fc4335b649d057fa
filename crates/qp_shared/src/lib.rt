//! The tables that threads share, and their lanes: made, met with one another, and sealed into a journal.
#![tactic(auto)]

pub mod crossing;
mod ending;
mod lane;
mod meeting;
mod ops;
mod sealed;
mod shared;
mod starting;

pub use lane::SharedLane;
pub use sealed::Sealed;
pub use shared::{Root, Shared};
