//! The calls of a lane of shared tables on queues.
#![tactic(auto)]

mod counting;
mod looks;
mod posts;
mod takes;

pub use looks::{counts, seen};
pub use posts::{claim, lifo};
pub use takes::take;
