//! The words of the event table that threads share, and the atomic steps on them.
#![tactic(auto)]

pub mod blocks;
mod first;
pub mod places;
pub mod queues;
pub mod steps;

pub use first::new_words;
pub use steps::{TableLaw, Words};
