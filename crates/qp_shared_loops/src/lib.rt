//! The loops of a lane on the words of the event table that threads share.
#![tactic(auto)]

pub mod cells;
pub mod gives;
pub mod last_in;
pub mod posts;
mod rings;
pub mod takes;
