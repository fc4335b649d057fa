//! A world of one thread.
#![tactic(auto)]

mod book;
mod calls;
mod ending;
mod making;
mod records;
mod repeating;
mod resting;
mod tables;
mod world;

pub use world::PlainWorld;
