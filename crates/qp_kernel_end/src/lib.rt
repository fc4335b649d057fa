//! How a run came to its end, as the records of its journal say.
#![tactic(auto)]

mod journal;
pub mod laws;
mod records;
mod rest;

pub use journal::{Outcome, outcome_of};
pub use rest::{Rest, rest_at};
