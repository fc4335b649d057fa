//! The order of a run with one thread, and the lanes of its sources; the law of words in any order of the lanes.
#![tactic(auto)]

pub mod lane_laws;
pub mod laws;
pub mod rest_laws;
