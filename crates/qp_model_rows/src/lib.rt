//! Evidence for the definitions: whole journals, each proved lawful, or proved to break just one definition.
#![tactic(auto)]

pub mod lawful;
pub mod samples;
pub mod summaries;
pub mod unlawful;
