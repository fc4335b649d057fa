//! The log of one lane, and lanes that meet.
#![tactic(auto)]

mod codes;
mod log;
mod meets;

pub use codes::Codes;
pub use log::Log;
pub use meets::Meets;
