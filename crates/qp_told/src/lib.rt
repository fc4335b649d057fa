//! What a lane tells its gate of its steps, counted in contracts.
#![tactic(auto)]

mod telling;

pub use telling::{Told, ToldSteps};
