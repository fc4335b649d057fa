//! Charts run to completion.
#![tactic(auto)]

mod act;
mod calling;
mod crossing;
mod lasting;
mod marks;
mod objects;
mod part;
mod publication;
mod runs;
mod starts;
mod steps;
mod subscribing;
mod task;
mod timing;
mod values;
mod work;

pub use crossing::objects_cross_threads;
pub use objects::{Object, Turn};
pub use steps::Step;
