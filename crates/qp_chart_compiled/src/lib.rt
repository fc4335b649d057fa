//! Charts in the form that a dispatcher runs: compiled once, so that a start and a step take no memory.
#![tactic(auto)]

mod agenda;
mod choice;
mod code;
mod compiled;
mod crossing;
mod leaves;
mod lists;
mod plans;
mod push;
mod rows;
mod task;

pub use agenda::Agenda;
pub use compiled::Compiled;
pub use crossing::compiled_charts_cross_threads;
pub use task::Task;
