//! The process around the top call: its arguments, files and streams, and the status that it ends with.
#![tactic(auto)]

mod arguments;
mod entry;
mod pieces;

pub use entry::{Ended, Flow, process, program};
pub use pieces::{Carried, in_pieces};
pub use qp_run::qp_main;
