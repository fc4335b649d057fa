//! The reader of stimulus files: what the sources do, or the first line that is refused and why.
#![tactic(auto)]

mod fault;
mod grammar;
mod heard;
mod names;
mod numbers;
mod reader;
mod sources;
mod tokens;
mod verdict;

pub use fault::StimFault;
pub use reader::stimuli_of_bytes;
