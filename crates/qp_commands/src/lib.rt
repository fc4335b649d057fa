//! What the words of a call of the program ask for.
#![tactic(auto)]

mod apps;
mod asking;
pub mod laws;
mod numbers;
mod values;

pub use asking::{Command, command_of};
pub use values::{Form, KernelName, Kind, Output};
