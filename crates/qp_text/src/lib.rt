//! Journals as text, both ways, and the reader of items that text and frames share.
#![tactic(auto)]

pub mod code;
mod faults;
mod found;
mod items;
pub mod laws;
mod lines;
mod numbers;
mod parts;
mod progress;
mod reader;
mod writer;

pub use faults::LineFault;
pub use found::{Found, TextFault};
pub use lines::Line;
pub use progress::Reading;
pub use reader::read_journal;
pub use writer::write_journal;
