//! Journals read from text in one pass, with the reader that names faults behind it.
#![tactic(auto)]

mod counts;
mod lanes;
mod numbers;
mod reader;
mod records;
mod scan;
mod words;

pub use reader::read_journal;
pub use scan::scan_journal;
