//! The sections of a system file: what each table of it says by itself, or the first fault of one and its place.
#![tactic(auto)]

mod document;
mod entries;
mod fault;
mod lists;
mod name;
mod numbers;
mod objects;
mod plain;
mod raw;
mod rows;
mod section;
mod states;
mod texts;
mod vars;

pub use document::raw_of_bytes;
pub use fault::SystemFault;
pub use raw::{RawCharts, RawObject, RawObjects, RawSystem};
