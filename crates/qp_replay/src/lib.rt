//! One order of a journal's records, or why there is none.
#![tactic(auto)]

// The marks of the records that don't stand in the order yet.
mod marks;
mod remaining;

// What a replay answers, and how it is found.
mod cycle;
mod order;
mod places;
mod replaying;

// What is true of orders.
pub mod laws;
mod writing;

// A journal's records made once more, in the world of one thread.
mod again;
pub mod rerun_laws;

pub use again::rerun;
pub use marks::At;
pub use order::{is_small, ordered};
pub use places::{Places, Replayed};
pub use replaying::replay;
pub use writing::write_replayed;
