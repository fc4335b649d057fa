//! The judge of journals. `check` tries all definitions of a lawful journal at all their sites, in one order: it answers that all hold,
//! or the first that fails, and where.
#![tactic(auto)]

// The definitions of objects.
mod object_tests;
mod parts;

// The definitions of lane 0, of the sources and of the end.
mod pieces;
mod pieces_rows;
mod run_parts;

// All of them, in order, and what they mean.
mod checking;
pub mod laws;

pub use checking::check;
pub use qp_check_words::verdict::{Broken, Site, Verdict};
