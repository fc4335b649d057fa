//! What is true of all words and all tokens of a world of one thread, kept by every kind of record.
#![tactic(auto)]

pub mod laws;
