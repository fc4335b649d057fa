//! What a journal knows beside a record, in tables made once, and the records of objects and sources as they are told by it.
#![tactic(auto)]

// Tables of what words held.
pub mod knowledge;
mod known_steps;
pub mod known_tables;
mod known_words;

// Records as told.
pub mod told_lists;

// Cuts, and the lane of an object's own thread.
pub mod told_cut;
pub mod told_home;
