//! The lanes of a journal: which lane is whose, and which records stand in it; records put into groups by a key, words counted,
//! and what an object's records make of its deferred list.
#![tactic(auto)]

// Which lane is whose, and what a record is.
pub mod lane_parts;
pub mod record_tests;

// Records by a key, and the operations of words.
pub mod given_blocks;
pub mod groups;
pub mod keys;
pub mod rows;
pub mod word_totals;

// Deferred lists.
pub mod deferral;
pub mod deferred_entries;

// What a word holds after its operations: one walk, and the kind of each word.
pub mod lives;
pub mod numbers;
pub mod pools;
pub mod queues;
pub mod references;
pub mod signals;
pub mod timers;
pub mod word_state;
