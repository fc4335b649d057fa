//! The definitions of words, each at its words, and the first that fails.
#![tactic(auto)]

// Sites, and the definitions tried at them.
mod rules;
pub mod verdict;

// A definition at a word, and all of them.
pub mod judge;
mod judging;

// What it means that none fails.
pub mod laws;

// The histories of words: the words of a system, the records on each word that a journal names, gathered in one pass over the lanes,
// and the operations among these, in the order of their numbers.
pub mod histories;
mod mark_order;
pub mod marks;
pub mod records_by_word;
pub mod words;
