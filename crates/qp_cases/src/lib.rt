//! Cases over the whole program: what it says of journals, and answers to words over files, as tables state them.
#![tactic(auto)]

pub mod answers;
pub mod asking;
pub mod defects;
pub mod lawful;
