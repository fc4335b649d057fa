//! The summary of a lawful journal: how the run ended, where each object stands, and what each pool gave.
#![tactic(auto)]

mod blocks;
mod coming;
mod counts;
mod known;
mod lines;
mod objects;
mod pools;
mod summary;
mod turns;

pub use blocks::Blocks;
pub use summary::{SummaryFault, write_summary, write_summary_at};
pub use turns::TurnCounts;
