//! The lane of a source, which is its stimuli in order, each with the records that fit it; and the end of a journal.
#![tactic(auto)]

pub mod ending;
pub mod journal_end;
mod lane;
pub mod lane_ends;
mod records;
mod reference_counts;
mod resting;
mod scene;
mod settle_state;
mod source_state;
mod stops;
mod takes;
mod tick_state;
mod tries;
mod underway;

pub use lane::{is_source_lane, spill_stands};
pub use stops::{Stops, may_stop};
