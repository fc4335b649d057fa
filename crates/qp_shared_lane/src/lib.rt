//! A lane of the event table and the side table that threads share: its seats, its records, and what ties these to one another.
#![tactic(auto)]

mod ends;
mod lane;
pub mod laws;
mod putting;
mod rings;

pub use ends::Ends;
pub use lane::LaneState;
pub use putting::{put, put_nil, put_spill};
pub use qp_side::SideSeat;
pub use rings::Rings;
