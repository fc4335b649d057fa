//! The rule of the event table, what contracts see of a lane of it, and the laws of its steps.
#![tactic(auto)]

pub mod block_laws;
pub mod laws;
mod numbers;
pub mod queue_laws;
pub mod step_laws;
mod unit;
mod view;
pub mod view_laws;
pub mod word_laws;

pub use numbers::Numbers;
pub use unit::UNIT;
pub use view::{CellPlace, Content, Fill, Glance, PendingGive, SeatLog, Serve, Spot, View};
