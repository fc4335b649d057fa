//! Lanes whose posts ring: a post adds to the count of what keeps threads awake, and gives a note to the parker of its object.
#![tactic(auto)]

mod cord;
mod cords;
mod lane;
mod meeting;
mod ops;
mod posts;
mod ringing;

pub use cord::Cord;
pub use cords::{pulls_of, ring_all};
pub use qp_shared::SharedLane;
pub use ringing::RingingLane;
