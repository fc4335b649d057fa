//! The lanes of the waiting port, whose posts ring and which park where their queue is empty; and the turn of an object over them.
#![tactic(auto)]

mod bells;
mod closings;
mod crossing;
mod farewells;
mod hanging;
mod lane;
mod looking;
mod meeting;
mod ops;
mod pausing;
mod perch;
mod steps;
mod turning;

pub use bells::{BellFault, BellRoot, Bells};
pub use closings::Closings;
pub use crossing::bell_lanes_cross_threads;
pub use farewells::Farewells;
pub use hanging::{Rope, Waking};
pub use lane::BellLane;
pub use perch::Perch;
pub use turning::wait_turn;
