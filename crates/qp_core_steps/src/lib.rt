//! What a seat of the event table holds, and the atomic steps that it takes by itself.
#![tactic(auto)]

pub mod asked;
pub mod blocks;
mod entries;
pub mod glances;
pub mod items;
mod looks;
mod ops;
mod queues;
pub mod seats;
mod steps;
pub mod words;

pub use glances::Glances;
pub use items::{Items, no_items};
pub use ops::Op;
pub use queues::serves_it;
pub use seats::{Seat, SeatGive, SeatLog, copy_of_give};
pub use steps::step;
