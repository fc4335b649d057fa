//! What wakes the threads of the waiting port: a parker for each object, and a count of what keeps them awake.
#![tactic(auto)]

mod crossing;
mod parking;
mod tally;

pub use parking::{Bell, Notes, Waker, give_note, new_bell, park_once, pass_of};
pub use tally::{Tallies, Tally, add, find, join, new_tallies, seat_of, take_one};
