//! Which values may go to another thread, and which several threads may read at once.

use crate::parking::{Bell, Notes, Waker};
use crate::tally::{Tallies, Tally};
use atomic_table::Seat;
use crossbeam_utils::sync::parker::Pass;

fn shares<T: Sync>() {}

fn goes<T: Send>() {}

/// Threads share the count and what wakes them. What one of them has may go to it: its seat on the count, its passes and its parker.
pub fn bells_cross_threads() {
    shares::<Tallies>();
    shares::<Vec<Waker>>();
    goes::<Seat<(), Tally>>();
    goes::<Vec<Pass<Notes>>>();
    goes::<Option<Bell>>();
}
