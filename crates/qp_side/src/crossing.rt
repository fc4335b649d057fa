//! Which values may go to another thread, and which several threads may read at once.

use crate::seat::SideSeat;
use crate::side::{Side, SideRoot};

fn shares<T: Sync>() {}

fn goes<T: Send>() {}

/// Threads share the side table, and the root may go to another thread.
pub fn side_crosses_threads() {
    shares::<Side>();
    goes::<SideRoot>();
}

/// A seat may go to another thread.
pub fn seats_cross_threads<'a>() {
    goes::<SideSeat<'a>>();
}
