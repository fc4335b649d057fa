//! Which values may go to another thread, and which several threads may read at once.

use crate::bells::Bells;
use crate::lane::BellLane;

fn shares<T: Sync>() {}

fn goes<T: Send>() {}

/// Threads share the bells, and a lane may go to another thread.
pub fn bell_lanes_cross_threads<'a>() {
    shares::<Bells>();
    goes::<BellLane<'a>>();
}
