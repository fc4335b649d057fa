//! Which values may go to another thread.

use crate::alone::Alone;
use qp_calls::Ops;

fn goes<T: Send>() {}

/// A lane in whose looks nothing happens may go to another thread, where the lane may.
pub fn lanes_alone_cross_threads<O: Ops + Send>() {
    goes::<Alone<O>>();
}
