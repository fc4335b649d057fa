//! Which values may go to another thread, and which several threads may read at once.

use crate::lane::SharedLane;
use crate::shared::Shared;

fn shares<T: Sync>() {}

fn goes<T: Send>() {}

/// Several threads may use the words of one system at once.
pub fn tables_are_shared<'s>() {
    shares::<Shared<'s>>();
}

/// A lane may go to another thread.
pub fn lanes_cross_threads<'a>() {
    goes::<SharedLane<'a>>();
}
