//! Which values may go to another thread.

use crate::job::QkJob;

fn goes<T: Send>() {}

/// What runs in a lane may go to another thread, with all objects and the entries that they keep.
pub fn jobs_cross_threads() {
    goes::<QkJob<'_>>();
}
