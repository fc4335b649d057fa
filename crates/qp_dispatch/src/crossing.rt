//! Which values may go to another thread.

use crate::objects::Object;

fn goes<T: Send>() {}

/// An object may go to another thread, with its deferred entries and a step under way.
pub fn objects_cross_threads() {
    goes::<Object>();
}
