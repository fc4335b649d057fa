//! Which values may go to another thread.

use crate::home::Home;

fn goes<T: Send>() {}

/// An object with a lane of its own may go to another thread, with its deferred entries and a step under way.
pub fn homes_cross_threads() {
    goes::<Home>();
}
