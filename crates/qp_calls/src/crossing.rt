//! Which values may go to another thread.

use crate::deferred::Deferred;
use crate::publication::Publication;
use crate::tokens::{Fresh, HeldEntry, Hold};

fn goes<T: Send>() {}

/// Tokens may go to another thread, and so may publications and deferred lists.
pub fn tokens_cross_threads() {
    goes::<Fresh>();
    goes::<Hold>();
    goes::<HeldEntry>();
    goes::<Publication>();
    goes::<Deferred>();
}
