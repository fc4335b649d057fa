//! Which values may go to another thread, and which may be read by several threads at once.

use crate::stimulus::Stimuli;
use crate::systems::System;

fn crosses<T: Send + Sync>() {}

/// A system may go to another thread, and several threads may read it at once.
pub fn systems_cross_threads() {
    crosses::<System>();
}

/// Stimuli likewise.
pub fn stimuli_cross_threads() {
    crosses::<Stimuli>();
}
