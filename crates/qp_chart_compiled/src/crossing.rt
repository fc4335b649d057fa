//! Which values may go to another thread, and which may be read by several threads at once.

use crate::agenda::Agenda;
use crate::compiled::Compiled;

fn crosses<T: Send + Sync>() {}

fn goes<T: Send>() {}

/// A compiled chart may go to another thread, and several threads may read it at once. An agenda may go to another thread.
pub fn compiled_charts_cross_threads() {
    crosses::<Compiled>();
    goes::<Agenda>();
}
