//! What an object works on.

use qp_base::Ev;
use qp_calls::HeldEntry;

/// An event, and its entry; a start has neither.
#[derive(Drop)]
pub(crate) struct Work {
    pub(crate) ev: Ev,
    pub(crate) entry: Option<HeldEntry>,
}
