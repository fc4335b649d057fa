//! A lane of the waiting port meets others.

use crate::lane::BellLane;
use qp_calls_log::Meets;

impl Meets for BellLane<'_> {
    fn meet(&mut self, other: &mut Self) {
        self.ringing.meet(&mut other.ringing);
    }
}
