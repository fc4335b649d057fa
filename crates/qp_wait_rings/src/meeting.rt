//! A ringing lane meets others.

use crate::ringing::RingingLane;
use qp_calls_log::Meets;

impl Meets for RingingLane<'_> {
    fn meet(&mut self, other: &mut Self) {
        self.lane.meet(&mut other.lane);
    }
}
