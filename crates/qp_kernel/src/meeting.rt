//! A lane in whose looks nothing happens meets others, where its lane does.

use crate::alone::Alone;
use qp_calls_log::Meets;

impl<O: Meets> Meets for Alone<O> {
    fn meet(&mut self, other: &mut Self) {
        self.lane.meet(&mut other.lane);
    }
}
