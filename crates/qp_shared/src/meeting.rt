//! A lane meets another one.

ghost use Rattle.std.specs.Prelude.{◌≡◌};
ghost use Rattle.qp_shared_lane.specs.Lane.{state_view};
ghost use Rattle.qp_calls_log.specs.Meeting.{IsTogether, Met};

use crate::lane::SharedLane;
use qp_calls_log::Meets;
use qp_shared_ends::table;
use qp_shared_lane::LaneState;
use qp_side::words as side;

/// The lane sees what the other has seen of the words of both tables.
fn meet(lane: &mut LaneState<'_>, other: &mut LaneState<'_>)
    requires { IsTogether (state_view lane.old) (state_view other.old) }
    ensures meets { Met (state_view lane.old) (state_view other.old) (state_view lane.new) }
    ensures other { state_view other.new ≡ state_view other.old }
{
    let seen = table::look_on(other.words, &mut other.seat);
    table::join_seats(lane.words, &mut lane.seat, seen);
    table::know_past(lane.words, &mut lane.seat);
    let from = &mut other.side;
    let heard = side::look_on(from.words, &mut from.seat);
    let into = &mut lane.side;
    side::join_seats(into.words, &mut into.seat, heard);
}

impl Meets for SharedLane<'_> {
    fn meet(&mut self, other: &mut Self) {
        meet(&mut self.state, &mut other.state);
    }
}
