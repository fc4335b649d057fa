//! Looks at queues.

ghost use Rattle.std.specs.Prelude.{◌<◌, IsTrue};
ghost use Rattle.qp_model.specs.WordLaw.{is_object};
ghost use Rattle.qp_calls.specs.Clauses.{Counted, Sees};
ghost use Rattle.qp_shared_lane.specs.Lane.{state_view};
ghost use Rattle.qp_shared_queues.specs.Now.{ReadsNow};

use crate::counting::counts_in;
use qp_calls::Counts;
use qp_model::Rec;
use qp_shared_lane::{LaneState, put};
use qp_shared_words::queues::{look_at_queue, see_queue};

/// Looks at a queue, and adds nothing. The counts are what its word showed at a step of this call.
pub fn counts(lane: &mut LaneState<'_>, p: u8) -> Counts
    requires object { IsTrue (is_object (state_view lane.old).sys p) }
    ensures counted { Counted p (state_view lane.old) (state_view lane.new) result }
    ensures now { ReadsNow p lane.old.seat.me.0 lane.new.seat.me.0 result }
{
    let found = look_at_queue(lane.words, &mut lane.seat, p);
    counts_in(found)
}

/// Looks at a queue, and adds the record of it. The counts are what its word showed at a step of this call.
pub fn seen(lane: &mut LaneState<'_>, p: u8) -> Counts
    requires room { 0 < (state_view lane.old).spare }
    requires object { IsTrue (is_object (state_view lane.old).sys p) }
    ensures sees { Sees p (state_view lane.old) (state_view lane.new) result }
    ensures now { ReadsNow p lane.old.seat.me.0 lane.new.seat.me.0 result }
{
    let found = see_queue(lane.words, &mut lane.seat, p);
    let now = counts_in(found);
    let rec = Rec::seen(p, now.f, now.l, now.m);
    put(&mut lane.log, &mut lane.numbers, rec, 0);
    now
}
