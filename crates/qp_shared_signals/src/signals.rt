//! Subscriptions.

ghost use Rattle.std.specs.Prelude.{◌<◌, IsTrue};
ghost use Rattle.qp_model.specs.WordLaw.{is_object, is_signal};
ghost use Rattle.qp_calls.specs.Clauses.{ReadsSubscribers, Subscribing, Unsubscribing};
ghost use Rattle.qp_shared_lane.specs.Lane.{state_view};

use qp_model::kinds;
use qp_shared_lane::{LaneState, put};

/// The object set by `by` subscribes to a signal. The answer tells whether the set changed.
pub fn subscribe(lane: &mut LaneState<'_>, sig: u16) -> bool
    requires room { 0 < (state_view lane.old).spare }
    requires object { IsTrue (is_object (state_view lane.old).sys (state_view lane.old).by) }
    requires serves { IsTrue ((state_view lane.old).serves (state_view lane.old).by) }
    requires signal { IsTrue (is_signal (state_view lane.old).sys sig) }
    ensures { Subscribing sig (state_view lane.old) (state_view lane.new) result }
{
    let rec = lane.side.subscribe(lane.by, sig);
    let comes = rec.kind == kinds::SUB;
    put(&mut lane.log, &mut lane.numbers, rec, 1);
    comes
}

/// The object set by `by` unsubscribes from a signal. The answer tells whether the set changed.
pub fn unsubscribe(lane: &mut LaneState<'_>, sig: u16) -> bool
    requires room { 0 < (state_view lane.old).spare }
    requires object { IsTrue (is_object (state_view lane.old).sys (state_view lane.old).by) }
    requires serves { IsTrue ((state_view lane.old).serves (state_view lane.old).by) }
    requires signal { IsTrue (is_signal (state_view lane.old).sys sig) }
    ensures { Unsubscribing sig (state_view lane.old) (state_view lane.new) result }
{
    let rec = lane.side.unsubscribe(lane.by, sig);
    let goes = rec.kind == kinds::UNSUB;
    put(&mut lane.log, &mut lane.numbers, rec, 0);
    goes
}

/// The subscribers of a signal, bit `p - 1` for object `p`.
pub fn subscribers(lane: &mut LaneState<'_>, sig: u16) -> u32
    requires room { 0 < (state_view lane.old).spare }
    requires signal { IsTrue (is_signal (state_view lane.old).sys sig) }
    ensures { ReadsSubscribers sig (state_view lane.old) (state_view lane.new) result }
{
    let rec = lane.side.subscribers(lane.by, sig);
    let set = rec.nums[2] as u32;
    put(&mut lane.log, &mut lane.numbers, rec, 0);
    set
}
