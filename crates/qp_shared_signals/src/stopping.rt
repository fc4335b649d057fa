//! The stop word.

ghost use Rattle.qp_calls.specs.Notes.{MayStop};
ghost use Rattle.qp_calls.specs.Clauses.{Stopped, Stops};
ghost use Rattle.qp_shared_lane.specs.Lane.{state_view};

use qp_shared_lane::LaneState;

/// Sets the stop word where it is 0: by the code of the `assert` that is the lane's last record, by 6 where that is a `spent` or a `spill`, or by 7
/// for want of memory.
pub fn stop(lane: &mut LaneState<'_>, code: u8)
    requires { MayStop code (state_view lane.old) }
    ensures { Stops code (state_view lane.old) (state_view lane.new) }
{
    lane.side.stop(code);
    lane.log.hand(code);
}

/// The code in the stop word. None exactly where it is 0.
pub fn stopped(lane: &mut LaneState<'_>) -> Option<u8>
    ensures { Stopped (state_view lane.old) (state_view lane.new) result }
{
    let found = lane.side.stopped();
    lane.log.answer(found.unwrap_or(0));
    found
}
