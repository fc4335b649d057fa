//! Where a turn found its queue empty.

ghost use Rattle.std.specs.Prelude.{◌≡◌, ◌≤◌, Some, length};
ghost use Rattle.qp_wait.specs.Lane.{bell_view};
ghost use Rattle.qp_wait.specs.Pausing.{HasLook, FailsToPark, Parks, ParksUnset, Pauses};

use crate::lane::BellLane;
use crate::looking::last_look;
use qp_base::Memory;
use qp_calls::Ops;
use qp_kernel_turns::Halt;
use std::sync::Wait;

/// Parks behind the last look that found the queue of object `me` empty. A lane that hasn't the object's parker gets the answer of a
/// want of memory.
fn park<R: Wait>(rt: &R, lane: &mut BellLane<'_>, me: u8) -> Result<(), Memory>
    requires found { lane.old.ringing.found ≡ Some me }
    requires look { HasLook me (bell_view lane.old).told }
    requires few { length (bell_view lane.old).told ≤ 1000000 }
    ensures { Parks me lane.old lane.new result }
{
    if !lane.parks_for(me) {
        return Err(Memory);
    }
    match last_look(lane.records(), me) {
        Some(place) => lane.park(rt, place as u32),
        None => unreachable!(),
    }
}

/// Behind the look that found the queue of object `me` empty. Where nothing is on the count the turn is over: false. Else the stop word
/// is looked at, and the lane parks. What the look found is used up then.
pub(crate) fn pause<R: Wait>(rt: &R, lane: &mut BellLane<'_>, me: u8) -> Result<bool, Halt>
    requires found { lane.old.ringing.found ≡ Some me }
    requires look { HasLook me (bell_view lane.old).told }
    requires few { length (bell_view lane.old).told ≤ 1000000 }
    ensures pauses { Pauses me lane.old lane.new result }
    ensures unset { ParksUnset (bell_view lane.old) result }
{
    if lane.is_over() {
        return Ok(false);
    }
    if let Some(_) = lane.ringing.stopped() {
        return Err(Halt::Stopped);
    }
    let Ok(()) = park(rt, lane, me) else {
        lane.ringing.stop(qp_model::stops::MEMORY);
        return Err(Halt::Memory);
    };
    Ok(true)
}

/// The turn ends as for want of memory.
pub(crate) fn give_up(lane: &mut BellLane<'_>)
    ensures { FailsToPark (bell_view lane.old) lane.old lane.new }
{
    lane.ringing.stop(qp_model::stops::MEMORY);
}
