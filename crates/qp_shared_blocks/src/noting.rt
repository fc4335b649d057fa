//! Room for records, the object for which they are added, and notes.

ghost use Rattle.std.specs.Prelude.{◌≡◌, ◌≤◌, OnOk, OnErr};
ghost use Rattle.qp_calls.specs.LaneView.{GrowsOf, Roomier, Sets};
ghost use Rattle.qp_calls.specs.Notes.{MayNote, spare_after, told_note};
ghost use Rattle.qp_calls.specs.Clauses.{Faults};
ghost use Rattle.qp_shared_lane.specs.Lane.{state_view};

use qp_calls::RoomFault;
use qp_model::{Rec, ceiling_after, is_spill};
use qp_shared_lane::{LaneState, put, put_spill};
use std::mem;

/// Makes spare for at least eight records. A refusal changes nothing: a lane with no room for eight more, or else want of memory.
#[inline(always)]
pub fn room(lane: &mut LaneState<'_>) -> Result<(), RoomFault>
    ensures ok { OnOk result (8 ≤ (state_view lane.new).spare) }
    ensures err { Faults (state_view lane.old) result }
    ensures refused { OnErr result (state_view lane.new ≡ state_view lane.old) }
    ensures stays { Roomier (state_view lane.old) (state_view lane.new) }
{
    let len = lane.log.recs.len();
    if len + 8 > 1_000_000 {
        return Err(RoomFault::LaneFull { len: len as u32 });
    }
    if lane.log.spare >= 8 {
        return Ok(());
    }
    let Ok(_more) = lane.log.make_room() else {
        return Err(RoomFault::Memory);
    };
    Ok(())
}

/// Sets the object for which records are added, 0 for none, and answers the former one.
pub fn by(lane: &mut LaneState<'_>, o: u8) -> u8
    ensures former { result ≡ (state_view lane.old).by }
    ensures set { Sets o (state_view lane.old) (state_view lane.new) }
{
    mem::replace(&mut lane.by, o)
}

/// Adds one record, of a note's kind, for the object that it states. Beside a `lock` stands the ceiling that it raises.
pub fn note(lane: &mut LaneState<'_>, r: Rec)
    requires { MayNote r (state_view lane.old) }
    ensures grows { GrowsOf r.of (told_note r (state_view lane.old)) (state_view lane.old) (state_view lane.new) }
    ensures spare { (state_view lane.new).spare ≡ spare_after r (state_view lane.old).spare }
{
    let former = lane.ceiling;
    lane.ceiling = ceiling_after(former, &r);
    let spills = is_spill(&r);
    if spills {
        put_spill(&mut lane.log, &mut lane.numbers, r);
    } else {
        put(&mut lane.log, &mut lane.numbers, r, former);
    }
}
