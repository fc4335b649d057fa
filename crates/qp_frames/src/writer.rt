//! Journals written as frames.

ghost use Rattle.std.specs.Prelude.{◌≡◌, ◌≤◌, ◌+◌, ◌%◌, ◌∷◌, [], length, map, IsTrue, IfOk};
ghost use Rattle.std.specs.List.{list_all};
ghost use Rattle.qp_model.specs.Output.{end_item, has_form, head_item, is_in_range, is_lane_in_range, is_record_in_range, item, items_of_lane, items_of_lanes, record_item};
ghost use Rattle.qp_model.specs.OutputFrames.{frame, frames, frames_from};
ghost use Rattle.qp_text.specs.Puts.{Puts};
ghost use Rattle.qp_frames.specs.Sequence.{sequence_behind};

use crate::bytes;
use arrayvec::ArrayVec;
use qp_base::{Sink, SinkFault};
use qp_model::{Journal, Lane, Lanes, Rec, kinds};

/// Writes a journal in this form, with one put for each frame.
pub fn write_frames<K: Sink>(j: &Journal, form: u8, out: &mut K) -> Result<(), SinkFault>
    requires form { IsTrue (has_form form j.now) }
    requires range { IsTrue (is_in_range form j.now) }
    ensures { Puts result (frames form j.now) (K.written out.old) (K.written out.new) (K.faults out.old) (K.faults out.new) }
{
    put_head(out, form, j)?;
    let next = put_lanes(out, form, 2, &j.lanes)?;
    put_end(out, form, next, j)
}

/// Writes the first frame.
fn put_head<K: Sink>(out: &mut K, form: u8, j: &Journal) -> Result<(), SinkFault>
    ensures { Puts result (frame form 1 (head_item form j.now)) (K.written out.old) (K.written out.new) (K.faults out.old)
        (K.faults out.new) }
{
    let nums = [u64::from(form), u64::from(j.kernel), u64::from(j.budget)];
    put_frame(out, form, 1, kinds::QP, &nums)
}

/// Writes the last frame.
fn put_end<K: Sink>(out: &mut K, form: u8, sequence: u8, j: &Journal) -> Result<(), SinkFault>
    ensures { Puts result (frame form sequence (end_item j.now)) (K.written out.old) (K.written out.new) (K.faults out.old)
        (K.faults out.new) }
{
    put_frame(out, form, sequence, kinds::END, &[u64::from(j.end)])
}

/// Writes the lanes, each under its head, and answers the next frame's sequence byte.
fn put_lanes<K: Sink>(out: &mut K, form: u8, sequence: u8, lanes: &Lanes) -> Result<u8, SinkFault>
    requires { IsTrue (list_all (is_lane_in_range form) lanes.now) }
    ensures puts { Puts result (frames_from form sequence (items_of_lanes 0 lanes.now)) (K.written out.old) (K.written out.new)
        (K.faults out.old) (K.faults out.new) }
    ensures next { IfOk result (λ next. next ≡ sequence_behind sequence (items_of_lanes 0 lanes.now)) }
{
    let mut next = sequence;
    for (number, lane) in lanes.items.iter().enumerate() {
        next = put_lane(out, form, next, number as u64, lane)?;
    }
    Ok(next)
}

/// Writes a lane under its head, and answers the next frame's sequence byte.
fn put_lane<K: Sink>(
    out: &mut K,
    form: u8,
    sequence: u8,
    number: u64,
    lane: &Lane,
) -> Result<u8, SinkFault>
    requires { IsTrue (is_lane_in_range form lane.now) }
    ensures puts { Puts result (frames_from form sequence (items_of_lane number lane.now)) (K.written out.old) (K.written out.new)
        (K.faults out.old) (K.faults out.new) }
    ensures next { IfOk result (λ next. next ≡ sequence_behind sequence (items_of_lane number lane.now)) }
{
    put_frame(out, form, sequence, kinds::LANE, &[number])?;
    put_records(out, form, sequence.wrapping_add(1), lane)
}

/// Writes the records of a lane, and answers the next frame's sequence byte.
fn put_records<K: Sink>(out: &mut K, form: u8, sequence: u8, lane: &Lane) -> Result<u8, SinkFault>
    requires { IsTrue (list_all (is_record_in_range form) lane.now) }
    ensures puts { Puts result (frames_from form sequence (map record_item lane.now)) (K.written out.old) (K.written out.new)
        (K.faults out.old) (K.faults out.new) }
    ensures next { IfOk result (λ next. next ≡ sequence_behind sequence (map record_item lane.now)) }
{
    let mut next = sequence;
    for r in &lane.items {
        put_record(out, form, next, r)?;
        next = next.wrapping_add(1);
    }
    Ok(next)
}

/// Writes a record.
fn put_record<K: Sink>(out: &mut K, form: u8, sequence: u8, r: &Rec) -> Result<(), SinkFault>
    ensures { Puts result (frame form sequence (record_item r.now)) (K.written out.old) (K.written out.new) (K.faults out.old)
        (K.faults out.new) }
{
    let mut nums = ArrayVec::<u64, 14>::new();
    nums.push(u64::from(r.of));
    let _ = nums.try_extend_from_slice(r.nums.as_slice());
    put_frame(out, form, sequence, r.kind, nums.as_slice())
}

/// Writes the frame of an item.
fn put_frame<K: Sink>(
    out: &mut K,
    form: u8,
    sequence: u8,
    id: u8,
    nums: &[u64],
) -> Result<(), SinkFault>
    requires { length nums.now ≤ 14 }
    ensures { Puts result (frame form sequence (item id nums.now)) (K.written out.old) (K.written out.new) (K.faults out.old)
        (K.faults out.new) }
{
    out.put(bytes::frame(form, sequence, id, nums).as_slice())
}
