//! Journals written as text.

ghost use Rattle.std.specs.Prelude.{◌≤◌, ◌∷◌, length, map, IsTrue};
ghost use Rattle.std.specs.List.{list_all};
ghost use Rattle.qp_model.specs.Output.{end_item, has_form, head_item, is_in_range, is_lane_in_range, is_record_in_range, item, items_of_lane, items_of_lanes, record_item};
ghost use Rattle.qp_model.specs.OutputText.{line_text, lines_text, text};
ghost use Rattle.qp_text.specs.Puts.{Puts};

use crate::lines::Line;
use qp_base::{Sink, SinkFault};
use qp_model::{Journal, Lane, Lanes, Rec, kinds};

/// Writes a journal in this form, with one put for each line.
pub fn write_journal<K: Sink>(j: &Journal, form: u8, out: &mut K) -> Result<(), SinkFault>
    requires form { IsTrue (has_form form j.now) }
    requires range { IsTrue (is_in_range form j.now) }
    ensures { Puts result (text form j.now) (K.written out.old) (K.written out.new) (K.faults out.old) (K.faults out.new) }
{
    let mut line = Line::new();
    put_head(out, &mut line, form, j)?;
    put_lanes(out, &mut line, form, &j.lanes)?;
    put_end(out, &mut line, form, j)
}

/// Writes the first line.
fn put_head<K: Sink>(out: &mut K, line: &mut Line, form: u8, j: &Journal) -> Result<(), SinkFault>
    ensures { Puts result (line_text form (head_item form j.now)) (K.written out.old) (K.written out.new) (K.faults out.old)
        (K.faults out.new) }
{
    let others = [u64::from(j.kernel), u64::from(j.budget)];
    put_line(out, line, form, kinds::QP, u64::from(form), &others)
}

/// Writes the last line.
fn put_end<K: Sink>(out: &mut K, line: &mut Line, form: u8, j: &Journal) -> Result<(), SinkFault>
    ensures { Puts result (line_text form (end_item j.now)) (K.written out.old) (K.written out.new) (K.faults out.old) (K.faults out.new) }
{
    put_line(out, line, form, kinds::END, u64::from(j.end), &[])
}

/// Writes the lanes, each under its head.
fn put_lanes<K: Sink>(
    out: &mut K,
    line: &mut Line,
    form: u8,
    lanes: &Lanes,
) -> Result<(), SinkFault>
    requires { IsTrue (list_all (is_lane_in_range form) lanes.now) }
    ensures { Puts result (lines_text form (items_of_lanes 0 lanes.now)) (K.written out.old) (K.written out.new) (K.faults out.old)
        (K.faults out.new) }
{
    for (number, lane) in lanes.items.iter().enumerate() {
        put_lane(out, line, form, number as u64, lane)?;
    }
    Ok(())
}

/// Writes a lane under its head.
fn put_lane<K: Sink>(
    out: &mut K,
    line: &mut Line,
    form: u8,
    number: u64,
    lane: &Lane,
) -> Result<(), SinkFault>
    requires { IsTrue (is_lane_in_range form lane.now) }
    ensures { Puts result (lines_text form (items_of_lane number lane.now)) (K.written out.old) (K.written out.new) (K.faults out.old)
        (K.faults out.new) }
{
    put_line(out, line, form, kinds::LANE, number, &[])?;
    put_records(out, line, form, lane)
}

/// Writes the records of a lane.
fn put_records<K: Sink>(
    out: &mut K,
    line: &mut Line,
    form: u8,
    lane: &Lane,
) -> Result<(), SinkFault>
    requires { IsTrue (list_all (is_record_in_range form) lane.now) }
    ensures { Puts result (lines_text form (map record_item lane.now)) (K.written out.old) (K.written out.new) (K.faults out.old)
        (K.faults out.new) }
{
    for r in &lane.items {
        put_record(out, line, form, r)?;
    }
    Ok(())
}

/// Writes a record.
fn put_record<K: Sink>(out: &mut K, line: &mut Line, form: u8, r: &Rec) -> Result<(), SinkFault>
    requires { IsTrue (is_record_in_range form r.now) }
    ensures { Puts result (line_text form (record_item r.now)) (K.written out.old) (K.written out.new) (K.faults out.old)
        (K.faults out.new) }
{
    line.make_record(form, r);
    out.put(line.as_bytes())
}

/// Writes the line of an item, whose numbers are the first and these.
fn put_line<K: Sink>(
    out: &mut K,
    line: &mut Line,
    form: u8,
    id: u8,
    first: u64,
    others: &[u64],
) -> Result<(), SinkFault>
    requires least { 1 ≤ id }
    requires most { id ≤ 46 }
    requires count { length others.now ≤ 13 }
    ensures { Puts result (line_text form (item id (first ∷ others.now))) (K.written out.old) (K.written out.new) (K.faults out.old)
        (K.faults out.new) }
{
    line.make(form, id, first, others);
    out.put(line.as_bytes())
}
