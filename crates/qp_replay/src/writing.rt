//! The lines of an order or a cycle.

ghost use Rattle.std.specs.Prelude.{◌≡◌, ◌≤◌, ◌++◌, ◌∷◌, codes, decimal, length, IsTrue};
ghost use Rattle.std.specs.List.{AllByRecursion, flat_map, list_all};
ghost use Rattle.qp_model.specs.Output.{is_in_range, is_lane_in_range};
ghost use Rattle.qp_replay.specs.Orders.{is_record};
ghost use Rattle.qp_replay.specs.Remaining.{record_place};
ghost use Rattle.qp_replay.specs.Text.{AreRecords, head_line, place_line, places_text, replayed_text};
ghost use Rattle.qp_text.specs.Puts.{Puts};

use crate::{At, Places, Replayed};
use arrayvec::ArrayString;
use itoa::Buffer;
use qp_base::{Sink, SinkFault};
use qp_model::{Journal, Lanes};
use qp_text::Line;

/// Room for a word, a number and a newline.
const HEAD_ROOM: usize = 32;

/// Writes the line of a place: the lane, a space and the line of the record.
fn put_place<K: Sink>(
    out: &mut K,
    line: &mut Line,
    lanes: &Lanes,
    form: u8,
    at: At,
) -> Result<(), SinkFault>
    requires stands { IsTrue (is_record lanes.now (record_place at.lane at.place)) }
    requires range { IsTrue (list_all (is_lane_in_range form) lanes.now) }
    ensures { Puts result (place_line form lanes.now (record_place at.lane at.place)) (K.written out.old) (K.written out.new)
        (K.faults out.old) (K.faults out.new) }
{
    let lane = &lanes.items[at.lane as usize];
    line.make_placed(at.lane, form, &lane.items[at.place as usize]);
    out.put(line.as_bytes())
}

/// Writes the first line: the word, a space and how many places follow.
fn put_head<K: Sink>(out: &mut K, word: &str, count: usize) -> Result<(), SinkFault>
    requires { length word.now ≤ 10 }
    ensures { Puts result (head_line word.now count) (K.written out.old) (K.written out.new) (K.faults out.old) (K.faults out.new) }
{
    let mut line = ArrayString::<HEAD_ROOM>::new();
    line.push_str(word);
    line.push_str(" ");
    line.push_str(Buffer::new().format(count));
    line.push_str("\n");
    out.put(line.as_str().as_bytes())
}

/// Writes a line for each place.
fn put_places<K: Sink>(
    out: &mut K,
    lanes: &Lanes,
    form: u8,
    places: &Places,
) -> Result<(), SinkFault>
    requires stand { AllByRecursion (λ x. IsTrue (is_record lanes.now x)) places.now }
    requires range { IsTrue (list_all (is_lane_in_range form) lanes.now) }
    ensures { Puts result (flat_map (place_line form lanes.now) places.now) (K.written out.old) (K.written out.new)
        (K.faults out.old) (K.faults out.new) }
{
    let mut line = Line::new();
    for at in &places.items {
        put_place(out, &mut line, lanes, form, *at)?;
    }
    Ok(())
}

/// Writes the first line and those of the places.
fn put_list<K: Sink>(
    out: &mut K,
    word: &str,
    lanes: &Lanes,
    form: u8,
    places: &Places,
) -> Result<(), SinkFault>
    requires short { length word.now ≤ 10 }
    requires stand { AllByRecursion (λ x. IsTrue (is_record lanes.now x)) places.now }
    requires range { IsTrue (list_all (is_lane_in_range form) lanes.now) }
    ensures { Puts result (places_text word.now form lanes.now places.now) (K.written out.old) (K.written out.new)
        (K.faults out.old) (K.faults out.new) }
{
    put_head(out, word, places.items.len())?;
    put_places(out, lanes, form, places)
}

/// Writes an order or a cycle of a journal's records: `order` or `cycle` with the number of places, and then for each place its lane
/// and the record's line in this form. Each line is one put.
pub fn write_replayed<K: Sink>(
    j: &Journal,
    form: u8,
    replayed: &Replayed,
    out: &mut K,
) -> Result<(), SinkFault>
    requires range { IsTrue (is_in_range form j.now) }
    requires stand { AreRecords j.now.lanes replayed.now }
    ensures { Puts result (replayed_text form j.now.lanes replayed.now) (K.written out.old) (K.written out.new)
        (K.faults out.old) (K.faults out.new) }
{
    match replayed {
        Replayed::Order(places) => put_list(out, "order", &j.lanes, form, places),
        Replayed::Cycle(places) => put_list(out, "cycle", &j.lanes, form, places),
    }
}
