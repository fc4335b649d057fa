//! Lanes in front of a text.

ghost use Rattle.std.specs.Prelude.{◌≡◌, ◌≢◌, ◌≤◌, ◌∷◌, [], ◌++◌, ℕ, length, map, IfSome, IsTrue};
ghost use Rattle.std.specs.List.{list_all};
ghost use Rattle.qp_model.specs.Kinds.{LANE, SAY};
ghost use Rattle.qp_model.specs.Output.{item, items_of_lanes, record_item};
ghost use Rattle.qp_model.specs.OutputText.{line_text, lines_text};
ghost use Rattle.qp_text_scan.specs.Readable.{is_readable_lane};

use crate::numbers::{after_byte, spaced};
use crate::records::read_record;
use crate::words::word;
use arrayvec::ArrayVec;
use qp_model::{Lane, Lanes, Rec, kinds};
use std::alloc::Global;

/// The number of the line in front, if this is its word and it has no other, and what stands behind the line.
pub(crate) fn line_of_one(id: u8, text: &[u8]) -> Option<(u64, &[u8])>
    requires { id ≢ SAY }
    ensures { IfSome result (λ read. (form : ℕ) → text.now ≡ line_text form (item id (read.0 ∷ [])) ++ read.1.now) }
{
    let (found, rest) = word(text)?;
    if found != id {
        return None;
    }
    let (n, rest) = spaced(rest)?;
    let rest = after_byte(b'\n', rest)?;
    Some((n, rest))
}

/// What stands behind the head of the lane of this number.
fn behind_head(number: u64, text: &[u8]) -> Option<&[u8]>
    ensures { IfSome result (λ rest. (form : ℕ) → text.now ≡ line_text form (item LANE (number ∷ [])) ++ rest.now) }
{
    let (stated, rest) = line_of_one(kinds::LANE, text)?;
    if stated == number { Some(rest) } else { None }
}

/// The records in front, and what stands behind them.
fn read_records(alloc: Global, form: u8, text: &[u8]) -> Option<(Lane, &[u8])>
    ensures text { IfSome result (λ read. text.now ≡ lines_text form (map record_item read.0) ++ read.1.now) }
    ensures readable { IfSome result (λ read. IsTrue (is_readable_lane form read.0)) }
{
    let mut records = Vec::new(alloc);
    let mut rest = text;
    for _ in 0..1000001u32 {
        let mut r = Rec {
            kind: 0,
            of: 0,
            nums: ArrayVec::new(),
        };
        let Some(behind) = read_record(form, rest, &mut r) else {
            return Some((Lane { items: records }, rest));
        };
        let Ok(()) = records.push(r) else {
            return None;
        };
        rest = behind;
    }
    Some((Lane { items: records }, rest))
}

/// The lanes in front, and what stands behind them.
pub(crate) fn read_lanes(alloc: Global, form: u8, text: &[u8]) -> Option<(Lanes, &[u8])>
    ensures text { IfSome result (λ read. text.now ≡ lines_text form (items_of_lanes 0 read.0) ++ read.1.now) }
    ensures readable { IfSome result (λ read. IsTrue (list_all (is_readable_lane form) read.0)) }
    ensures count { IfSome result (λ read. length read.0 ≤ 49) }
{
    let mut lanes = Vec::new(alloc);
    let mut rest = text;
    for number in 0..49 {
        let Some(records) = behind_head(number, rest) else {
            return Some((Lanes { items: lanes }, rest));
        };
        let (lane, behind) = read_records(alloc, form, records)?;
        let Ok(()) = lanes.push(lane) else {
            return None;
        };
        rest = behind;
    }
    Some((Lanes { items: lanes }, rest))
}
