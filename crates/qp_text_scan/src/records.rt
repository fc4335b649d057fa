//! Lines of records in front of a text.

ghost use Rattle.std.specs.Prelude.{◌≡◌, ◌≤◌, ◌∷◌, [], ◌++◌, ℕ, decimal, map, IfSome, OnSome, IsTrue};
ghost use Rattle.qp_model.specs.Output.{is_record_in_range, last_id, record_item};
ghost use Rattle.qp_model.specs.OutputText.{after_spaces, line_text, number_texts, say_texts};
ghost use Rattle.qp_text.specs.LineItem.{has_signs};
ghost use Rattle.qp_text.specs.TextLaw.{record_has_64_bits};
ghost use Rattle.qp_text_scan.specs.Readable.{is_readable};

use crate::counts::has_count;
use crate::numbers::{after_byte, signed, spaced};
use crate::words::word;
use arrayvec::ArrayVec;
use qp_model::{Rec, kinds};

/// Reads the line of a record in front into a record without numbers, and answers what stands behind it.
#[inline(always)]
pub(crate) fn read_record<'a>(form: u8, text: &'a [u8], r: &mut Rec) -> Option<&'a [u8]>
    requires { r.old.nums.items ≡ [] }
    ensures text { IfSome result (λ rest. text.now ≡ line_text form (record_item r.new) ++ rest.now) }
    ensures readable { OnSome result (IsTrue (is_readable form r.new)) }
{
    let (id, rest) = word(text)?;
    let (of, rest) = spaced(rest)?;
    if 32 < of {
        return None;
    }
    r.kind = id;
    r.of = of as u8;
    let rest = read_others(form, id, rest, &mut r.nums)?;
    if is_in_range(form, r) {
        Some(rest)
    } else {
        None
    }
}

/// Whether a record is in range. Its numbers have 64 bits in any case.
#[inline(always)]
fn is_in_range(form: u8, r: &Rec) -> bool
    ensures range { result ≡ is_record_in_range form r.now }
    ensures bits { IsTrue (record_has_64_bits r.now) }
{
    let nums = r.nums.as_slice();
    kinds::BEGIN <= r.kind && r.kind <= last_id(form) && has_count(r.kind, r.of, nums) && r.of <= 32
}

/// The last id of a form.
fn last_id(form: u8) -> u8
    ensures value { result ≡ last_id form }
    ensures range { result ≤ 46 }
{
    if form == 2 { kinds::REST } else { kinds::LOOK }
}

/// Reads the numbers behind the first of an item.
#[inline(always)]
fn read_others<'a>(
    form: u8,
    id: u8,
    text: &'a [u8],
    nums: &mut ArrayVec<u64, 13>,
) -> Option<&'a [u8]>
    requires { nums.old.items ≡ [] }
    ensures { IfSome result (λ rest. (first : ℕ) → 32 ∷ decimal first ++ text.now ≡ after_spaces (number_texts form id (first ∷ nums.new.items)) ++ 10 ∷ rest.now) }
{
    if has_signs(form, id) {
        read_said(text, nums)
    } else {
        read_numbers(text, nums)
    }
}

/// Whether the value of such an item has a sign.
fn has_signs(form: u8, id: u8) -> bool
    ensures { result ≡ has_signs form id }
{
    form == 2 && id == kinds::SAY
}

/// Reads the value that is said.
fn read_said<'a>(text: &'a [u8], nums: &mut ArrayVec<u64, 13>) -> Option<&'a [u8]>
    requires { nums.old.items ≡ [] }
    ensures { IfSome result (λ rest. (first : ℕ) → 32 ∷ decimal first ++ text.now ≡ after_spaces (say_texts (first ∷ nums.new.items)) ++ 10 ∷ rest.now) }
{
    let rest = after_byte(b' ', text)?;
    let (value, rest) = signed(rest)?;
    let rest = after_byte(b'\n', rest)?;
    nums.push(value);
    Some(rest)
}

/// Reads numbers, each after a space, up to the end of the line. They go behind those that are there.
#[inline(always)]
fn read_numbers<'a>(text: &'a [u8], nums: &mut ArrayVec<u64, 13>) -> Option<&'a [u8]>
    ensures { IfSome result (λ rest. after_spaces (map decimal nums.old.items) ++ text.now ≡ after_spaces (map decimal nums.new.items) ++ 10 ∷ rest.now) }
{
    let mut rest = text;
    while let Some((n, after)) = spaced(rest) {
        if 13 <= nums.len() {
            return None;
        }
        nums.push(n);
        rest = after;
    }
    after_byte(b'\n', rest)
}
