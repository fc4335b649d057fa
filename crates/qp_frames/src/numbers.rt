//! The numbers of a frame.

ghost use Rattle.std.specs.Prelude.{◌≡◌, ◌≤◌, ◌<◌, ◌^◌};
ghost use Rattle.qp_frames.specs.Faults.{ReadsNumbers};
ghost use Rattle.qp_frames.specs.Parts.{PartGoesOn, fixed_part, group_part, are_numbers_whole, numbers_from, part_of, IsPart};

use crate::faults::NumberFault;
use std::alloc::Global;
use std::marker::Model;

/// The numbers of an item. Contracts see the list.
#[derive(Drop)]
pub(crate) struct Numerals {
    pub items: Vec<u64>,
}

impl Model for Numerals {
    ghost use Rattle.std.specs.Prelude.{List, ℕ};

    ghost Value = { List ℕ };

    ghost view = { λ n. n.items.items };
}

/// What a byte does to a number: it goes on with this value, it is whole, or it is wrong.
#[derive(Clone, Copy)]
pub(crate) enum Part {
    More(u64),
    Whole(u64),
    Wrong,
}

/// Whether no number is cut off at the end of these bytes.
pub(crate) fn is_whole(form: u8, bytes: &[u8]) -> bool
    ensures { result ≡ are_numbers_whole form bytes.now }
{
    if form == 2 {
        bytes.is_empty() || bytes[bytes.len() - 1] < 128
    } else {
        bytes.len() % 8 == 0
    }
}

/// Reads the numbers of these bytes, or answers the byte that shows that one is wrong.
pub(crate) fn read_numbers(alloc: Global, form: u8, bytes: &[u8]) -> Result<Numerals, NumberFault>
    ensures { ReadsNumbers result (numbers_from form 0 0 bytes.now) }
{
    let mut nums = Vec::new(alloc);
    let mut place = 0u32;
    let mut value = 0u64;
    let mut rest = bytes;
    while let [b, more @ ..] = rest {
        match part_of(form, place, value, *b) {
            Part::More(longer) => {
                value = longer;
                place += 1;
            }
            Part::Whole(n) => {
                if nums.push(n).is_err() {
                    return Err(NumberFault::NoMemory);
                }
                value = 0;
                place = 0;
            }
            Part::Wrong => return Err(NumberFault::Wrong(*b)),
        }
        rest = more;
    }
    Ok(Numerals { items: nums })
}

/// One more byte of a number.
fn part_of(form: u8, place: u32, value: u64, b: u8) -> Part
    requires { IsPart form place value }
    ensures value { result ≡ part_of form place value b }
    ensures goes_on { PartGoesOn form place result }
{
    if form == 2 {
        group_part(place, value, b)
    } else {
        fixed_part(place, value, b)
    }
}

/// One more byte of a number in form 1.
fn fixed_part(place: u32, value: u64, b: u8) -> Part
    requires places { place ≤ 7 }
    requires small { value < 256 ^ place }
    ensures value { result ≡ fixed_part place value b }
    ensures goes_on { PartGoesOn 1 place result }
{
    let value = value + u64::from(b) * 256u64.pow(place);
    if place == 7 {
        Part::Whole(value)
    } else {
        Part::More(value)
    }
}

/// One more byte of a number in form 2.
fn group_part(place: u32, value: u64, b: u8) -> Part
    requires places { place ≤ 9 }
    requires small { value < 128 ^ place }
    ensures value { result ≡ group_part place value b }
    ensures goes_on { PartGoesOn 2 place result }
{
    if place == 9 {
        return last_group(value, b);
    }
    let weight = 128u64.pow(place);
    if b >= 128 {
        return Part::More(value + u64::from(b - 128) * weight);
    }
    if b == 0 && place > 0 {
        return Part::Wrong;
    }
    Part::Whole(value + u64::from(b) * weight)
}

/// The tenth byte of a number in form 2.
fn last_group(value: u64, b: u8) -> Part
    requires { value < 2 ^ 63 }
    ensures { result ≡ group_part 9 value b }
{
    if b == 1 {
        Part::Whole(value + (1 << 63))
    } else {
        Part::Wrong
    }
}
