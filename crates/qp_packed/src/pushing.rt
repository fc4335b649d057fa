//! Records put into a packed lane.

ghost use Rattle.std.specs.Prelude.{◌≡◌, ◌+◌, ◌<◌, ◌≤◌, ◌==◌, [], ◌∷◌, ◌++◌, ◌*◌, length, IfOk, OnOk, OnErr};
ghost use Rattle.std.specs.Vec.{vec_capacity, vec_len};
ghost use Rattle.qp_packed.specs.Packing.{wide_marks, spread, spread_one, wide};
ghost use Rattle.qp_packed.specs.Lanes.{lane_unpacked};

use crate::packed_lane::{MOST_WORDS, PackedLane};
use std::alloc::{AllocError, Global};

impl PackedLane {
    /// No record, and no memory.
    pub fn new(alloc: Global) -> PackedLane
        ensures { lane_unpacked result ≡ [] }
    {
        PackedLane {
            words: Vec::new(alloc),
            count: 0,
            last: 0,
            last_but_one: 0,
        }
    }

    /// No record, and room for so many.
    pub fn with_room(alloc: Global, more: usize) -> Result<PackedLane, AllocError>
        requires { more < 4294967296 }
        ensures none { IfOk result (λ l. lane_unpacked l ≡ []) }
        ensures room { IfOk result (λ l. vec_len l.words + 27 * more ≤ vec_capacity l.words) }
    {
        Ok(PackedLane {
            words: Vec::with_capacity(alloc, MOST_WORDS * more)?,
            count: 0,
            last: 0,
            last_but_one: 0,
        })
    }

    /// Makes room for so many more records. A refusal changes no record and no room.
    pub fn make_room(&mut self, more: usize) -> Result<(), AllocError>
        requires { more < 4294967296 }
        ensures records { lane_unpacked self.new ≡ lane_unpacked self.old }
        ensures len { vec_len self.new.words ≡ vec_len self.old.words }
        ensures ok { OnOk result (vec_len self.new.words + 27 * more ≤ vec_capacity self.new.words) }
        ensures refused { OnErr result (vec_capacity self.new.words ≡ vec_capacity self.old.words) }
    {
        self.words.reserve(MOST_WORDS * more)
    }

    /// Adds a record. A refusal changes nothing.
    pub fn push(&mut self, kind: u8, of: u8, numbers: &[u64]) -> Result<(), AllocError>
        requires { length numbers.now ≤ 13 }
        ensures ok { OnOk result (lane_unpacked self.new ≡ lane_unpacked self.old ++ record { kind = kind; of = of; numbers = numbers.now } ∷ []) }
        ensures refused { OnErr result (lane_unpacked self.new ≡ lane_unpacked self.old) }
    {
        self.make_room(1)?;
        self.push_reserved(kind, of, numbers);
        Ok(())
    }

    /// Adds a record for which there is room.
    pub fn push_reserved(&mut self, kind: u8, of: u8, numbers: &[u64])
        requires few { length numbers.now ≤ 13 }
        requires room { vec_len self.old.words + 27 ≤ vec_capacity self.old.words }
        ensures records { lane_unpacked self.new ≡ lane_unpacked self.old ++ record { kind = kind; of = of; numbers = numbers.now } ∷ [] }
        ensures len { vec_len self.new.words ≤ vec_len self.old.words + 27 }
        ensures capacity { vec_capacity self.new.words ≡ vec_capacity self.old.words }
    {
        let at = self.words.len();
        let head = u32::from(kind) + 256 * u32::from(of) + 65536 * marks_of(numbers);
        self.words.push_reserved(head);
        add_numbers(&mut self.words, numbers);
        self.count += 1;
        self.last_but_one = self.last;
        self.last = at;
    }

    /// How many records there are.
    pub fn len(&self) -> usize
        ensures { result ≡ length (lane_unpacked self.now) }
    {
        self.count
    }

    /// Whether there is none.
    pub fn is_empty(&self) -> bool
        ensures { result ≡ (length (lane_unpacked self.now) == 0) }
    {
        self.count == 0
    }
}

/// 1 where one word doesn't hold the number.
#[inline(always)]
fn wide_of(x: u64) -> u32
    ensures { result ≡ wide x }
{
    if x < 4294967296 { 0 } else { 1 }
}

/// Which of these numbers are wide, the first one lowest, and a 1 behind the last.
#[inline(always)]
fn marks_of(xs: &[u64]) -> u32
    requires { length xs.now ≤ 13 }
    ensures { result ≡ wide_marks xs.now }
{
    let mut marked = 1;
    let mut left = xs.len();
    while left > 0 {
        left -= 1;
        marked = wide_of(xs[left]) + 2 * marked;
    }
    marked
}

/// Adds a number, for which there is room.
#[inline(always)]
fn add_number(words: &mut Vec<u32>, x: u64)
    requires { vec_len words.old + 2 ≤ vec_capacity words.old }
    ensures items { words.new.items ≡ words.old.items ++ spread_one x }
    ensures len { vec_len words.new ≤ vec_len words.old + 2 }
    ensures capacity { vec_capacity words.new ≡ vec_capacity words.old }
{
    words.push_reserved((x % 4294967296) as u32);
    if x >= 4294967296 {
        words.push_reserved((x / 4294967296) as u32);
    }
}

/// Adds these numbers, for which there is room.
#[inline(always)]
fn add_numbers(words: &mut Vec<u32>, xs: &[u64])
    requires { vec_len words.old + 2 * length xs.now ≤ vec_capacity words.old }
    ensures items { words.new.items ≡ words.old.items ++ spread xs.now }
    ensures len { vec_len words.new ≤ vec_len words.old + 2 * length xs.now }
    ensures capacity { vec_capacity words.new ≡ vec_capacity words.old }
{
    for x in xs {
        add_number(words, *x);
    }
}
