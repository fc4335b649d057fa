//! The records of a lane, read one after another.

ghost use Rattle.std.specs.Prelude.{◌≡◌, ℕ, ◌+◌, ◌<◌, ◌≤◌, ◌/◌, ◌==◌, List, [], ◌∷◌, ◌++◌, length, drop, slice_get, true, false};
ghost use Rattle.std.specs.Option.{option_map};
ghost use Rattle.qp_packed.specs.Packing.{ArePacked, words_behind, wide_marks, numbers_in, records_read, spread};
ghost use Rattle.qp_packed.specs.Reading.{Marked, Reads, HasUnread};

use arrayvec::ArrayVec;
use std::marker::Model;

/// The records that are still to come.
#[derive(Drop)]
pub struct Cursor<'a> {
    words: &'a [u32],
    left: usize,
}

impl<'a> Model for Cursor<'a> {
    ghost use Rattle.std.specs.Prelude.{List};
    ghost use Rattle.qp_packed.specs.Packing.{ArePacked, PackedRecord, records_read};

    ghost Value = { List PackedRecord };

    ghost view = { λ b. records_read b.left b.words.now };

    ghost invariant = { λ b. ArePacked b.left b.words.now };
}

/// The first of these words, and the others.
#[inline(always)]
fn cut(words: &[u32]) -> (u32, &[u32])
    requires { 0 < length words.now }
    ensures { words.now ≡ result.0 ∷ result.1.now }
{
    let Some((one, rest)) = words.split_first() else {
        unreachable!();
    };
    (*one, rest)
}

/// The first number of these words, and the words behind it.
#[inline(always)]
fn number_of(words: &[u32], mark: u32) -> (u64, &[u32])
    requires { HasUnread mark words.now }
    ensures { Reads mark words.now result.0 result.1.now }
{
    let (low, rest) = cut(words);
    if mark % 2 == 0 {
        return (u64::from(low), rest);
    }
    let (high, rest) = cut(rest);
    (u64::from(low) + 4294967296 * u64::from(high), rest)
}

/// Puts the numbers with which so marked words begin into a list without any, and answers the words behind them.
#[inline(always)]
fn numbers_into<'a>(words: &'a [u32], mark: u32, nums: &mut ArrayVec<u64, 13>) -> &'a [u32]
    requires marked { Marked mark words.now }
    requires none { nums.old.items ≡ [] }
    ensures numbers { nums.new.items ≡ numbers_in 13 mark words.now }
    ensures behind { result.now ≡ words_behind 13 mark words.now }
{
    let mut rest = words;
    let mut mark = mark;
    while mark > 1 {
        let (number, after) = number_of(rest, mark);
        nums.push(number);
        rest = after;
        mark /= 2;
    }
    rest
}

/// How many words numbers so marked take: one for each bit below the 1 behind the last, and one for each other 1.
#[inline(always)]
fn words_of(mark: u32) -> usize
    ensures { (xs : List ℕ) → length xs ≤ 13 → mark ≡ wide_marks xs → result ≡ length (spread xs) }
{
    let bits = 32 - mark.leading_zeros();
    let ones = mark.count_ones();
    (bits + ones).saturating_sub(2) as usize
}

/// The words from a place on.
#[inline(always)]
pub(crate) fn words_from(words: &[u32], at: usize) -> &[u32]
    requires { at ≤ length words.now }
    ensures { result.now ≡ drop at words.now }
{
    &words[at..]
}

/// The words behind the numbers with which so marked words begin.
#[inline(always)]
fn behind_numbers(words: &[u32], mark: u32) -> &[u32]
    requires { Marked mark words.now }
    ensures { result.now ≡ words_behind 13 mark words.now }
{
    words_from(words, words_of(mark))
}

impl<'a> Cursor<'a> {
    /// The records that these words are.
    pub(crate) fn over(words: &'a [u32], left: usize) -> Cursor<'a>
        requires { ArePacked left words.now }
        ensures { result ≡ records_read left words.now }
    {
        Cursor { words, left }
    }

    /// How many records are still to come.
    pub fn len(&self) -> usize
        ensures { result ≡ length self.now }
    {
        self.left
    }

    /// Whether none is.
    pub fn is_empty(&self) -> bool
        ensures { result ≡ (length self.now == 0) }
    {
        self.left == 0
    }

    /// The same records once more.
    pub fn again(&self) -> Cursor<'a>
        ensures { result ≡ self.now }
    {
        Cursor {
            words: self.words,
            left: self.left,
        }
    }

    /// Reads the next record into these places; false where none is left.
    #[inline(always)]
    pub fn read(&mut self, kind: &mut u8, of: &mut u8, numbers: &mut ArrayVec<u64, 13>) -> bool
        ensures some { result ≡ true → self.old ≡ record { kind = kind.new; of = of.new; numbers = numbers.new.items } ∷ self.new }
        ensures none { result ≡ false → (self.old ≡ []) × (self.new ≡ []) }
    {
        if self.left == 0 {
            return false;
        }
        let (head, rest) = cut(self.words);
        numbers.clear();
        let rest = numbers_into(rest, head / 65536, numbers);
        self.words = rest;
        self.left -= 1;
        *kind = (head % 256) as u8;
        *of = (head / 256 % 256) as u8;
        true
    }

    /// The kind of the next record, without its numbers.
    #[inline(always)]
    pub fn kind(&self) -> Option<u8>
        ensures { result ≡ option_map (λ r. r.kind) (slice_get self.now 0) }
    {
        if self.left == 0 {
            return None;
        }
        let (head, _) = cut(self.words);
        Some((head % 256) as u8)
    }

    /// The object of the next record, without its numbers.
    #[inline(always)]
    pub fn of(&self) -> Option<u8>
        ensures { result ≡ option_map (λ r. r.of) (slice_get self.now 0) }
    {
        if self.left == 0 {
            return None;
        }
        let (head, _) = cut(self.words);
        Some((head / 256 % 256) as u8)
    }

    /// Goes past the next record, whose numbers aren't read.
    #[inline(always)]
    pub fn skip(&mut self)
        ensures { self.new ≡ drop 1 self.old }
    {
        if self.left == 0 {
            return;
        }
        let (head, rest) = cut(self.words);
        self.words = behind_numbers(rest, head / 65536);
        self.left -= 1;
    }
}
