//! Lines of a journal's text.

ghost use Rattle.std.specs.Prelude.{◌≡◌, ◌<◌, ◌≤◌, ◌+◌, ◌*◌, ◌++◌, ◌∷◌, [], ℕ, length, map, decimal, IsTrue};
ghost use Rattle.std.specs.Fmt.{signed_decimal};
ghost use Rattle.qp_model.specs.Output.{is_record_in_range, item, record_item};
ghost use Rattle.qp_model.specs.OutputText.{after_spaces, line_text, say_texts};
ghost use Rattle.qp_model.specs.Vocabulary.{word_text};

use itoa::write_digits;
use qp_model::{Rec, kinds, vocabulary};
use std::marker::Model;

/// Room for the longest line: a lane's number and a space, a word of 8 bytes, 14 numbers of 20 digits, each after a space, and the
/// newline.
const ROOM: usize = 324;

/// A line that is made from its end on, so that each number's digits are written just where they stand in it. One room
/// serves line after line. Contracts see its bytes.
#[derive(Drop)]
pub struct Line {
    room: [u8; ROOM],
    start: usize,
}

impl Model for Line {
    ghost use Rattle.std.specs.Prelude.{◌≤◌, List, ℕ, drop};

    ghost Value = { List ℕ };

    ghost view = { λ l. drop l.start l.room };

    ghost invariant = { λ l. l.start ≤ 324 };
}

impl Line {
    /// A line without a byte.
    pub fn new() -> Line
        ensures { result ≡ [] }
    {
        Line {
            room: [0; ROOM],
            start: ROOM,
        }
    }

    /// The bytes of the line.
    pub fn as_bytes(&self) -> &[u8]
        ensures { result.now ≡ self.now }
    {
        &self.room[self.start..]
    }

    /// Makes the line of the item with this id, whose numbers are the first and these.
    pub(crate) fn make(&mut self, form: u8, id: u8, first: u64, others: &[u64])
        requires least { 1 ≤ id }
        requires most { id ≤ 46 }
        requires count { length others.now ≤ 13 }
        ensures bytes { self.new ≡ line_text form (item id (first ∷ others.now)) }
        ensures len { length self.new ≤ 303 }
    {
        self.clear();
        self.put_byte(b'\n');
        if form == 2 && id == kinds::SAY {
            self.put_said(others);
        } else {
            self.put_numbers(others);
        }
        self.put_number(first);
        self.put_word(id);
    }

    /// Makes the line of a record in this form.
    pub fn make_record(&mut self, form: u8, r: &Rec)
        requires { IsTrue (is_record_in_range form r.now) }
        ensures bytes { self.new ≡ line_text form (record_item r.now) }
        ensures len { length self.new ≤ 303 }
    {
        self.make(form, r.kind, u64::from(r.of), r.nums.as_slice());
    }

    /// Makes the line of a record behind the number of its lane and a space.
    pub fn make_placed(&mut self, lane: u32, form: u8, r: &Rec)
        requires { IsTrue (is_record_in_range form r.now) }
        ensures { self.new ≡ decimal lane ++ 32 ∷ line_text form (record_item r.now) }
    {
        self.make_record(form, r);
        self.put_byte(b' ');
        self.put_digits(u64::from(lane));
    }

    /// Drops all bytes.
    fn clear(&mut self)
        ensures { self.new ≡ [] }
    {
        self.start = ROOM;
    }

    /// Puts a word in front.
    fn put_word(&mut self, id: u8)
        requires least { 1 ≤ id }
        requires most { id ≤ 46 }
        requires room { length self.old + 8 ≤ 324 }
        ensures bytes { self.new ≡ word_text id ++ self.old }
        ensures len { length self.new ≤ length self.old + 8 }
    {
        let word = vocabulary::word_text(id).as_bytes();
        let end = self.start;
        self.start -= word.len();
        self.room[self.start..end].copy_from_slice(word);
    }

    /// Puts numbers in front, each after a space. The first, a value that is said, has a sign.
    fn put_said(&mut self, nums: &[u64])
        requires room { length self.old + 21 * length nums.now ≤ 324 }
        ensures bytes { (o : ℕ) → after_spaces (decimal o ∷ []) ++ self.new ≡ after_spaces (say_texts (o ∷ nums.now)) ++ self.old }
        ensures len { length self.new ≤ length self.old + 21 * length nums.now }
    {
        match nums {
            [] => {}
            [value, others @ ..] => {
                self.put_numbers(others);
                self.put_signed(value.cast_signed());
            }
        }
    }

    /// Puts numbers in front, each after a space.
    fn put_numbers(&mut self, nums: &[u64])
        requires room { length self.old + 21 * length nums.now ≤ 324 }
        ensures bytes { self.new ≡ after_spaces (map decimal nums.now) ++ self.old }
        ensures len { length self.new ≤ length self.old + 21 * length nums.now }
    {
        let mut left = nums;
        while let [before @ .., n] = left {
            self.put_number(*n);
            left = before;
        }
    }

    /// Puts a number in front, after a space.
    fn put_number(&mut self, n: u64)
        requires { length self.old + 21 ≤ 324 }
        ensures bytes { self.new ≡ 32 ∷ decimal n ++ self.old }
        ensures len { length self.new ≤ length self.old + 21 }
    {
        self.put_digits(n);
        self.put_byte(b' ');
    }

    /// Puts a signed number in front, after a space.
    fn put_signed(&mut self, n: i64)
        requires { length self.old + 21 ≤ 324 }
        ensures bytes { self.new ≡ 32 ∷ signed_decimal n ++ self.old }
        ensures len { length self.new ≤ length self.old + 21 }
    {
        self.put_digits(n.unsigned_abs());
        if n < 0 {
            self.put_byte(b'-');
        }
        self.put_byte(b' ');
    }

    /// Puts the digits of a number in front.
    fn put_digits(&mut self, n: u64)
        requires { length self.old + 20 ≤ 324 }
        ensures bytes { self.new ≡ decimal n ++ self.old }
        ensures len { length self.new ≤ length self.old + 20 }
    {
        // (most numbers of a record have one digit)
        if n < 10 {
            self.put_byte(b'0' + n as u8);
            return;
        }
        let end = self.start;
        self.start = write_digits(n, &mut self.room, end);
    }

    /// Puts a byte in front.
    fn put_byte(&mut self, byte: u8)
        requires { length self.old < 324 }
        ensures bytes { self.new ≡ byte ∷ self.old }
        ensures len { length self.new ≡ length self.old + 1 }
    {
        self.start -= 1;
        self.room[self.start] = byte;
    }
}
