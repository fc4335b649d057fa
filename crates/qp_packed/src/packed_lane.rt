//! The records of a lane, packed.

ghost use Rattle.std.specs.Prelude.{◌≡◌, ◌-◌};
ghost use Rattle.qp_packed.specs.Packing.{ArePacked, ArePacked-prop, record_begin, records_read};

/// How many words a record takes at most: a head, and two for each of 13 numbers.
pub const MOST_WORDS: usize = 27;

/// The records of a lane, one behind another, and where the last two begin.
///
/// A record is a head, and then its numbers. The head has the record's kind in its lowest byte, the object in the next one, and
/// 14 bits that tell which numbers are wide: bit i is that of number i, and a 1 stands behind the last. A number is its low word,
/// and behind it, where it is wide, its high one.
#[derive(Drop)]
pub struct PackedLane {
    pub words: Vec<u32>,
    pub count: usize,
    pub last: usize,
    pub last_but_one: usize,
    ghost packed: { ArePacked count words.items } by { ArePacked-prop count words.items },
    ghost last_is: { last ≡ record_begin (count - 1) (records_read count words.items) },
    ghost last_but_one_is: { last_but_one ≡ record_begin (count - 2) (records_read count words.items) },
}
