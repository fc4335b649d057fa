//! The numbered words.

ghost use Rattle.std.specs.Prelude.{◌≡◌, nat_lt, if◌then◌else◌};
ghost use Rattle.qp_model.specs.Record.{item_of};
ghost use Rattle.qp_model.specs.History.{touch};
ghost use Rattle.qp_model.specs.Touches.{as_word};
ghost use Rattle.qp_model.specs.WordOf.{word_of, number_shown, fitting_word, fitting_number, number_before};

use crate::record::Rec;
use crate::touches::{Named, Touched};

#[derive(Clone, Copy, PartialEq, Eq, Debug)]
pub enum Word {
    Pool(u8),
    Block(u8, u8),
    Queue(u8),
    Signal(u16),
    Timer(u8),
}

impl Rec {
    /// The word on which the record draws a number, or which it shows. None where its kind has none,
    /// where its numbers aren't those of its kind, and where the word doesn't fit its type.
    #[tactic(auto, unfolding(crate::specs::Record::item_of))]
    pub fn word(&self) -> Option<Word>
        ensures { result ≡ word_of (touch (item_of self.now)) }
    {
        match Touched::by(self) {
            Touched::Draws { word, .. } | Touched::Shows { word, .. } => word.fitting(),
            Touched::Neither => None,
        }
    }

    /// The number of the operation, or of how many operations the word showed. None as for `word`, but
    /// where the number doesn't fit in 64 bits in place of the word.
    #[tactic(auto, unfolding(crate::specs::Record::item_of))]
    pub fn number(&self) -> Option<u64>
        ensures { result ≡ number_shown (touch (item_of self.now)) }
    {
        match Touched::by(self) {
            Touched::Draws { mark, .. } => number_before(mark),
            Touched::Shows { mark, .. } => fitting(mark),
            Touched::Neither => None,
        }
    }
}

impl Named {
    /// The word, where its numbers fit its type.
    fn fitting(self) -> Option<Word>
        ensures { result ≡ fitting_word (as_word self) }
    {
        Some(match self {
            Named::Pool { p } => Word::Pool(byte(p)?),
            Named::Block { p, b } => Word::Block(byte(p)?, byte(b)?),
            Named::Queue { a } => Word::Queue(byte(a)?),
            Named::Signal { sig } => Word::Signal(short(sig)?),
            Named::Timer { t } => Word::Timer(byte(t)?),
        })
    }
}

fn byte(n: u64) -> Option<u8>
    ensures { result ≡ (if nat_lt n 256 then Some n else None) }
{
    if n < 256 { Some(n as u8) } else { None }
}

fn short(n: u64) -> Option<u16>
    ensures { result ≡ (if nat_lt n 65536 then Some n else None) }
{
    if n < 65536 { Some(n as u16) } else { None }
}

/// The number, where it fits in 64 bits.
fn fitting(n: u128) -> Option<u64>
    ensures { result ≡ fitting_number n }
{
    if n <= u128::from(u64::MAX) {
        Some(n as u64)
    } else {
        None
    }
}

/// The number before a mark.
fn number_before(mark: u128) -> Option<u64>
    ensures { result ≡ number_before mark }
{
    match mark {
        0 => None,
        _ => fitting(mark - 1),
    }
}
