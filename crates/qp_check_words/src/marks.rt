//! The marks of records on words: how many operations a word had after them.

ghost use Rattle.std.specs.Prelude.{◌≡◌};
ghost use Rattle.qp_model.specs.Record.{item_of};
ghost use Rattle.qp_model.specs.History.{touch};
ghost use Rattle.qp_model.specs.WordOf.{number_before, fitting_number};
ghost use Rattle.qp_check_words.specs.Marks.{drawn_key, mark_touched, shown_key};

use qp_check_lanes::groups::Key;
use qp_model::{Rec, Touched};

/// What a record does to a word.
#[derive(Clone, Copy, PartialEq, Eq, Debug)]
pub enum Mark {
    /// It draws the number before this one.
    Drawn(u128),
    /// It shows that the word had so many operations.
    Shown(u128),
    Unmarked,
}

/// What the record does to its word.
pub fn mark_of(r: &Rec) -> Mark
    ensures { result ≡ mark_touched (touch (item_of r.now)) }
{
    match Touched::by(r) {
        Touched::Draws { mark, .. } => Mark::Drawn(mark),
        Touched::Shows { mark, .. } => Mark::Shown(mark),
        Touched::Neither => Mark::Unmarked,
    }
}

/// Records by the numbers that they draw.
pub struct DrawnNumber;

impl Key for DrawnNumber {
    ghost key_of = { λ _ i. drawn_key i };

    fn key(&self, r: &Rec) -> Option<usize> {
        match mark_of(r) {
            Mark::Drawn(n) => place(n.checked_sub(1)?),
            Mark::Shown(_) | Mark::Unmarked => None,
        }
    }
}

/// Records by the number of operations that they show.
pub struct ShownNumber;

impl Key for ShownNumber {
    ghost key_of = { λ _ i. shown_key i };

    fn key(&self, r: &Rec) -> Option<usize> {
        match mark_of(r) {
            Mark::Shown(n) => place(n),
            Mark::Drawn(_) | Mark::Unmarked => None,
        }
    }
}

/// The number as a place, if it fits.
fn place(n: u128) -> Option<usize>
    ensures { result ≡ fitting_number n }
{
    if n < 1 << 64 { Some(n as usize) } else { None }
}
