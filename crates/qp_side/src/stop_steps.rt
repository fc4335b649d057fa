//! The steps on the stop word. Each is one atomic operation, under the rule of the side table.

ghost use Rattle.std.specs.Prelude.{◌≡◌, ◌<◌, ◌≤◌, ◌∷◌, length};
ghost use Rattle.qp_side.specs.Told.{FoundTold};

use crate::steps::{NOTHING, SideAbout, Words, exchange, look};
use crate::view::SideView;
use atomic_table::Seat;
use std::marker::Brand;

/// The stop word.
const STOP: usize = 4488;

/// Hands in a code: the word takes it where it is 0.
pub fn hand_in(words: &Words, seat: &mut Seat<(), SideView>, code: u8)
    requires own { seat.old.table_id ≡ words.now.shared.table_id }
    requires wide { words.now.shared.table_id.words ≡ 4489 }
    requires log { 0 < length seat.old.me.0.view.logs }
    requires some { 0 < code }
    requires most { code ≤ 7 }
    ensures same { (seat.new.table_id ≡ seat.old.table_id) × (seat.new.id ≡ seat.old.id) × (seat.new.me.1 ≡ seat.old.me.1) }
    ensures told { seat.new.me.0 ≡ record seat.old.me.0 { stops = code ∷ seat.old.me.0.stops } }
{
    let about = SideAbout {
        by: code,
        ..NOTHING
    };
    exchange::<Brand>(words, seat, STOP, 0, code as u64, about);
}

/// Reads the stop word.
pub fn find(words: &Words, seat: &mut Seat<(), SideView>) -> u64
    requires own { seat.old.table_id ≡ words.now.shared.table_id }
    requires wide { words.now.shared.table_id.words ≡ 4489 }
    ensures same { (seat.new.table_id ≡ seat.old.table_id) × (seat.new.id ≡ seat.old.id) × (seat.new.me.1 ≡ seat.old.me.1) }
    ensures told { FoundTold seat.old.me.0 result seat.new.me.0 }
{
    look::<Brand>(words, seat, STOP, NOTHING)
}
