//! The steps on signals. Each is one atomic operation, under the rule of the side table.

ghost use Rattle.std.specs.Prelude.{◌≡◌, ◌<◌, ◌≤◌, true, false, IsTrue};
ghost use Rattle.qp_model.specs.WordLaw.{is_signal};
ghost use Rattle.qp_table.specs.Counting.{many};
ghost use Rattle.qp_table.specs.Rule.{is_serve};
ghost use Rattle.qp_table.specs.After.{HasRoom};
ghost use Rattle.qp_side.specs.Rule.{signal_at, member_in};
ghost use Rattle.qp_side.specs.Told.{bit_value, EyeSignalTold, SubTold, UnsubTold, PubTold};

use crate::steps::{NOTHING, SideAbout, Words, add, look};
use crate::view::SideView;
use atomic_table::Seat;
use qp_table::UNIT;
use std::marker::Brand;

/// What an object adds to a set.
fn bit_of(object: u8) -> u64
    requires some { 0 < object }
    requires within { object ≤ 32 }
    ensures value { result ≡ bit_value object }
    ensures most { result ≤ 2147483648 }
{
    1 << (object - 1)
}

/// The word of a signal.
fn signal_at(sig: u16) -> usize
    ensures { result ≡ signal_at sig }
{
    8 * sig as usize
}

/// Looks at a signal for an object, with the record `same` where its bit is `bit`.
pub fn look_for(words: &Words, seat: &mut Seat<(), SideView>, object: u8, sig: u16, bit: u64) -> u64
    requires own { seat.old.table_id ≡ words.now.shared.table_id }
    requires wide { words.now.shared.table_id.words ≡ 4489 }
    requires room { HasRoom seat.old.me.0.view }
    requires signal { IsTrue (is_signal words.now.shared.key sig) }
    requires small { sig < 204 }
    requires serves { 0 < many (is_serve object) seat.old.me.0.view.serves }
    ensures same { (seat.new.table_id ≡ seat.old.table_id) × (seat.new.id ≡ seat.old.id) × (seat.new.me.1 ≡ seat.old.me.1) }
    ensures told { EyeSignalTold bit object sig seat.old.me.0 result seat.new.me.0 }
{
    let about = SideAbout {
        by: object,
        to: sig,
        bit,
        ..NOTHING
    };
    look::<Brand>(words, seat, signal_at(sig), about)
}

/// The object becomes a subscriber.
pub fn put(words: &Words, seat: &mut Seat<(), SideView>, object: u8, sig: u16) -> u64
    requires own { seat.old.table_id ≡ words.now.shared.table_id }
    requires wide { words.now.shared.table_id.words ≡ 4489 }
    requires room { HasRoom seat.old.me.0.view }
    requires signal { IsTrue (is_signal words.now.shared.key sig) }
    requires small { sig < 204 }
    requires some { 0 < object }
    requires most { object ≤ 32 }
    requires serves { 0 < many (is_serve object) seat.old.me.0.view.serves }
    requires out { member_in object sig seat.old.me.0.view.logs ≡ false }
    ensures same { (seat.new.table_id ≡ seat.old.table_id) × (seat.new.id ≡ seat.old.id) × (seat.new.me.1 ≡ seat.old.me.1) }
    ensures told { SubTold object sig seat.old.me.0 result seat.new.me.0 }
{
    let about = SideAbout {
        by: object,
        to: sig,
        ..NOTHING
    };
    add::<Brand>(words, seat, signal_at(sig), UNIT + bit_of(object), about)
}

/// The subscriber goes.
pub fn take(words: &Words, seat: &mut Seat<(), SideView>, object: u8, sig: u16) -> u64
    requires own { seat.old.table_id ≡ words.now.shared.table_id }
    requires wide { words.now.shared.table_id.words ≡ 4489 }
    requires room { HasRoom seat.old.me.0.view }
    requires signal { IsTrue (is_signal words.now.shared.key sig) }
    requires small { sig < 204 }
    requires some { 0 < object }
    requires most { object ≤ 32 }
    requires serves { 0 < many (is_serve object) seat.old.me.0.view.serves }
    requires member { member_in object sig seat.old.me.0.view.logs ≡ true }
    ensures same { (seat.new.table_id ≡ seat.old.table_id) × (seat.new.id ≡ seat.old.id) × (seat.new.me.1 ≡ seat.old.me.1) }
    ensures told { UnsubTold object sig seat.old.me.0 result seat.new.me.0 }
{
    let about = SideAbout {
        by: object,
        to: sig,
        ..NOTHING
    };
    add::<Brand>(words, seat, signal_at(sig), UNIT - bit_of(object), about)
}

/// Looks at the subscribers of a signal, with the record `pub`.
pub fn look_at_all(words: &Words, seat: &mut Seat<(), SideView>, object: u8, sig: u16) -> u64
    requires own { seat.old.table_id ≡ words.now.shared.table_id }
    requires wide { words.now.shared.table_id.words ≡ 4489 }
    requires room { HasRoom seat.old.me.0.view }
    requires signal { IsTrue (is_signal words.now.shared.key sig) }
    requires small { sig < 204 }
    ensures same { (seat.new.table_id ≡ seat.old.table_id) × (seat.new.id ≡ seat.old.id) × (seat.new.me.1 ≡ seat.old.me.1) }
    ensures told { PubTold words.now.shared.key object sig seat.old.me.0 result seat.new.me.0 }
{
    let about = SideAbout {
        by: object,
        to: sig,
        ..NOTHING
    };
    look::<Brand>(words, seat, signal_at(sig), about)
}
