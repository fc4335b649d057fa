//! The steps on time events. Each is one atomic operation, under the rule of the side table.

ghost use Rattle.std.specs.Prelude.{◌≡◌, ◌+◌, ◌-◌, ◌*◌, ◌/◌, ◌<◌, eqb, cond, IsTrue};
ghost use Rattle.qp_model.specs.WordLaw.{is_timer};
ghost use Rattle.qp_table.specs.After.{HasRoom};
ghost use Rattle.qp_side.specs.Rule.{timer_at};
ghost use Rattle.qp_side.specs.Told.{last_seen, counter_in, interval_in, eyed_armed, eyed_idle, eyed_clock, EyeTimerTold, ArmTold, DisarmTold, RearmTold, TickTold};

use crate::steps::{NOTHING, SideAbout, Words, exchange, look};
use crate::view::SideView;
use atomic_table::Seat;
use qp_base::Steps;
use qp_table::UNIT;
use std::marker::Brand;
use std::sync::ledger::Ledger;

/// The word of a time event.
fn timer_at(t: u8) -> usize
    ensures { result ≡ timer_at t }
{
    1632 + 8 * t as usize
}

/// Looks at a time event to arm it, with the record of an assertion where it is armed.
pub fn look_to_arm(words: &Words, seat: &mut Seat<(), SideView>, object: u8, t: u8) -> u64
    requires own { seat.old.table_id ≡ words.now.shared.table_id }
    requires wide { words.now.shared.table_id.words ≡ 4489 }
    requires room { HasRoom seat.old.me.0.view }
    requires timer { IsTrue (is_timer words.now.shared.key t) }
    ensures same { (seat.new.table_id ≡ seat.old.table_id) × (seat.new.id ≡ seat.old.id) × (seat.new.me.1 ≡ seat.old.me.1) }
    ensures told { EyeTimerTold (eyed_armed object t) t seat.old.me.0 result seat.new.me.0 }
{
    let about = SideAbout {
        by: object,
        timer: t,
        ..NOTHING
    };
    look::<Brand>(words, seat, timer_at(t), about)
}

/// Looks at a time event, with the record `idle` where it isn't armed.
pub fn look_if_armed(words: &Words, seat: &mut Seat<(), SideView>, object: u8, t: u8) -> u64
    requires own { seat.old.table_id ≡ words.now.shared.table_id }
    requires wide { words.now.shared.table_id.words ≡ 4489 }
    requires room { HasRoom seat.old.me.0.view }
    requires timer { IsTrue (is_timer words.now.shared.key t) }
    ensures same { (seat.new.table_id ≡ seat.old.table_id) × (seat.new.id ≡ seat.old.id) × (seat.new.me.1 ≡ seat.old.me.1) }
    ensures told { EyeTimerTold (eyed_idle object t) t seat.old.me.0 result seat.new.me.0 }
{
    let about = SideAbout {
        by: object,
        timer: t,
        ..NOTHING
    };
    look::<Brand>(words, seat, timer_at(t), about)
}

/// Looks at a time event.
pub fn look_at(words: &Words, seat: &mut Seat<(), SideView>, t: u8) -> u64
    requires own { seat.old.table_id ≡ words.now.shared.table_id }
    requires wide { words.now.shared.table_id.words ≡ 4489 }
    requires timer { IsTrue (is_timer words.now.shared.key t) }
    ensures same { (seat.new.table_id ≡ seat.old.table_id) × (seat.new.id ≡ seat.old.id) × (seat.new.me.1 ≡ seat.old.me.1) }
    ensures told { EyeTimerTold (eyed_clock t) t seat.old.me.0 result seat.new.me.0 }
{
    let about = SideAbout {
        timer: t,
        ..NOTHING
    };
    look::<Brand>(words, seat, timer_at(t), about)
}

/// Arms a time event where its word is `old`, as it was last seen, and answers the word that was found.
/// The try is counted.
pub fn arm<L: Ledger>(
    words: &Words,
    seat: &mut Seat<(), SideView>,
    object: u8,
    t: u8,
    ticks: u16,
    interval: u16,
    old: u64,
    steps: &mut Steps<L>,
) -> u64
    requires own { seat.old.table_id ≡ words.now.shared.table_id }
    requires wide { words.now.shared.table_id.words ≡ 4489 }
    requires room { HasRoom seat.old.me.0.view }
    requires timer { IsTrue (is_timer words.now.shared.key t) }
    requires last { last_seen (timer_at t) seat.old.me.0 ≡ old }
    requires idle { counter_in old ≡ 0 }
    requires small { old < 1152921504606846976 }
    ensures same { (seat.new.table_id ≡ seat.old.table_id) × (seat.new.id ≡ seat.old.id) × (seat.new.me.1 ≡ seat.old.me.1) }
    ensures counted { steps.new ≡ steps.old + 1 }
    ensures told { ArmTold object t ticks interval old ((old / 4294967296 + 1) * 4294967296 + interval * 65536 + ticks) seat.old.me.0 result seat.new.me.0 }
{
    steps.step();
    let new = (old / UNIT + 1) * UNIT + interval as u64 * 65536 + ticks as u64;
    let about = SideAbout {
        by: object,
        timer: t,
        ticks,
        interval,
        old,
        new,
        ..NOTHING
    };
    exchange::<Brand>(words, seat, timer_at(t), old, new, about)
}

/// Disarms a time event where its word is `old`, as it was last seen, and answers the word that was found.
/// The try is counted.
pub fn disarm<L: Ledger>(
    words: &Words,
    seat: &mut Seat<(), SideView>,
    object: u8,
    t: u8,
    old: u64,
    steps: &mut Steps<L>,
) -> u64
    requires own { seat.old.table_id ≡ words.now.shared.table_id }
    requires wide { words.now.shared.table_id.words ≡ 4489 }
    requires room { HasRoom seat.old.me.0.view }
    requires timer { IsTrue (is_timer words.now.shared.key t) }
    requires last { last_seen (timer_at t) seat.old.me.0 ≡ old }
    requires armed { 0 < counter_in old }
    requires small { old < 1152921504606846976 }
    ensures same { (seat.new.table_id ≡ seat.old.table_id) × (seat.new.id ≡ seat.old.id) × (seat.new.me.1 ≡ seat.old.me.1) }
    ensures counted { steps.new ≡ steps.old + 1 }
    ensures told { DisarmTold object t old (old + 4294967296 - counter_in old) seat.old.me.0 result seat.new.me.0 }
{
    steps.step();
    let new = old + UNIT - old % 65536;
    let about = SideAbout {
        by: object,
        timer: t,
        old,
        new,
        ..NOTHING
    };
    exchange::<Brand>(words, seat, timer_at(t), old, new, about)
}

/// Arms a time event anew where its word is `old`, as it was last seen, and answers the word that was found.
/// The try is counted.
pub fn rearm<L: Ledger>(
    words: &Words,
    seat: &mut Seat<(), SideView>,
    object: u8,
    t: u8,
    ticks: u16,
    old: u64,
    steps: &mut Steps<L>,
) -> u64
    requires own { seat.old.table_id ≡ words.now.shared.table_id }
    requires wide { words.now.shared.table_id.words ≡ 4489 }
    requires room { HasRoom seat.old.me.0.view }
    requires timer { IsTrue (is_timer words.now.shared.key t) }
    requires last { last_seen (timer_at t) seat.old.me.0 ≡ old }
    requires small { old < 1152921504606846976 }
    ensures same { (seat.new.table_id ≡ seat.old.table_id) × (seat.new.id ≡ seat.old.id) × (seat.new.me.1 ≡ seat.old.me.1) }
    ensures counted { steps.new ≡ steps.old + 1 }
    ensures told { RearmTold object t ticks old (old + 4294967296 + ticks - counter_in old) seat.old.me.0 result seat.new.me.0 }
{
    steps.step();
    let new = old + UNIT + ticks as u64 - old % 65536;
    let about = SideAbout {
        by: object,
        timer: t,
        ticks,
        old,
        new,
        ..NOTHING
    };
    exchange::<Brand>(words, seat, timer_at(t), old, new, about)
}

/// The word after a tick: at the last tick the interval is the counter again.
fn ticked(old: u64) -> u64
    requires armed { 0 < counter_in old }
    requires small { old < 1152921504606846976 }
    ensures { result + 1 ≡ old + 4294967296 + cond (eqb (counter_in old) 1) (interval_in old) 0 }
{
    if old % 65536 == 1 {
        old + UNIT - 1 + old / 65536 % 65536
    } else {
        old + UNIT - 1
    }
}

/// One tick of a time event where its word is `old`, as it was last seen, and answers the word that was found.
/// The try is counted.
pub fn tick<L: Ledger>(
    words: &Words,
    seat: &mut Seat<(), SideView>,
    object: u8,
    t: u8,
    old: u64,
    steps: &mut Steps<L>,
) -> u64
    requires own { seat.old.table_id ≡ words.now.shared.table_id }
    requires wide { words.now.shared.table_id.words ≡ 4489 }
    requires room { HasRoom seat.old.me.0.view }
    requires timer { IsTrue (is_timer words.now.shared.key t) }
    requires last { last_seen (timer_at t) seat.old.me.0 ≡ old }
    requires armed { 0 < counter_in old }
    requires small { old < 1152921504606846976 }
    ensures same { (seat.new.table_id ≡ seat.old.table_id) × (seat.new.id ≡ seat.old.id) × (seat.new.me.1 ≡ seat.old.me.1) }
    ensures counted { steps.new ≡ steps.old + 1 }
    ensures told { TickTold object t old (old + 4294967295 + cond (eqb (counter_in old) 1) (interval_in old) 0) seat.old.me.0 result seat.new.me.0 }
{
    steps.step();
    let new = ticked(old);
    let about = SideAbout {
        by: object,
        timer: t,
        old,
        new,
        ..NOTHING
    };
    exchange::<Brand>(words, seat, timer_at(t), old, new, about)
}
