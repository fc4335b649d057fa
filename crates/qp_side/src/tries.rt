//! Tries on a time event: a look, and then one compared exchange after another, until one is made or the counter decides.

ghost use Rattle.std.specs.Prelude.{◌≡◌, ◌+◌, ◌/◌, ◌<◌, ◌≤◌, cond, IsTrue};
ghost use Rattle.qp_model.specs.WordLaw.{is_timer};
ghost use Rattle.qp_table.specs.After.{HasRoom};
ghost use Rattle.qp_side.specs.Rule.{timer_at};
ghost use Rattle.qp_side.specs.Told.{last_seen};
ghost use Rattle.qp_side.specs.Tries.{ArmEnds, DisarmEnds, RearmEnds, TickEnds};

use crate::clock_steps::{arm, disarm, look_at, look_if_armed, look_to_arm, rearm, tick};
use crate::steps::Words;
use crate::view::SideView;
use atomic_table::Seat;
use qp_base::Steps;
use std::sync::ledger::Ledger;

/// Arms a time event where it is disarmed. Answers the word as it was then, and whether it is armed by this.
pub(crate) fn try_arm<L: Ledger>(
    words: &Words,
    seat: &mut Seat<(), SideView>,
    object: u8,
    t: u8,
    ticks: u16,
    interval: u16,
    steps: &mut Steps<L>,
) -> (u64, bool)
    requires own { seat.old.table_id ≡ words.now.shared.table_id }
    requires wide { words.now.shared.table_id.words ≡ 4489 }
    requires room { HasRoom seat.old.me.0.view }
    requires timer { IsTrue (is_timer words.now.shared.key t) }
    ensures same { (seat.new.table_id ≡ seat.old.table_id) × (seat.new.id ≡ seat.old.id) × (seat.new.me.1 ≡ seat.old.me.1) }
    ensures ends { ArmEnds object t ticks interval seat.old.me.0 result.0 result.1 seat.new.me.0 }
    ensures up { steps.old ≤ steps.new }
    ensures tries { steps.new + last_seen (timer_at t) seat.old.me.0 / 4294967296 ≤ steps.old + cond result.1 1 0 + result.0 / 4294967296 }
{
    let mut found = look_to_arm(words, seat, object, t);
    if found % 65536 != 0 {
        return (found, false);
    }
    loop {
        let now = arm(words, seat, object, t, ticks, interval, found, steps);
        if now == found {
            return (now, true);
        }
        if now % 65536 != 0 {
            return (now, false);
        }
        found = now;
    }
}

/// Disarms a time event where it is armed. Answers the word as it was then, and whether it is disarmed by this.
pub(crate) fn try_disarm<L: Ledger>(
    words: &Words,
    seat: &mut Seat<(), SideView>,
    object: u8,
    t: u8,
    steps: &mut Steps<L>,
) -> (u64, bool)
    requires own { seat.old.table_id ≡ words.now.shared.table_id }
    requires wide { words.now.shared.table_id.words ≡ 4489 }
    requires room { HasRoom seat.old.me.0.view }
    requires timer { IsTrue (is_timer words.now.shared.key t) }
    ensures same { (seat.new.table_id ≡ seat.old.table_id) × (seat.new.id ≡ seat.old.id) × (seat.new.me.1 ≡ seat.old.me.1) }
    ensures ends { DisarmEnds object t seat.old.me.0 result.0 result.1 seat.new.me.0 }
    ensures up { steps.old ≤ steps.new }
    ensures tries { steps.new + last_seen (timer_at t) seat.old.me.0 / 4294967296 ≤ steps.old + cond result.1 1 0 + result.0 / 4294967296 }
{
    let mut found = look_if_armed(words, seat, object, t);
    if found % 65536 == 0 {
        return (found, false);
    }
    loop {
        let now = disarm(words, seat, object, t, found, steps);
        if now == found {
            return (now, true);
        }
        if now % 65536 == 0 {
            return (now, false);
        }
        found = now;
    }
}

/// Arms a time event anew, and answers the word as it was then.
pub(crate) fn try_rearm<L: Ledger>(
    words: &Words,
    seat: &mut Seat<(), SideView>,
    object: u8,
    t: u8,
    ticks: u16,
    steps: &mut Steps<L>,
) -> u64
    requires own { seat.old.table_id ≡ words.now.shared.table_id }
    requires wide { words.now.shared.table_id.words ≡ 4489 }
    requires room { HasRoom seat.old.me.0.view }
    requires timer { IsTrue (is_timer words.now.shared.key t) }
    ensures same { (seat.new.table_id ≡ seat.old.table_id) × (seat.new.id ≡ seat.old.id) × (seat.new.me.1 ≡ seat.old.me.1) }
    ensures ends { RearmEnds object t ticks seat.old.me.0 result seat.new.me.0 }
    ensures up { steps.old ≤ steps.new }
    ensures tries { steps.new + last_seen (timer_at t) seat.old.me.0 / 4294967296 ≤ steps.old + 1 + result / 4294967296 }
{
    let mut found = look_at(words, seat, t);
    loop {
        let now = rearm(words, seat, object, t, ticks, found, steps);
        if now == found {
            return now;
        }
        found = now;
    }
}

/// One tick of a time event where it is armed. Answers the word as it was then, and whether it ticked.
pub(crate) fn try_tick<L: Ledger>(
    words: &Words,
    seat: &mut Seat<(), SideView>,
    object: u8,
    t: u8,
    steps: &mut Steps<L>,
) -> (u64, bool)
    requires own { seat.old.table_id ≡ words.now.shared.table_id }
    requires wide { words.now.shared.table_id.words ≡ 4489 }
    requires room { HasRoom seat.old.me.0.view }
    requires timer { IsTrue (is_timer words.now.shared.key t) }
    ensures same { (seat.new.table_id ≡ seat.old.table_id) × (seat.new.id ≡ seat.old.id) × (seat.new.me.1 ≡ seat.old.me.1) }
    ensures ends { TickEnds object t seat.old.me.0 result.0 result.1 seat.new.me.0 }
    ensures up { steps.old ≤ steps.new }
    ensures tries { steps.new + last_seen (timer_at t) seat.old.me.0 / 4294967296 ≤ steps.old + cond result.1 1 0 + result.0 / 4294967296 }
{
    let mut found = look_if_armed(words, seat, object, t);
    if found % 65536 == 0 {
        return (found, false);
    }
    loop {
        let now = tick(words, seat, object, t, found, steps);
        if now == found {
            return (now, true);
        }
        if now % 65536 == 0 {
            return (now, false);
        }
        found = now;
    }
}
