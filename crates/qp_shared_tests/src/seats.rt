//! A call of a seat by its name and numbers, where its conditions hold, for object 1.

ghost use Rattle.std.specs.Prelude.{◌≡◌, ◌+◌, ◌<◌, ◌≤◌, IfSome, IsTrue, length, true, ℕ};
ghost use Rattle.qp_model.specs.WordLaw.{is_object, is_signal, is_timer};
ghost use Rattle.qp_side.specs.Seat.{StaysAs, side_recs, rights, serves_object};
ghost use Rattle.qp_model.specs.Parts.{OwnsTimer};

use crate::objects::has_object;
use qp_base::Steps;
use qp_model::{Rec, System};
use qp_side::{Side, SideRoot, SideSeat};
use std::sync::ledger::Ledger;

/// A call that answers a record, for object 1, but for a tick, which is of none.
#[derive(Clone, Copy)]
pub(crate) enum Call {
    Subscribe { sig: u16 },
    Unsubscribe { sig: u16 },
    Subscribers { sig: u16 },
    Arm { t: u8, ticks: u16, interval: u16 },
    Disarm { t: u8 },
    Rearm { t: u8, ticks: u16 },
    Tick { t: u8 },
}

fn has_signal(sys: &System, sig: u16) -> bool
    ensures { result ≡ true → IsTrue (is_signal sys.now sig) }
{
    sig >= 4 && usize::from(sig) < sys.signals.items.len() + 4
}

fn has_timer(sys: &System, t: u8) -> bool
    ensures { result ≡ true → IsTrue (is_timer sys.now t) }
{
    t > 0 && usize::from(t) <= sys.timers.items.len()
}

/// Whether the time event is object 1's.
fn owns(sys: &System, t: u8) -> bool
    ensures { result ≡ true → OwnsTimer sys.now 1 t }
{
    if t == 0 {
        return false;
    }
    match sys.timers.items.get(usize::from(t) - 1) {
        Some(timer) => timer.object == 1,
        None => false,
    }
}

/// A call on a signal.
fn make_on_signal(seat: &mut SideSeat<'_>, sys: &System, call: Call) -> Option<Rec>
    requires its { seat.old.words.now.shared.key ≡ sys.now }
    requires serves { IsTrue (serves_object seat.old.seat.me.0 1) }
    requires room { length (side_recs seat.old.seat.me.0) ≤ 1000000 }
    ensures same { (seat.new.words ≡ seat.old.words) × (seat.new.seat.table_id ≡ seat.old.seat.table_id) }
    ensures stays { StaysAs seat.old.seat.me.0 seat.new.seat.me.0 }
    ensures more { length (side_recs seat.new.seat.me.0) ≤ length (side_recs seat.old.seat.me.0) + 1 }
{
    match call {
        Call::Subscribe { sig } if has_object(sys, 1) && has_signal(sys, sig) => {
            Some(seat.subscribe(1, sig))
        }
        Call::Unsubscribe { sig } if has_object(sys, 1) && has_signal(sys, sig) => {
            Some(seat.unsubscribe(1, sig))
        }
        Call::Subscribers { sig } if has_signal(sys, sig) => Some(seat.subscribers(1, sig)),
        _ => None,
    }
}

/// A call. None where its conditions don't hold.
pub(crate) fn make<L: Ledger>(
    seat: &mut SideSeat<'_>,
    sys: &System,
    call: Call,
    steps: &mut Steps<L>,
) -> Option<Rec>
    requires its { seat.old.words.now.shared.key ≡ sys.now }
    requires serves { IsTrue (serves_object seat.old.seat.me.0 1) }
    requires room { length (side_recs seat.old.seat.me.0) ≤ 1000000 }
    ensures same { (seat.new.words ≡ seat.old.words) × (seat.new.seat.table_id ≡ seat.old.seat.table_id) }
    ensures stays { StaysAs seat.old.seat.me.0 seat.new.seat.me.0 }
    ensures more { length (side_recs seat.new.seat.me.0) ≤ length (side_recs seat.old.seat.me.0) + 1 }
{
    match call {
        Call::Arm { t, ticks, interval } if ticks > 0 && owns(sys, t) => {
            Some(seat.arm(1, t, ticks, interval, steps))
        }
        Call::Disarm { t } if owns(sys, t) => Some(seat.disarm(1, t, steps)),
        Call::Rearm { t, ticks } if ticks > 0 && owns(sys, t) => {
            Some(seat.rearm(1, t, ticks, steps))
        }
        Call::Tick { t } if has_timer(sys, t) => Some(seat.tick_one(0, t, steps)),
        other => make_on_signal(seat, sys, other),
    }
}

/// The root's first seat, which serves object 1.
pub(crate) fn first_seat<'a>(
    side: &'a Side,
    root: &mut SideRoot,
    sys: &System,
) -> Option<SideSeat<'a>>
    requires its { side.now.words.shared.key ≡ sys.now }
    requires root { (root.old.seat.table_id ≡ side.now.words.shared.table_id) × (root.old.given ≡ 0) }
    requires all { (o : ℕ) → serves_object root.old.seat.me.0 o ≡ is_object sys.now o }
    ensures root { root.new.seat.table_id ≡ root.old.seat.table_id }
    ensures given { IfSome result (λ s. root.new.given ≡ 1) }
    ensures its { IfSome result (λ s. (s.words.now.shared.key ≡ sys.now) × (s.seat.table_id ≡ side.now.words.shared.table_id)) }
    ensures serves { IfSome result (λ s. IsTrue (serves_object s.seat.me.0 1)) }
    ensures none { IfSome result (λ s. length (side_recs s.seat.me.0) ≡ 0) }
    ensures one { IfSome result (λ s. rights s.seat.me.0 ≡ 1) }
{
    if !has_object(sys, 1) {
        return None;
    }
    Some(side.seat(root, 1))
}
