//! What sources and objects do: one group of calls each.

ghost use Rattle.std.specs.Prelude.{◌≡◌, ℕ, ◌∷◌, IfSome, IsTrue, true};
ghost use Rattle.qp_model.specs.Sound.{IsSound};
ghost use Rattle.qp_model.specs.WordLaw.{is_object};
ghost use Rattle.qp_calls.specs.Clauses.{IsEvent, EntryStands, event_of};
ghost use Rattle.qp_plain_tests.specs.Desk.{GoesOnAfter, MayGoOn, StaysSteady};
ghost use Rattle.qp_model.specs.Parts.{OwnsTimer};

use crate::handlers::announce;
use arrayvec::ArrayVec;
use qp_base::{Ev, Steps};
use qp_calls::{
    Arm, Deferred, Did, HeldEntry, Ops, defer, flush, forward, lifo_new, post_new, post_static,
    publish, recall, tick_rate,
};
use qp_model::{Rec, System};
use std::sync::ledger::Ledger;

/// One group of calls, of the object for which the lane works. Behind a signal stand its parameters, the margin and the reserve, where
/// the group has one.
#[derive(Clone, Copy)]
pub(crate) enum Deed {
    /// To an object.
    Post(u8, u16, &'static [u64], Option<u8>, Option<u8>),
    Lifo(u16, &'static [u64], Option<u8>),
    Publish(u16, &'static [u64], Option<u8>),
    /// A handler's publication, after a `locked` list with nothing in it.
    Announce(u16, &'static [u64], Option<u8>),
    /// To an object, with a margin.
    Forward(u8, Option<u8>),
    Defer,
    Recall,
    Flush,
    Subscribe(u16),
    Unsubscribe(u16),
    /// A timer, its ticks and its interval.
    Arm(u8, u16, u16),
    /// Assertion 4 of a timer.
    ArmBadly(u8),
    /// A timer and its ticks.
    Rearm(u8, u16),
    Disarm(u8),
    /// A rate.
    Tick(u8),
    /// Says the answer of the call before.
    SayOk,
    /// Says the first parameter of the event at hand.
    SayFirst,
}

/// Whether the system has an object of this priority.
#[tactic(auto, unfolding(qp_model::specs::WordLaw::is_object))]
pub(crate) fn has_object(sys: &System, p: u8) -> bool
    ensures { result ≡ is_object sys.now p }
{
    sys.object_at(u64::from(p)).is_some()
}

/// An event, where the system has its signal with so many parameters.
fn event(sys: &System, sig: u16, pars: &[u64]) -> Option<Ev>
    ensures event { IfSome result (λ ev. IsEvent sys.now (event_of ev)) }
    ensures signal { IfSome result (λ ev. ev.sig ≡ sig) }
{
    if sig < 4 {
        return None;
    }
    let signal = sys.signals.items.get(usize::from(sig) - 4)?;
    if pars.len() != usize::from(signal.params) || pars.len() > 8 {
        return None;
    }
    let mut items = ArrayVec::new();
    let _ = items.try_extend_from_slice(pars);
    Some(Ev { sig, pars: items })
}

/// A post, in a block unless the signal is static.
fn post<O: Ops, L: Ledger>(
    ops: &mut O,
    sys: &System,
    to: u8,
    ev: &Ev,
    margin: Option<u8>,
    reserve: Option<u8>,
    steps: &mut Steps<L>,
) -> Option<Did>
    requires of { (O.lane ops.old).sys ≡ sys.now }
    requires sound { IsSound sys.now }
    requires event { IsEvent sys.now (event_of ev.now) }
    ensures { StaysSteady (O.lane ops.old) (O.lane ops.new) result }
{
    if !has_object(sys, to) {
        return None;
    }
    if sys.is_static(u64::from(ev.sig)) {
        return post_static(ops, to, ev.sig, margin, steps).ok();
    }
    post_new(ops, sys, to, ev, margin, reserve, steps).ok()
}

/// The object for which the lane works.
fn owner<O: Ops>(ops: &mut O) -> u8
    ensures owner { result ≡ (O.lane ops.old).by }
    ensures stays { O.lane ops.new ≡ O.lane ops.old }
{
    let o = ops.by(0);
    let _ = ops.by(o);
    o
}

/// Whether the timer is the object's.
fn owns(sys: &System, o: u8, timer: u8) -> bool
    ensures { result ≡ true → OwnsTimer sys.now o timer }
{
    if timer == 0 {
        return false;
    }
    match sys.timers.items.get(usize::from(timer) - 1) {
        Some(t) => t.object == o,
        None => false,
    }
}

/// A subscription of the object, or its end.
fn subscribing<O: Ops>(ops: &mut O, sys: &System, o: u8, sig: u16, on: bool) -> Option<Did>
    requires its { (O.lane ops.old).sys ≡ sys.now }
    requires mine { (O.lane ops.old).by ≡ o }
    requires serves { (p : ℕ) → IsTrue ((O.lane ops.old).serves p) }
    ensures { StaysSteady (O.lane ops.old) (O.lane ops.new) result }
{
    if !has_object(sys, o) || sig < 4 || usize::from(sig) >= sys.signals.items.len() + 4 {
        return None;
    }
    ops.room().ok()?;
    if on {
        return Some(Did::Value(u16::from(ops.subscribe(sig))));
    }
    Some(Did::Value(u16::from(ops.unsubscribe(sig))))
}

/// Arms a timer of the object.
fn arm<O: Ops, L: Ledger>(
    ops: &mut O,
    sys: &System,
    o: u8,
    timer: u8,
    ticks: u16,
    interval: u16,
    steps: &mut Steps<L>,
) -> Option<Did>
    requires its { (O.lane ops.old).sys ≡ sys.now }
    requires mine { (O.lane ops.old).by ≡ o }
    ensures { StaysSteady (O.lane ops.old) (O.lane ops.new) result }
{
    if !owns(sys, o, timer) || ticks == 0 {
        return None;
    }
    ops.room().ok()?;
    match ops.arm(timer, ticks, interval, steps) {
        Arm::Done => Some(Did::Value(1)),
        Arm::Armed { .. } => Some(Did::Assert { code: 3 }),
    }
}

/// Sets the counter of a timer of the object; without ticks disarms it.
fn change<O: Ops, L: Ledger>(
    ops: &mut O,
    sys: &System,
    o: u8,
    timer: u8,
    ticks: u16,
    steps: &mut Steps<L>,
) -> Option<Did>
    requires its { (O.lane ops.old).sys ≡ sys.now }
    requires mine { (O.lane ops.old).by ≡ o }
    ensures { StaysSteady (O.lane ops.old) (O.lane ops.new) result }
{
    if !owns(sys, o, timer) {
        return None;
    }
    ops.room().ok()?;
    if ticks == 0 {
        return Some(Did::Value(u16::from(ops.disarm(timer, steps) != 0)));
    }
    Some(Did::Value(u16::from(ops.rearm(timer, ticks, steps) != 0)))
}

/// Notes a value that the object says.
fn say<O: Ops>(ops: &mut O, o: u8, value: i64) -> Option<Did>
    ensures { StaysSteady (O.lane ops.old) (O.lane ops.new) result }
{
    ops.room().ok()?;
    ops.note(Rec::say(o, value));
    Some(Did::Value(0))
}

/// Notes the first parameter of an event.
fn say_first<O: Ops>(ops: &mut O, sys: &System, now: &HeldEntry) -> Option<Did>
    requires its { (O.lane ops.old).sys ≡ sys.now }
    requires stands { EntryStands now.now (O.lane ops.old) }
    ensures { StaysSteady (O.lane ops.old) (O.lane ops.new) result }
{
    let HeldEntry::Pool(h) = now else {
        return None;
    };
    let sig = ops.sig(h);
    let signal = sys.signals.items.get(usize::from(sig) - 4)?;
    if signal.params == 0 {
        return None;
    }
    let value = ops.par(h, 0);
    let o = owner(ops);
    say(ops, o, i64::try_from(value).ok()?)
}

/// Notes assertion 4 of a timer.
fn arm_badly<O: Ops>(ops: &mut O, o: u8, timer: u8) -> Option<Did>
    ensures { StaysSteady (O.lane ops.old) (O.lane ops.new) result }
{
    ops.room().ok()?;
    ops.note(Rec::bad_ticks(o, timer, 0, 0));
    Some(Did::Assert { code: 4 })
}

/// Does a deed while the lane has an entry in its hands, and the deferred ones. None where the system doesn't have what it names, or
/// the lane no room.
pub(crate) fn perform<O: Ops, L: Ledger>(
    ops: &mut O,
    sys: &System,
    list: &mut Deferred,
    now: &HeldEntry,
    deed: &Deed,
    ok: u16,
    steps: &mut Steps<L>,
) -> Option<Did>
    requires { MayGoOn sys.now (now.now ∷ list.old.entries.items) (O.lane ops.old) }
    ensures { GoesOnAfter sys.now now.now list.new (O.lane ops.new) result }
{
    match deed {
        Deed::Defer => defer(ops, list, now).ok(),
        Deed::Recall => {
            let o = owner(ops);
            if !has_object(sys, o) {
                return None;
            }
            recall(ops, list, steps).ok()
        }
        Deed::Flush => flush(ops, list).ok(),
        Deed::Forward(to, margin) => {
            if !has_object(sys, *to) {
                return None;
            }
            forward(ops, *to, now, *margin, steps).ok()
        }
        Deed::SayFirst => say_first(ops, sys, now),
        _ => act(ops, sys, deed, ok, steps),
    }
}

/// Posts an event last in.
fn post_lifo<O: Ops, L: Ledger>(
    ops: &mut O,
    sys: &System,
    o: u8,
    ev: &Ev,
    reserve: Option<u8>,
    steps: &mut Steps<L>,
) -> Option<Did>
    requires of { (O.lane ops.old).sys ≡ sys.now }
    requires mine { (O.lane ops.old).by ≡ o }
    requires sound { IsSound sys.now }
    requires serves { (p : ℕ) → IsTrue ((O.lane ops.old).serves p) }
    requires event { IsEvent sys.now (event_of ev.now) }
    ensures { StaysSteady (O.lane ops.old) (O.lane ops.new) result }
{
    if !has_object(sys, o) {
        return None;
    }
    lifo_new(ops, sys, ev, reserve, steps).ok()
}

/// Does a deed with an event.
fn send<O: Ops, L: Ledger>(
    ops: &mut O,
    sys: &System,
    o: u8,
    deed: &Deed,
    ev: &Ev,
    steps: &mut Steps<L>,
) -> Option<Did>
    requires of { (O.lane ops.old).sys ≡ sys.now }
    requires mine { (O.lane ops.old).by ≡ o }
    requires sound { IsSound sys.now }
    requires serves { (p : ℕ) → IsTrue ((O.lane ops.old).serves p) }
    requires event { IsEvent sys.now (event_of ev.now) }
    ensures { StaysSteady (O.lane ops.old) (O.lane ops.new) result }
{
    match deed {
        Deed::Post(to, _, _, margin, reserve) => post(ops, sys, *to, ev, *margin, *reserve, steps),
        Deed::Lifo(_, _, reserve) => post_lifo(ops, sys, o, ev, *reserve, steps),
        Deed::Publish(_, _, reserve) => publish(ops, sys, ev, *reserve, steps).ok(),
        Deed::Announce(_, _, reserve) => announce(ops, sys, o, ev, *reserve, steps),
        _ => None,
    }
}

/// Makes the event of a deed, and does the deed.
fn send_new<O: Ops, L: Ledger>(
    ops: &mut O,
    sys: &System,
    o: u8,
    deed: &Deed,
    sig: u16,
    pars: &[u64],
    steps: &mut Steps<L>,
) -> Option<Did>
    requires of { (O.lane ops.old).sys ≡ sys.now }
    requires mine { (O.lane ops.old).by ≡ o }
    requires sound { IsSound sys.now }
    requires serves { (p : ℕ) → IsTrue ((O.lane ops.old).serves p) }
    ensures { StaysSteady (O.lane ops.old) (O.lane ops.new) result }
{
    let ev = event(sys, sig, pars)?;
    send(ops, sys, o, deed, &ev, steps)
}

/// Does a deed of a timer.
fn time<O: Ops, L: Ledger>(
    ops: &mut O,
    sys: &System,
    o: u8,
    deed: &Deed,
    steps: &mut Steps<L>,
) -> Option<Did>
    requires its { (O.lane ops.old).sys ≡ sys.now }
    requires mine { (O.lane ops.old).by ≡ o }
    ensures { StaysSteady (O.lane ops.old) (O.lane ops.new) result }
{
    match deed {
        Deed::Arm(timer, ticks, interval) => arm(ops, sys, o, *timer, *ticks, *interval, steps),
        Deed::Rearm(timer, ticks) => change(ops, sys, o, *timer, *ticks, steps),
        Deed::Disarm(timer) => change(ops, sys, o, *timer, 0, steps),
        Deed::ArmBadly(timer) => arm_badly(ops, o, *timer),
        _ => None,
    }
}

/// Does a deed that needs no entry.
fn act<O: Ops, L: Ledger>(
    ops: &mut O,
    sys: &System,
    deed: &Deed,
    ok: u16,
    steps: &mut Steps<L>,
) -> Option<Did>
    requires its { (O.lane ops.old).sys ≡ sys.now }
    requires sound { IsSound sys.now }
    requires serves { (p : ℕ) → IsTrue ((O.lane ops.old).serves p) }
    ensures { StaysSteady (O.lane ops.old) (O.lane ops.new) result }
{
    let o = owner(ops);
    match deed {
        Deed::Post(_, sig, pars, _, _)
        | Deed::Lifo(sig, pars, _)
        | Deed::Publish(sig, pars, _)
        | Deed::Announce(sig, pars, _) => send_new(ops, sys, o, deed, *sig, pars, steps),
        Deed::Tick(rate) => tick_rate(ops, sys, *rate, steps).ok(),
        Deed::Subscribe(sig) => subscribing(ops, sys, o, *sig, true),
        Deed::Unsubscribe(sig) => subscribing(ops, sys, o, *sig, false),
        Deed::SayOk => say(ops, o, i64::from(ok)),
        _ => time(ops, sys, o, deed, steps),
    }
}
