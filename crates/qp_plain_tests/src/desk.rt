//! Sources and steps in a world of one thread.

ghost use Rattle.std.specs.Prelude.{◌≡◌, ◌∷◌, ◌<◌};
ghost use Rattle.qp_plain.specs.WorldView.{world_view};
ghost use Rattle.qp_plain_tests.specs.Desk.{MayGoOn, MayStillGoOn};

use crate::deeds::{Deed, has_object, perform};
use crate::ends::End;
use qp_base::Steps;
use qp_calls::{Deferred, Did, HeldEntry, Ops, Take, end_step};
use qp_model::{Rec, System};
use qp_plain::PlainWorld;
use std::sync::Wait;
use std::sync::ledger::{Blank, Ledger};

/// What happens next, with the records that it leaves.
#[derive(Clone, Copy)]
pub(crate) enum Act<'a> {
    /// A source does these in lane 1.
    Source(&'a [Deed], &'a str),
    /// An object does these in lane 0, outside of a step.
    Owner(u8, &'a [Deed], &'a str),
    /// An object takes an entry in lane 0, does these, and is done.
    Step(u8, &'a [Deed], &'a str),
}

impl<'a> Act<'a> {
    /// The lane of it.
    pub(crate) fn lane(&self) -> u32 {
        match self {
            Act::Source(..) => 1,
            Act::Owner(..) | Act::Step(..) => 0,
        }
    }

    /// Who does it: an object, or 0 for a source.
    pub(crate) fn me(&self) -> u8 {
        match self {
            Act::Source(..) => 0,
            Act::Owner(me, ..) | Act::Step(me, ..) => *me,
        }
    }

    /// What is done.
    pub(crate) fn deeds(&self) -> &'a [Deed] {
        match self {
            Act::Source(deeds, _) | Act::Owner(_, deeds, _) | Act::Step(_, deeds, _) => deeds,
        }
    }

    /// The records that it leaves.
    pub(crate) fn leaves(&self) -> &'a str {
        match self {
            Act::Source(_, leaves) | Act::Owner(_, _, leaves) | Act::Step(_, _, leaves) => leaves,
        }
    }
}

/// Does deeds in order, while the lane has an entry in its hands. Ends with the first assertion.
fn work<O: Ops, L: Ledger>(
    ops: &mut O,
    sys: &System,
    list: &mut Deferred,
    now: &HeldEntry,
    deeds: &[Deed],
    steps: &mut Steps<L>,
) -> End
    requires { MayGoOn sys.now (now.now ∷ list.old.entries.items) (O.lane ops.old) }
    ensures { MayStillGoOn sys.now (now.now ∷ list.new.entries.items) (O.lane ops.new) result }
{
    let mut ok = 0;
    for deed in deeds {
        match perform(ops, sys, list, now, deed, ok, steps) {
            None => return End::Refused,
            Some(Did::Assert { code }) => return End::Assert(code),
            Some(Did::Value(n)) => ok = n,
        }
    }
    End::Whole
}

/// What a source or an object does outside of a step. It has the event of a static signal at hand.
fn work_outside<O: Ops, L: Ledger>(
    ops: &mut O,
    sys: &System,
    list: &mut Deferred,
    me: u8,
    deeds: &[Deed],
    steps: &mut Steps<L>,
) -> End
    requires { MayGoOn sys.now list.old.entries.items (O.lane ops.old) }
    ensures { MayStillGoOn sys.now list.new.entries.items (O.lane ops.new) result }
{
    if !sys.is_static(4) {
        return End::Refused;
    }
    let former = ops.by(me);
    match work(ops, sys, list, &HeldEntry::Static(4), deeds, steps) {
        End::Whole => {
            let _ = ops.by(former);
            End::Whole
        }
        end => end,
    }
}

/// A step of an object: it takes an entry, does its deeds, notes that it is done, and drops the entry. An empty queue is the end of it.
fn step<O: Ops, L: Ledger, R: Wait>(
    rt: &R,
    ops: &mut O,
    sys: &System,
    list: &mut Deferred,
    me: u8,
    deeds: &[Deed],
    steps: &mut Steps<L>,
) -> End
    requires { MayGoOn sys.now list.old.entries.items (O.lane ops.old) }
    ensures { MayStillGoOn sys.now list.new.entries.items (O.lane ops.new) result }
{
    let Ok(()) = ops.room() else {
        return End::Refused;
    };
    if !has_object(sys, me) {
        return End::Refused;
    }
    match ops.take(rt, me) {
        Take::Empty { .. } => End::Whole,
        Take::Taken(e) => step_on(ops, sys, list, me, e, deeds, steps),
    }
}

/// The step with the entry taken.
fn step_on<O: Ops, L: Ledger>(
    ops: &mut O,
    sys: &System,
    list: &mut Deferred,
    me: u8,
    e: HeldEntry,
    deeds: &[Deed],
    steps: &mut Steps<L>,
) -> End
    requires { MayGoOn sys.now (e ∷ list.old.entries.items) (O.lane ops.old) }
    ensures { MayStillGoOn sys.now list.new.entries.items (O.lane ops.new) result }
{
    let former = ops.by(me);
    match work(ops, sys, list, &e, deeds, steps) {
        End::Whole => {}
        end => return end,
    }
    let Ok(()) = ops.room() else {
        return End::Refused;
    };
    ops.note(Rec::done(me));
    let Ok(_) = end_step(ops, e) else {
        return End::Refused;
    };
    let _ = ops.by(former);
    End::Whole
}

/// One act. A world of one lane has all of them there.
fn make<L: Ledger, R: Wait>(
    rt: &R,
    world: &mut PlainWorld<'_>,
    sys: &System,
    list: &mut Deferred,
    next: &Act<'_>,
    steps: &mut Steps<L>,
) -> End
    requires { MayGoOn sys.now list.old.entries.items (world_view world.old) }
    ensures { MayStillGoOn sys.now list.new.entries.items (world_view world.new) result }
{
    let lane = if world.lanes() == 1 { 0 } else { next.lane() };
    if lane >= world.lanes() {
        return End::Refused;
    }
    let _ = world.go(lane);
    match next {
        Act::Step(..) => step(rt, world, sys, list, next.me(), next.deeds(), steps),
        _ => work_outside(world, sys, list, next.me(), next.deeds(), steps),
    }
}

/// Does acts in order, and counts tries in a ledger of its own.
pub(crate) fn play<L: Ledger, R: Wait>(
    rt: &R,
    world: &mut PlainWorld<'_>,
    sys: &System,
    list: &mut Deferred,
    acts: &[Act<'_>],
    blank: Blank,
) -> End
    requires name { blank.name ≡ L.name }
    requires parts { blank.parts ≡ L.parts }
    requires some { 0 < blank.parts }
    requires may { MayGoOn sys.now list.old.entries.items (world_view world.old) }
    ensures { MayStillGoOn sys.now list.new.entries.items (world_view world.new) result }
{
    let mut steps = Steps::<L>::open(blank);
    for act in acts {
        match make(rt, world, sys, list, act, &mut steps) {
            End::Whole => {}
            end => return end,
        }
    }
    End::Whole
}
