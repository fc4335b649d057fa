//! Calls of a lane that no run of a system makes, and a meeting.

ghost use Rattle.std.specs.Prelude.{◌≡◌, ◌+◌, ◌<◌, ◌≤◌, IsTrue, true};
ghost use Rattle.qp_model.specs.Sound.{IsSound};
ghost use Rattle.qp_model.specs.WordLaw.{is_object};
ghost use Rattle.qp_model.specs.declared.words.Word.TheVariants as word;
ghost use Rattle.qp_calls.specs.Clauses.{FitsPool, event_of};
ghost use Rattle.qp_calls_log.specs.Meeting.{IsTogether};
ghost use Rattle.qp_shared_tests.specs.Lanes.{IsSame};

use crate::events::{event, fits_first};
use crate::lanes::{pair, seal_pair};
use crate::objects::has_object;
use crate::shown::shown_behind;
use crate::systems::{TWO, system};
use qp_base::{Ev, Steps};
use qp_calls::{Counts, Did, Give, Ops, post_static};
use qp_calls_log::Meets;
use qp_model::kernels::PORT;
use qp_model::{Rec, System};
use qp_shared::{Shared, SharedLane};
use std::alloc::Global;
use std::marker::Brand;
use std::sync::ledger::{Blank, Ledger};

/// Posts the first signal to object 1. Whether that was done.
fn post_go<O: Ops, L: Ledger>(ops: &mut O, sys: &System, blank: Blank) -> bool
    requires name { blank.name ≡ L.name }
    requires parts { blank.parts ≡ L.parts }
    requires some { 0 < blank.parts }
    requires of { (O.lane ops.old).sys ≡ sys.now }
    ensures { IsSame (O.lane ops.old) (O.lane ops.new) }
{
    if !has_object(sys, 1) || !sys.is_static(4) {
        return false;
    }
    let mut steps = Steps::<L>::open(blank);
    matches!(post_static(ops, 1, 4, None, &mut steps), Ok(Did::Value(1)))
}

/// What the queue of an object shows to a lane that has met another: all that the other has seen of it.
fn counts_behind<O: Meets>(ops: &mut O, other: &mut O, p: u8) -> Counts
    requires object { IsTrue (is_object (O.lane ops.old).sys p) }
    requires together { IsTogether (O.lane ops.old) (O.lane other.old) }
    ensures lane { IsSame (O.lane ops.old) (O.lane ops.new) }
    ensures other { IsSame (O.lane other.old) (O.lane other.new) }
    ensures shown { (O.lane other.old).mark (word.Queue p) ≤ result.f + result.l + result.m }
{
    ops.meet(other);
    ops.counts(p)
}

/// Takes a block for the event, and leaves it.
fn leave_one<O: Ops, L: Ledger>(ops: &mut O, ev: &Ev, blank: Blank)
    requires name { blank.name ≡ L.name }
    requires parts { blank.parts ≡ L.parts }
    requires some { 0 < blank.parts }
    requires fits { FitsPool (O.lane ops.old).sys 1 (event_of ev.now) }
    ensures { IsSame (O.lane ops.old) (O.lane ops.new) }
{
    let Ok(()) = ops.room() else {
        return;
    };
    let mut steps = Steps::<L>::open(blank);
    if let Give::Given(fresh) = ops.give(1, None, ev, &mut steps) {
        ops.leave_fresh(fresh);
    }
}

/// The second lane posts to object 1 and leaves a block, and the first meets it. Answers what the queue shows to the first, and the records
/// of the second.
fn meet(alloc: Global, sys: &System, ev: &Ev) -> Option<String>
    requires sound { IsSound sys.now }
    requires one { IsTrue (is_object sys.now 1) }
    requires fits { FitsPool sys.now 1 (event_of ev.now) }
{
    let Ok((shared, root)) = Shared::new(alloc, sys) else {
        return None;
    };
    let (mut first, mut second) = pair(&shared, root)?;
    let posted = post_go::<SharedLane<'_>, Brand>(&mut second, sys, Blank::new(1));
    let counts = counts_behind(&mut first, &mut second, 1);
    leave_one::<SharedLane<'_>, Brand>(&mut second, ev, Blank::new(1));
    let text = told(alloc, counts, second.records());
    let sealed = seal_pair(alloc, &shared, first, second, PORT);
    only_if(posted && sealed.is_some(), text)
}

/// The counts of a queue, and records, as a text.
fn told(alloc: Global, counts: Counts, records: &[Rec]) -> String {
    let numbers = [
        u64::from(counts.f),
        u64::from(counts.l),
        u64::from(counts.m),
    ];
    shown_behind(alloc, &numbers, records)
}

fn only_if(condition: bool, text: String) -> Option<String> {
    if condition { Some(text) } else { None }
}

/// What is seen of two lanes of this system that meet, if its objects and its blocks are there.
fn seen_of(alloc: Global, sys: &System) -> Option<String>
    requires { IsSound sys.now }
{
    let ev = event(sys, 5, 7)?;
    if !has_object(sys, 1) || !fits_first(sys, &ev) {
        return None;
    }
    meet(alloc, sys, &ev)
}

fn seen(alloc: Global) -> Option<String> {
    let sys = system(alloc, TWO)?;
    seen_of(alloc, &sys)
}

#[test]
fn a_lane_that_met_another_sees_its_post(rt: HostRuntime) {
    let seen = seen(rt.alloc());
    assert_eq!(rt;
        seen.as_deref(),
        Some(" 1 0 0: post 0 1 1 0 0 0 4 0, new 0 1 0 0 0 5 7")
    );
}
