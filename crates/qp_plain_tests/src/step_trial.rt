//! An object at work in a lane: its start, and its steps from one scheduling point to the next.

ghost use Rattle.std.specs.Prelude.{◌≡◌, ◌<◌, IfSome};
ghost use Rattle.qp_model.specs.Sound.{IsSound};
ghost use Rattle.qp_model.specs.WordLaw.{is_object};
ghost use Rattle.qp_plain_tests.specs.StepTrial.{AfterPart, AfterStart, AfterStep, AfterTake, IsBase, IsOnItsWay, IsResting, IsUnstarted};

use crate::actor::{Actor, End};
use arrayvec::ArrayVec;
use qp_base::Steps;
use qp_calls::{Did, Ops, Take, post_static};
use qp_dispatch::{Object, Step};
use qp_model::{Lanes, Rec, System};
use qp_plain::PlainWorld;
use std::alloc::Global;
use std::marker::Brand;
use std::sync::Wait;
use std::sync::ledger::{Blank, Ledger};

/// What is tried.
#[derive(Clone, Copy)]
pub(crate) struct Plan<'a> {
    /// The object.
    pub(crate) me: u8,
    /// How many notes stand in the lane before all else.
    pub(crate) notes: u32,
    /// What a source posts: static signals to objects.
    pub(crate) posts: &'a [(u8, u16)],
    /// The objects that start before it, and do nothing else.
    pub(crate) others: &'a [u8],
    /// The scheduling point at which it is ended, counted from 1; 0 for none.
    pub(crate) until: u32,
}

/// What an object shows at the end of its trial, and the code of the stop word.
#[derive(Drop)]
pub(crate) struct Report {
    pub(crate) end: End,
    pub(crate) stopped: Option<u8>,
    pub(crate) leaf: Option<u8>,
    pub(crate) taken: u32,
    pub(crate) vars: ArrayVec<i64, 16>,
}

/// A trial that has ended: its records, and its report.
#[derive(Drop)]
pub(crate) struct Trial {
    pub(crate) lanes: Lanes,
    pub(crate) report: Report,
}

/// Whether the system has an object of this priority.
#[tactic(auto, unfolding(qp_model::specs::WordLaw::is_object))]
fn has_object(sys: &System, p: u8) -> bool
    ensures { result ≡ is_object sys.now p }
{
    sys.object_at(u64::from(p)).is_some()
}

/// Adds a note of no object.
fn note<O: Ops>(ops: &mut O, sys: &System) -> Option<()>
    requires { IsBase sys.now 0 (O.lane ops.old) }
    ensures { IfSome result (λ _. IsBase sys.now 0 (O.lane ops.new)) }
{
    let _ = sys;
    let Ok(()) = ops.room() else {
        return None;
    };
    ops.note(Rec::rest(0));
    Some(())
}

/// A source posts a static event.
fn post<O: Ops, L: Ledger>(
    ops: &mut O,
    sys: &System,
    to: u8,
    sig: u16,
    steps: &mut Steps<L>,
) -> Option<()>
    requires { IsBase sys.now 0 (O.lane ops.old) }
    ensures { IfSome result (λ _. IsBase sys.now 0 (O.lane ops.new)) }
{
    if !has_object(sys, to) || !sys.is_static(u64::from(sig)) {
        return None;
    }
    match post_static(ops, to, sig, None, steps) {
        Ok(Did::Value(_)) => Some(()),
        _ => None,
    }
}

/// The object of this priority before its start, in a lane with this ceiling.
fn new_actor(alloc: Global, sys: &System, me: u8, ceiling: u8) -> Option<Actor>
    requires { IsSound sys.now }
    ensures { IfSome result (λ a. IsUnstarted sys.now a × (a.ceiling ≡ ceiling)) }
{
    if !has_object(sys, me) {
        return None;
    }
    match Object::new(alloc, sys, me) {
        Ok(object) => Some(Actor {
            me,
            object,
            ceiling,
            points: 0,
        }),
        Err(_) => None,
    }
}

/// The whole start of an object.
fn start<O: Ops>(actor: &mut Actor, ops: &mut O, sys: &System) -> Step
    requires new { IsUnstarted sys.now actor.old }
    requires base { IsBase sys.now actor.old.ceiling (O.lane ops.old) }
    ensures { AfterStart sys.now actor.new (O.lane ops.new) result }
{
    actor.object.start(ops, sys, &mut actor.ceiling)
}

/// Takes an entry, and takes it up.
fn take_up<O: Ops, R: Wait>(actor: &mut Actor, rt: &R, ops: &mut O, sys: &System) -> Option<End>
    requires { IsResting sys.now actor.old (O.lane ops.old) }
    ensures { AfterTake sys.now actor.new (O.lane ops.new) result }
{
    let _ = sys;
    let Ok(()) = ops.room() else {
        return Some(End::Refused);
    };
    if actor.object.taken() >= 1000 {
        return Some(End::Refused);
    }
    match ops.take(rt, actor.me) {
        Take::Empty { .. } => Some(End::Empty),
        Take::Taken(e) => {
            actor.object.begin(e);
            None
        }
    }
}

/// Goes on with a step.
fn resume<O: Ops>(actor: &mut Actor, ops: &mut O, sys: &System) -> Step
    requires { IsOnItsWay sys.now actor.old (O.lane ops.old) }
    ensures { AfterPart sys.now actor.new (O.lane ops.new) result }
{
    actor.object.resume(ops, sys, &mut actor.ceiling)
}

/// Marks a scheduling point with a look that has its number, and the ceiling as its floor.
fn mark<O: Ops>(actor: &mut Actor, ops: &mut O, sys: &System) -> Option<()>
    requires { IsOnItsWay sys.now actor.old (O.lane ops.old) }
    ensures { IfSome result (λ _. IsOnItsWay sys.now actor.new (O.lane ops.new)) }
{
    let _ = sys;
    let Ok(()) = ops.room() else {
        return None;
    };
    actor.points = actor.points.saturating_add(1);
    ops.note(Rec::look(actor.points, actor.ceiling));
    Some(())
}

/// A step from its entry to its end, or to the scheduling point at which the object is ended.
fn one_step<O: Ops, R: Wait>(
    actor: &mut Actor,
    rt: &R,
    ops: &mut O,
    sys: &System,
    until: u32,
) -> Option<End>
    requires { IsResting sys.now actor.old (O.lane ops.old) }
    ensures { AfterStep sys.now actor.new (O.lane ops.new) result }
{
    if let Some(end) = take_up(actor, rt, ops, sys) {
        return Some(end);
    }
    for _i in 0..1000u32 {
        match resume(actor, ops, sys) {
            Step::Done => return None,
            Step::Stopped => return Some(End::Stopped),
            Step::Memory => return Some(End::Memory),
            Step::Point => {
                let Some(()) = mark(actor, ops, sys) else {
                    return Some(End::Refused);
                };
                if actor.points == until {
                    return Some(End::Left);
                }
            }
        }
    }
    Some(End::Refused)
}

/// Steps until the queue is empty.
fn all_steps<O: Ops, R: Wait>(
    actor: &mut Actor,
    rt: &R,
    ops: &mut O,
    sys: &System,
    until: u32,
) -> End
    requires { IsResting sys.now actor.old (O.lane ops.old) }
{
    for _i in 0..1000u32 {
        if let Some(end) = one_step(actor, rt, ops, sys, until) {
            return end;
        }
    }
    End::Refused
}

/// Starts an object, and then lets it step until its queue is empty, its lane stops, or it is ended.
fn start_and_steps<O: Ops, R: Wait>(
    actor: &mut Actor,
    rt: &R,
    ops: &mut O,
    sys: &System,
    until: u32,
) -> End
    requires new { IsUnstarted sys.now actor.old }
    requires base { IsBase sys.now actor.old.ceiling (O.lane ops.old) }
{
    match start(actor, ops, sys) {
        Step::Done => all_steps(actor, rt, ops, sys, until),
        Step::Stopped => End::Stopped,
        Step::Memory => End::Memory,
        Step::Point => End::Refused,
    }
}

/// Ends an object, and tells what it showed.
fn report_of<O: Ops>(actor: Actor, ops: &mut O, end: End) -> Report {
    let stopped = ops.stopped();
    let mut vars = ArrayVec::new();
    let _ = vars.try_extend_from_slice(actor.object.vars());
    let report = Report {
        end,
        stopped,
        leaf: actor.object.leaf(),
        taken: actor.object.taken(),
        vars,
    };
    actor.object.end(ops);
    report
}

/// Starts an object that does nothing else, and answers the ceiling after it.
fn start_other<O: Ops>(alloc: Global, ops: &mut O, sys: &System, p: u8, ceiling: u8) -> Option<u8>
    requires { IsBase sys.now ceiling (O.lane ops.old) }
    ensures { IfSome result (λ c. IsBase sys.now c (O.lane ops.new)) }
{
    let mut other = new_actor(alloc, sys, p, ceiling)?;
    match start(&mut other, ops, sys) {
        Step::Done => {
            let ceiling = other.ceiling;
            other.object.end(ops);
            Some(ceiling)
        }
        _ => None,
    }
}

/// Adds so many notes.
fn notes<O: Ops>(ops: &mut O, sys: &System, count: u32) -> Option<()>
    requires { IsBase sys.now 0 (O.lane ops.old) }
    ensures { IfSome result (λ _. IsBase sys.now 0 (O.lane ops.new)) }
{
    for _i in 0..count {
        note(ops, sys)?;
    }
    Some(())
}

/// A source posts static events, and counts its tries in a ledger of its own.
fn posts<O: Ops, L: Ledger>(
    ops: &mut O,
    sys: &System,
    posts: &[(u8, u16)],
    blank: Blank,
) -> Option<()>
    requires name { blank.name ≡ L.name }
    requires parts { blank.parts ≡ L.parts }
    requires some { 0 < blank.parts }
    requires base { IsBase sys.now 0 (O.lane ops.old) }
    ensures { IfSome result (λ _. IsBase sys.now 0 (O.lane ops.new)) }
{
    let mut steps = Steps::<L>::open(blank);
    for (to, sig) in posts {
        post(ops, sys, *to, *sig, &mut steps)?;
    }
    Some(())
}

/// Starts objects that do nothing else, and answers the ceiling after them.
fn start_others<O: Ops>(alloc: Global, ops: &mut O, sys: &System, others: &[u8]) -> Option<u8>
    requires { IsBase sys.now 0 (O.lane ops.old) }
    ensures { IfSome result (λ c. IsBase sys.now c (O.lane ops.new)) }
{
    let mut ceiling = 0;
    for p in others {
        ceiling = start_other(alloc, ops, sys, *p, ceiling)?;
    }
    Some(ceiling)
}

/// What happens before the object of a plan is made: the notes, the posts, and the starts of the others. It answers the ceiling
/// after them.
fn begin<O: Ops, L: Ledger>(
    alloc: Global,
    ops: &mut O,
    sys: &System,
    plan: &Plan<'_>,
    blank: Blank,
) -> Option<u8>
    requires name { blank.name ≡ L.name }
    requires parts { blank.parts ≡ L.parts }
    requires some { 0 < blank.parts }
    requires base { IsBase sys.now 0 (O.lane ops.old) }
    ensures { IfSome result (λ c. IsBase sys.now c (O.lane ops.new)) }
{
    notes(ops, sys, plan.notes)?;
    posts::<O, L>(ops, sys, plan.posts, blank)?;
    start_others(alloc, ops, sys, plan.others)
}

/// Makes the object of a plan, starts it, and lets it step until its queue is empty, its lane stops, or it is ended.
fn play<O: Ops, L: Ledger, R: Wait>(
    rt: &R,
    alloc: Global,
    ops: &mut O,
    sys: &System,
    plan: &Plan<'_>,
    blank: Blank,
) -> Option<Report>
    requires name { blank.name ≡ L.name }
    requires parts { blank.parts ≡ L.parts }
    requires some { 0 < blank.parts }
    requires base { IsBase sys.now 0 (O.lane ops.old) }
{
    let ceiling = begin::<O, L>(alloc, ops, sys, plan, blank)?;
    let mut actor = new_actor(alloc, sys, plan.me, ceiling)?;
    let end = start_and_steps(&mut actor, rt, ops, sys, plan.until);
    Some(report_of(actor, ops, end))
}

/// Tries a plan in a new world with one lane.
pub(crate) fn run<R: Wait>(rt: &R, alloc: Global, sys: &System, plan: &Plan<'_>) -> Option<Trial>
    requires { IsSound sys.now }
{
    let Ok(mut world) = PlainWorld::new(alloc, sys, 1) else {
        return None;
    };
    let report = play::<PlainWorld<'_>, Brand, R>(rt, alloc, &mut world, sys, plan, Blank::new(1))?;
    Some(Trial {
        lanes: world.finish(),
        report,
    })
}
