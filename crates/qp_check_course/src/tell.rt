//! What a record or a point makes of a state.

ghost use Rattle.std.specs.Prelude.{◌≡◌, true, false, ◌&&◌, if◌then◌else◌, Some, None, IfOk, MatchResult};
ghost use Rattle.std.specs.Option.{option_map};
ghost use Rattle.qp_model.specs.Able.{chart_able};
ghost use Rattle.qp_model.specs.Groups.{is_post};
ghost use Rattle.qp_check_calls.specs.CallStateNext.{call_state_next};
ghost use Rattle.qp_check_course.specs.Goes.{moment_of};
ghost use Rattle.qp_check_course.specs.Note.{raised_from, entry_and_event_taken, dropped_by};
ghost use Rattle.qp_check_course.specs.Machine.{Between, tasks_state, behind_note, call_told, step_state, behind_dec, tell_next, point_next};
ghost use Rattle.qp_check_course.specs.Followable.{with_eight};
ghost use Rattle.qp_check_course.specs.Ready.{CanGoOn};
ghost use Rattle.qp_check_course.specs.FewLeft.{AreFew};
ghost use Rattle.qp_check_course.specs.Runs.{IsAble, CanRun};
ghost use Rattle.qp_check_course.specs.AsTask.{as_tasks};
ghost use Rattle.qp_check_course.specs.AsState.{as_actor, as_way, as_state, own_config};

use crate::agenda::step_plan;
use crate::notes::{comes_back, dropped_by, raised_from, tells};
use crate::settle::{done, env_of, resume, settle};
use crate::states::{Actor, Left, Own, State, Step, Way, discard};
use arrayvec::ArrayVec;
use qp_check_calls::{CallState, Kept, Known, Told};
use qp_model::{Body, Entry, Params};
use std::alloc::{AllocError, Global};
use std::collections::VecDeque;

/// The same parameters once more.
fn copied(pars: &Params) -> Params
    ensures { result ≡ pars.now }
{
    let mut items = ArrayVec::new();
    let _ = items.try_extend_from_slice(pars.items.as_slice());
    Params { items }
}

/// A step over an event begins.
fn begin_step<'a>(
    alloc: Global,
    who: &Actor<'a>,
    step: Step,
    own: Own,
    kept: Kept,
) -> Result<State<'a>, AllocError>
    requires { chart_able with_eight who.now.chart.now ≡ true }
    ensures { IfOk result (λ s. as_state s ≡ step_state (as_actor who.now) step.entry (record { sig = step.sig; pars = step.pars })
        (own_config own kept)) }
{
    let sig = step.sig;
    let leaf = own.leaf;
    let way = Way::Stepping(step);
    let plan = step_plan(alloc, who.chart, leaf, &env_of(who.o, &way, &own), sig)?;
    let left = Left {
        tasks: VecDeque::from(plan.tasks),
        leaf: plan.leaf,
    };
    Ok(settle(who, way, left, own, kept))
}

/// An entry is taken.
#[tactic(auto, unfolding(crate::specs::Note::entry_and_event_taken))]
fn took<'a>(
    alloc: Global,
    who: &Actor<'a>,
    told: &Told,
    own: Own,
    kept: Kept,
) -> Result<Option<State<'a>>, AllocError>
    requires { chart_able with_eight who.now.chart.now ≡ true }
    ensures { IfOk result (λ later. option_map as_state later ≡ option_map (λ x. step_state (as_actor who.now) x.0 x.1 (own_config own kept))
        (entry_and_event_taken told.now.body told.now.known)) }
{
    match (&told.body, &told.known) {
        (Body::Took { entry, .. }, Known::OfEvent { sig, pars }) => {
            let step = Step {
                sig: *sig,
                pars: copied(pars),
                entry: *entry,
            };
            Ok(Some(begin_step(alloc, who, step, own, kept)?))
        }
        _ => Ok(None),
    }
}

/// A note was told.
fn noted<'a>(
    who: &Actor<'a>,
    way: Way,
    ends: bool,
    left: Left<'a>,
    own: Own,
    kept: Kept,
) -> State<'a>
    requires { AreFew (as_way way) (as_tasks left.tasks.items) }
    ensures { as_state result ≡ behind_note (as_actor who.now) (as_way way) ends left.entry.leaf (as_tasks left.entry.tasks.items)
        (own_config own kept) }
{
    if ends {
        done(who, way, left, own, kept)
    } else {
        settle(who, way, left, own, kept)
    }
}

/// A record was the note that was to come, or not.
fn after_note<'a>(
    who: &Actor<'a>,
    is_told: bool,
    way: Way,
    ends: bool,
    left: Left<'a>,
    own: Own,
    kept: Kept,
) -> Option<State<'a>>
    requires { AreFew (as_way way) (as_tasks left.tasks.items) }
    ensures { option_map as_state result ≡ (if is_told then Some (behind_note (as_actor who.now) (as_way way) ends left.entry.leaf
        (as_tasks left.entry.tasks.items) (own_config own kept)) else None) }
{
    if is_told {
        Some(noted(who, way, ends, left, own, kept))
    } else {
        None
    }
}

/// The ceiling is raised.
fn raised<'a>(
    who: &Actor<'a>,
    told: &Told,
    way: Way,
    ceiling: u8,
    left: Left<'a>,
    own: Own,
    kept: Kept,
) -> Option<State<'a>>
    requires { AreFew (as_way way) (as_tasks left.tasks.items) }
    ensures { option_map as_state result ≡ option_map (λ former. tasks_state (as_actor who.now) (as_way way) left.entry.leaf
        (as_tasks left.entry.tasks.items) (record (own_config own kept) { former = former }))
        (raised_from ceiling told.now.body told.now.known) }
{
    match raised_from(ceiling, told) {
        Some(former) => Some(settle(who, way, left, Own { former, ..own }, kept)),
        None => None,
    }
}

fn is_post(body: &Body) -> bool
    ensures { result ≡ is_post body.now }
{
    matches!(body, Body::Post { .. })
}

/// A record of a call was told, which was a post of a publication or not.
fn posted<'a>(
    who: &Actor<'a>,
    is_posted: bool,
    way: Way,
    inner: bool,
    rest: CallState,
    left: Left<'a>,
    own: Own,
) -> State<'a>
    requires able { IsAble who.now.sys.now (as_actor who.now) }
    requires can { CanGoOn who.now.sys.now (as_actor who.now) (as_way way) rest }
    requires few { AreFew (as_way way) (as_tasks left.tasks.items) }
    ensures { as_state result ≡ call_told is_posted (as_actor who.now) (as_way way) inner rest left.entry.leaf
        (as_tasks left.entry.tasks.items) (own_config own rest.kept) }
{
    if is_posted {
        State::AtPost {
            way,
            rest,
            left,
            own,
        }
    } else {
        resume(who, way, inner, rest, left, own)
    }
}

/// A record of a call.
fn called<'a>(
    who: &Actor<'a>,
    told: &Told,
    way: Way,
    inner: bool,
    rest: CallState,
    left: Left<'a>,
    own: Own,
) -> Result<Option<State<'a>>, AllocError>
    requires able { IsAble who.now.sys.now (as_actor who.now) }
    requires can { CanGoOn who.now.sys.now (as_actor who.now) (as_way way) rest }
    requires few { AreFew (as_way way) (as_tasks left.tasks.items) }
    ensures { IfOk result (λ later. option_map as_state later ≡ option_map (λ more. call_told (inner && is_post told.now.body)
        (as_actor who.now) (as_way way) inner more left.entry.leaf (as_tasks left.entry.tasks.items) (own_config own more.kept))
        (call_state_next who.now.sys.now who.now.o (moment_of (as_way way)).entry rest told.now)) }
{
    let entry = way.entry();
    match rest.next(who.sys, who.o, entry, told)? {
        Some(more) => {
            let is_posted = inner && is_post(&told.body);
            Ok(Some(posted(who, is_posted, way, inner, more, left, own)))
        }
        None => Ok(None),
    }
}

/// A reference was dropped, and so many are left.
fn left_over<'a>(entry: Entry, d: u64, left: u64, own: Own, kept: Kept) -> State<'a>
    ensures { as_state result ≡ behind_dec entry d left (own_config own kept) }
{
    if left == 0 {
        State::Returning {
            p: entry.pool,
            b: entry.block,
            d,
            own,
            kept,
        }
    } else {
        State::Between { own, kept }
    }
}

/// The reference of a step's entry is dropped.
fn released<'a>(told: &Told, entry: Entry, own: Own, kept: Kept) -> Option<State<'a>>
    ensures { option_map as_state result ≡ option_map (λ x. behind_dec entry x.0 x.1 (own_config own kept))
        (dropped_by entry told.now.body told.now.known) }
{
    match dropped_by(entry, told) {
        Some((d, left)) => Some(left_over(entry, d, left, own, kept)),
        None => None,
    }
}

/// A record was the return of the block, or not.
fn after_back<'a>(is_back: bool, own: Own, kept: Kept) -> Option<State<'a>>
    ensures { option_map as_state result ≡ (if is_back then Some (Between (own_config own kept)) else None) }
{
    if is_back {
        Some(State::Between { own, kept })
    } else {
        None
    }
}

impl<'a> State<'a> {
    /// The state behind a record, where it may come.
    #[tactic(auto, unfolding(crate::specs::Machine::tell_next))]
    pub(crate) fn tell(
        self,
        alloc: Global,
        who: &Actor<'a>,
        told: &Told,
    ) -> Result<Option<Self>, AllocError>
        requires able { IsAble who.now.sys.now (as_actor who.now) }
        requires can { CanRun who.now.sys.now (as_actor who.now) (as_state self) }
        ensures { IfOk result (λ later. option_map as_state later ≡ tell_next who.now.sys.now (as_actor who.now) (as_state self.entry) told.now) }
    {
        match self {
            State::Between { own, kept } => took(alloc, who, told, own, kept),
            State::Telling {
                way,
                note,
                ends,
                left,
                own,
                kept,
            } => {
                let is_told = tells(note, told);
                Ok(after_note(who, is_told, way, ends, left, own, kept))
            }
            State::Raising {
                way,
                ceiling,
                left,
                own,
                kept,
            } => Ok(raised(who, told, way, ceiling, left, own, kept)),
            State::InCall {
                way,
                inner,
                rest,
                left,
                own,
            } => called(who, told, way, inner, rest, left, own),
            State::Releasing { entry, own, kept } => Ok(released(told, entry, own, kept)),
            State::Returning { p, b, d, own, kept } => {
                let is_back = comes_back(p, b, d, told);
                Ok(after_back(is_back, own, kept))
            }
            other => {
                discard(other);
                Ok(None)
            }
        }
    }

    /// The state behind a point; or the state itself, where no point may come.
    #[tactic(auto, unfolding(crate::specs::Machine::point_next))]
    pub(crate) fn point(self, who: &Actor<'a>) -> Result<Self, Self>
        requires able { IsAble who.now.sys.now (as_actor who.now) }
        requires can { CanRun who.now.sys.now (as_actor who.now) (as_state self) }
        ensures { MatchResult result (λ later. point_next (as_actor who.now) (as_state self.entry) ≡ Some (as_state later))
            (λ same. (as_state same ≡ as_state self.entry) × (point_next (as_actor who.now) (as_state self.entry) ≡ None)) }
    {
        match self {
            State::AtPoint {
                step,
                left,
                own,
                kept,
            } => Ok(settle(who, Way::Stepping(step), left, own, kept)),
            State::AtPost {
                way,
                rest,
                left,
                own,
            } => Ok(resume(who, way, true, rest, left, own)),
            other => Err(other),
        }
    }
}
