//! The state in which the tasks of a start or a step are left.

ghost use Rattle.std.specs.Prelude.{◌≡◌, ℕ, ◌≤◌, true, slice_set, is_some, Some};
ghost use Rattle.qp_chart.specs.Expr.{names_in};
ghost use Rattle.qp_model.specs.Able.{task_able};
ghost use Rattle.qp_model.specs.Acts.{names_of};
ghost use Rattle.qp_model.specs.Calls.{deed_of, is_assertion, ok_after, Flushed};
ghost use Rattle.qp_check_calls.specs.CallStateNext.{stage_answer};
ghost use Rattle.qp_check_calls.specs.AsCall.{as_answer, as_call};
ghost use Rattle.qp_check_course.specs.Goes.{moment_of};
ghost use Rattle.qp_check_course.specs.Machine.{Telling, action_done, resume, deed_state, task_state, closing, tasks_state, has_inner};
ghost use Rattle.qp_check_course.specs.Followable.{with_eight};
ghost use Rattle.qp_check_course.specs.Few.{MakesFew};
ghost use Rattle.qp_check_course.specs.FewLeft.{AreFew};
ghost use Rattle.qp_check_course.specs.AsNote.{as_note};
ghost use Rattle.qp_check_course.specs.AsTask.{as_course_task, as_tasks};
ghost use Rattle.qp_check_course.specs.AsState.{as_actor, as_way, as_state, own_config};

use crate::deeds::{Deed, deed_of};
use crate::notes::Note;
use crate::states::{Actor, Left, Own, State, Way};
use crate::tasks::CourseTask;
use qp_chart::{Env, Plain};
use qp_check_calls::{Answer, Call, CallState, Kept};

/// What the names of an expression stand for.
pub(crate) fn env_of<'a>(o: u8, way: &'a Way, own: &'a Own) -> Env<'a>
    ensures { names_in result ≡ record {
      vars = own.now.vars.items;
      pars = (moment_of (as_way way.now)).event.pars;
      ok = own.now.ok;
      me = o;
    } }
{
    match way {
        Way::Starting => Env {
            vars: own.vars.as_slice(),
            pars: &[],
            ok: own.ok,
            me: o,
        },
        Way::Stepping(step) => {
            let pars = &step.pars;
            Env {
                vars: own.vars.as_slice(),
                pars: pars.items.as_slice(),
                ok: own.ok,
                me: o,
            }
        }
    }
}

/// Sets a variable, if it is there.
fn set(vars: &mut Vec<i64>, var: u8, value: i64)
    ensures { vars.new.items ≡ slice_set vars.old.items var value }
{
    if usize::from(var) < vars.len() {
        vars[usize::from(var)] = value;
    }
}

/// A publication of a step has points after its posts.
fn has_inner(way: &Way, call: &Call) -> bool
    ensures { result ≡ has_inner (as_way way.now) (as_call call.now) }
{
    match way {
        Way::Starting => false,
        Way::Stepping(_) => matches!(call, Call::Publish { .. }),
    }
}

fn is_assertion(answer: Answer) -> bool
    ensures { result ≡ is_assertion (as_answer answer) }
{
    match answer {
        Answer::Granted | Answer::Refused | Answer::Flushed { .. } => false,
        Answer::AtQueue | Answer::AtPool | Answer::AtTimer | Answer::AtTicks | Answer::AtFront =>
            true,
    }
}

/// What `ok` becomes by an answer.
fn ok_after(answer: Answer, ok: i64) -> i64
    requires { (n : ℕ) → as_answer answer ≡ Flushed n → n ≤ 255 }
    ensures { result ≡ ok_after (as_answer answer) ok }
{
    match answer {
        Answer::Granted => 1,
        Answer::Refused => 0,
        Answer::Flushed { n } => {
            let few = n as u8;
            i64::from(few)
        }
        _ => ok,
    }
}

/// A step is done: the reference of its entry is to be dropped, unless its event is static.
fn closing<'a>(way: Way, leaf: u8, own: Own, kept: Kept) -> State<'a>
    ensures { as_state result ≡ closing (as_way way) leaf (own_config own kept) }
{
    let own = Own { leaf, ..own };
    match way {
        Way::Starting => State::Between { own, kept },
        Way::Stepping(step) => {
            if step.entry.pool == 0 {
                State::Between { own, kept }
            } else {
                State::Releasing {
                    entry: step.entry,
                    own,
                    kept,
                }
            }
        }
    }
}

/// An action is done: in a step its point is to come, and in a start what comes next.
#[cycle(settle)]
pub(crate) fn done<'a>(who: &Actor<'a>, way: Way, left: Left<'a>, own: Own, kept: Kept) -> State<'a>
    requires { AreFew (as_way way) (as_tasks left.tasks.items) }
    ensures { as_state result ≡ action_done (as_way way) left.entry.leaf (as_tasks left.entry.tasks.items)
        (tasks_state (as_actor who.now) (as_way way) left.entry.leaf (as_tasks left.entry.tasks.items)) (own_config own kept) }
{
    match way {
        Way::Starting => settle(who, Way::Starting, left, own, kept),
        Way::Stepping(step) => State::AtPoint {
            step,
            left,
            own,
            kept,
        },
    }
}

/// The rest of a call, or what comes after it.
#[cycle(settle)]
pub(crate) fn resume<'a>(
    who: &Actor<'a>,
    way: Way,
    inner: bool,
    rest: CallState,
    left: Left<'a>,
    own: Own,
) -> State<'a>
    requires few { AreFew (as_way way) (as_tasks left.tasks.items) }
    requires flushed { (n : ℕ) → stage_answer rest.stage ≡ Some (Flushed n) → n ≤ 255 }
    ensures { as_state result ≡ resume (as_way way) inner rest left.entry.leaf (as_tasks left.entry.tasks.items)
        (tasks_state (as_actor who.now) (as_way way) left.entry.leaf (as_tasks left.entry.tasks.items)) (own_config own rest.kept) }
{
    match rest.answer() {
        Some(answer) => {
            if is_assertion(answer) {
                return State::Asserted;
            }
            let own = Own {
                ok: ok_after(answer, own.ok),
                ..own
            };
            done(who, way, left, own, rest.into_kept())
        }
        None => State::InCall {
            way,
            inner,
            rest,
            left,
            own,
        },
    }
}

/// The state of an action.
#[cycle(settle)]
fn act<'a>(
    who: &Actor<'a>,
    plain: &'a Plain,
    way: Way,
    left: Left<'a>,
    mut own: Own,
    kept: Kept,
) -> State<'a>
    requires few { AreFew (as_way way) (as_tasks left.tasks.items) }
    requires own_few { MakesFew plain.now }
    ensures { as_state result ≡ deed_state (as_actor who.now) (as_way way) left.entry.leaf (as_tasks left.entry.tasks.items)
        (tasks_state (as_actor who.now) (as_way way) left.entry.leaf (as_tasks left.entry.tasks.items)) (own_config own kept)
        (deed_of (names_of (as_actor who.now) (own_config own kept) (moment_of (as_way way)).event) plain.now) }
{
    let deed = deed_of(plain, &env_of(who.o, &way, &own));
    match deed {
        Deed::Sets { var, value } => {
            set(&mut own.vars, var, value);
            done(who, way, left, own, kept)
        }
        Deed::Says { value } => State::Telling {
            way,
            note: Note::Say { value },
            ends: true,
            left,
            own,
            kept,
        },
        Deed::Calls(call) => {
            let inner = has_inner(&way, &call);
            resume(
                who,
                way,
                inner,
                CallState::begin(who.room, kept, call),
                left,
                own,
            )
        }
    }
}

/// The first of some tasks, with what is left after it.
#[cycle(settle)]
#[tactic(auto, unfolding(crate::specs::Machine::task_state))]
fn begin<'a>(
    who: &Actor<'a>,
    task: CourseTask<'a>,
    way: Way,
    left: Left<'a>,
    own: Own,
    kept: Kept,
) -> State<'a>
    requires few { AreFew (as_way way) (as_tasks left.tasks.items) }
    requires own_few { task_able with_eight (is_some (moment_of (as_way way)).entry) (as_course_task task) ≡ true }
    ensures { as_state result ≡ task_state (as_actor who.now) (as_way way) left.entry.leaf (as_tasks left.entry.tasks.items)
        (tasks_state (as_actor who.now) (as_way way) left.entry.leaf (as_tasks left.entry.tasks.items)) (own_config own kept)
        (as_course_task task.entry) }
{
    match task {
        CourseTask::Do(plain) => act(who, plain, way, left, own, kept),
        CourseTask::Raise { ceiling } => State::Raising {
            way,
            ceiling,
            left,
            own,
            kept,
        },
        CourseTask::Restore => {
            let ceiling = own.former;
            telling(Note::Unlock { ceiling }, true, way, left, own, kept)
        }
        CourseTask::Begin => telling(Note::Begin, false, way, left, own, kept),
        CourseTask::Run { state, place } => {
            let note = Note::Run {
                state: u64::from(state),
                place: place as u64,
            };
            telling(note, false, way, left, own, kept)
        }
        CourseTask::Unhandled => telling(Note::Unhandled, false, way, left, own, kept),
        CourseTask::Exit { state } => {
            let state = u64::from(state);
            telling(Note::Exit { state }, false, way, left, own, kept)
        }
        CourseTask::Enter { state } => {
            let state = u64::from(state);
            telling(Note::Enter { state }, false, way, left, own, kept)
        }
        CourseTask::Init { state } => {
            let state = u64::from(state);
            telling(Note::Init { state }, false, way, left, own, kept)
        }
        CourseTask::Done => telling(Note::Done, false, way, left, own, kept),
    }
}

/// A note is to come.
fn telling<'a>(note: Note, ends: bool, way: Way, left: Left<'a>, own: Own, kept: Kept) -> State<'a>
    ensures { as_state result ≡ Telling (as_way way) (as_note note) ends (as_tasks left.entry.tasks.items) left.entry.leaf
        (own_config own kept) }
{
    State::Telling {
        way,
        note,
        ends,
        left,
        own,
        kept,
    }
}

/// The state in which these tasks are left.
#[cycle(settle)]
#[tactic(auto, unfolding(crate::specs::Machine::tasks_state))]
pub(crate) fn settle<'a>(
    who: &Actor<'a>,
    way: Way,
    mut left: Left<'a>,
    own: Own,
    kept: Kept,
) -> State<'a>
    requires { AreFew (as_way way) (as_tasks left.tasks.items) }
    ensures { as_state result ≡ tasks_state (as_actor who.now) (as_way way) left.entry.leaf (as_tasks left.entry.tasks.items)
        (own_config own kept) }
{
    match left.tasks.pop_front() {
        Some(task) => begin(who, task, way, left, own, kept),
        None => closing(way, left.leaf, own, kept),
    }
}
