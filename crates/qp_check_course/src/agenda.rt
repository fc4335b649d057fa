//! The agenda of a start and of a step.

ghost use Rattle.std.specs.Prelude.{◌≡◌, ◌++◌, IfOk};
ghost use Rattle.qp_chart.specs.Expr.{names_in};
ghost use Rattle.qp_chart.specs.MainState.{exited, entered};
ghost use Rattle.qp_chart.specs.Task.{exits, entries};
ghost use Rattle.qp_chart.specs.Drill.{initial, drill};
ghost use Rattle.qp_chart.specs.Agenda.{crossing, moves, handled, start_plan, step_plan};
ghost use Rattle.qp_chart_tree.specs.Plans.{AddsTasks};
ghost use Rattle.qp_check_course.specs.AsTask.{as_tasks};

use crate::handler::{Handler, handler_of};
use crate::state_acts::init_acts;
use crate::tasks::{CourseTask, push_acts, push_entries, push_exits, push_task};
use qp_chart::{Chart, Env};
use qp_chart_tree::{entered, exited, init_of, main_state};
use std::alloc::{AllocError, Global};
use std::marker::Model;

/// All that a step or a start is to do, and the leaf after it.
#[derive(Drop)]
pub struct Plan<'a> {
    pub tasks: Vec<CourseTask<'a>>,
    pub leaf: u8,
}

impl<'a> Model for Plan<'a> {
    ghost use Rattle.std.specs.Coded.{codes};
    ghost use Rattle.qp_chart.specs.Drill as drill;
    ghost use Rattle.qp_check_course.specs.AsTask.{as_tasks};
    ghost use Rattle.qp_chart.specs.contracts.expression.Bound as bound;

    ghost Value = { drill.Plan };

    ghost coded = { Prim.hlevel (codes, bound.the_row.coded) };

    ghost view = { λ plan. record { tasks = as_tasks plan.tasks.items; leaf = plan.leaf } };
}

/// Adds the exits from `s` up to below the main state.
fn push_exited<'a>(
    alloc: Global,
    chart: &'a Chart,
    main: Option<u8>,
    s: u8,
    tasks: &mut Vec<CourseTask<'a>>,
) -> Result<(), AllocError>
    ensures { IfOk result (λ _. as_tasks tasks.new.items ≡ as_tasks tasks.old.items ++ exits chart.now (exited chart.now main s)) }
{
    let path = exited(alloc, chart, main, s)?;
    push_exits(chart, &path, tasks)
}

/// Adds the entries from below the main state down to `t`.
fn push_entered<'a>(
    alloc: Global,
    chart: &'a Chart,
    main: Option<u8>,
    t: u8,
    tasks: &mut Vec<CourseTask<'a>>,
) -> Result<(), AllocError>
    ensures { IfOk result (λ _. as_tasks tasks.new.items ≡ as_tasks tasks.old.items ++ entries chart.now (entered chart.now main t)) }
{
    let path = entered(alloc, chart, main, t)?;
    push_entries(chart, &path, tasks)
}

/// Adds the note of an initial transition from `s`, its actions, and the entries down to its target.
#[tactic(auto, unfolding(qp_chart::specs::Drill::initial))]
fn push_initial<'a>(
    alloc: Global,
    chart: &'a Chart,
    s: u8,
    t: u8,
    tasks: &mut Vec<CourseTask<'a>>,
) -> Result<(), AllocError>
    ensures { IfOk result (λ _. as_tasks tasks.new.items ≡ as_tasks tasks.old.items ++ initial chart.now s t) }
{
    push_task(CourseTask::Init { state: s }, tasks)?;
    push_acts(init_acts(chart, s), tasks)?;
    push_entered(alloc, chart, Some(s), t, tasks)
}

/// Adds the initial transitions from `s` on, and tells the leaf after them.
fn push_drill<'a>(
    alloc: Global,
    chart: &'a Chart,
    s: u8,
    tasks: &mut Vec<CourseTask<'a>>,
) -> Result<u8, AllocError>
    ensures { IfOk result (λ leaf. AddsTasks (drill chart.now s) (as_tasks tasks.old.items) (as_tasks tasks.new.items) leaf) }
{
    let mut leaf = s;
    for _ in chart.state() {
        match init_of(chart, leaf) {
            Some(t) => {
                push_initial(alloc, chart, leaf, t, tasks)?;
                leaf = t;
            }
            None => return Ok(leaf),
        }
    }
    Ok(leaf)
}

/// Adds the exits and the entries of a transition from `s` to `t`.
#[tactic(auto, unfolding(qp_chart::specs::Agenda::crossing))]
fn push_crossing<'a>(
    alloc: Global,
    chart: &'a Chart,
    main: Option<u8>,
    leaf: u8,
    t: u8,
    tasks: &mut Vec<CourseTask<'a>>,
) -> Result<(), AllocError>
    ensures { IfOk result (λ _. as_tasks tasks.new.items ≡ as_tasks tasks.old.items ++ crossing chart.now main leaf t) }
{
    push_exited(alloc, chart, main, leaf, tasks)?;
    push_entered(alloc, chart, main, t, tasks)
}

/// Adds the move of a row of `s`, and tells the leaf after it.
fn push_moves<'a>(
    alloc: Global,
    chart: &'a Chart,
    leaf: u8,
    s: u8,
    to: Option<u8>,
    tasks: &mut Vec<CourseTask<'a>>,
) -> Result<u8, AllocError>
    ensures { IfOk result (λ after. AddsTasks (moves chart.now leaf s to) (as_tasks tasks.old.items) (as_tasks tasks.new.items) after) }
{
    match to {
        Some(t) => {
            push_crossing(alloc, chart, main_state(chart, s, t), leaf, t, tasks)?;
            push_drill(alloc, chart, t, tasks)
        }
        None => Ok(leaf),
    }
}

/// Adds what a handler does, and tells the leaf after it.
fn push_handled<'a>(
    alloc: Global,
    chart: &'a Chart,
    leaf: u8,
    found: Option<Handler<'a>>,
    tasks: &mut Vec<CourseTask<'a>>,
) -> Result<u8, AllocError>
    ensures { IfOk result (λ after. AddsTasks (handled chart.now leaf found.entry) (as_tasks tasks.old.items) (as_tasks tasks.new.items) after) }
{
    match found {
        Some(h) => {
            let note = CourseTask::Run {
                state: h.state,
                place: h.place,
            };
            push_task(note, tasks)?;
            push_acts(h.row.acts(), tasks)?;
            push_moves(alloc, chart, leaf, h.state, h.row.to(), tasks)
        }
        None => {
            push_task(CourseTask::Unhandled, tasks)?;
            Ok(leaf)
        }
    }
}

/// Adds all of a step, and tells the leaf after it.
fn push_step<'a>(
    alloc: Global,
    chart: &'a Chart,
    leaf: u8,
    env: &Env<'_>,
    sig: u64,
    tasks: &mut Vec<CourseTask<'a>>,
) -> Result<u8, AllocError>
    ensures { IfOk result (λ after. AddsTasks (step_plan chart.now leaf (names_in env.now) sig) (as_tasks tasks.old.items) (as_tasks tasks.new.items) after) }
{
    let found = handler_of(chart, env, sig, leaf);
    let after = push_handled(alloc, chart, leaf, found, tasks)?;
    push_task(CourseTask::Done, tasks)?;
    Ok(after)
}

/// The agenda of a step from the leaf over an event of this signal.
pub fn step_plan<'a>(
    alloc: Global,
    chart: &'a Chart,
    leaf: u8,
    env: &Env<'_>,
    sig: u64,
) -> Result<Plan<'a>, AllocError>
    ensures { IfOk result (λ plan. plan ≡ step_plan chart.now leaf (names_in env.now) sig) }
{
    let mut tasks = Vec::new(alloc);
    let leaf = push_step(alloc, chart, leaf, env, sig, &mut tasks)?;
    Ok(Plan { tasks, leaf })
}

/// Adds all of a start, and tells the leaf after it.
fn push_start<'a>(
    alloc: Global,
    chart: &'a Chart,
    tasks: &mut Vec<CourseTask<'a>>,
) -> Result<u8, AllocError>
    ensures { IfOk result (λ leaf. AddsTasks (start_plan chart.now) (as_tasks tasks.old.items) (as_tasks tasks.new.items) leaf) }
{
    push_task(CourseTask::Begin, tasks)?;
    push_acts(chart.init_do(), tasks)?;
    push_entered(alloc, chart, None, chart.init(), tasks)?;
    let leaf = push_drill(alloc, chart, chart.init(), tasks)?;
    push_task(CourseTask::Done, tasks)?;
    Ok(leaf)
}

/// The agenda of a start: the chart's initial actions, the entries down to the initial state, and its initial transitions.
pub fn start_plan<'a>(alloc: Global, chart: &'a Chart) -> Result<Plan<'a>, AllocError>
    ensures { IfOk result (λ plan. plan ≡ start_plan chart.now) }
{
    let mut tasks = Vec::new(alloc);
    let leaf = push_start(alloc, chart, &mut tasks)?;
    Ok(Plan { tasks, leaf })
}
