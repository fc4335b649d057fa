//! The agendas of a chart of two states, and lists that follow it.

ghost use Rattle.std.specs.Prelude.{◌≡◌, ◌≤◌, true, length, IsTrue, IfOk, IfSome};
ghost use Rattle.qp_chart_names.specs.declared.raw.Names.{Names};
ghost use Rattle.qp_chart_names.specs.Readable.{IsReadable, IsReadableState};
ghost use Rattle.qp_model.specs.declared.systems.System.{System};
ghost use Rattle.qp_model.specs.declared.systems.ObjectDef.{ObjectDef};
ghost use Rattle.qp_model.specs.Able.{state_able, chart_able};
ghost use Rattle.qp_check_course.specs.Followable.{IsFollowable};

use crate::lines::Line::{Begin, Done, Enter, Init, Run, Taken, TakenUnknown, Unhandled};
use crate::lines::{Line, put_told};
use crate::samples::{lamp, name_of, nothing};
use qp_chart::{
    Chart, ChartFault, Env, Name, Names, ObjNames, RawChart, RawRows, RawState, RawStates,
    RawTimers, SigNames, State, Texts, Vars,
};
use qp_check_calls::{Cut, Known, Piece, Told};
use qp_check_course::{CourseTask, follows, follows_with_points, start_plan, step_plan};
use qp_model::{Body, System};
use std::alloc::{AllocError, Global};

fn texts(alloc: Global) -> Texts
    ensures { length result ≡ 0 }
{
    Texts {
        items: Vec::new(alloc),
    }
}

fn state(alloc: Global, own: &str, parent: Option<Name>, init: Option<Name>) -> RawState
    requires { length own.now ≤ 24 }
    ensures { IsReadableState result }
{
    RawState {
        name: name_of(own),
        parent,
        entry: texts(alloc),
        exit: texts(alloc),
        init,
        init_do: texts(alloc),
        row: RawRows {
            items: Vec::new(alloc),
        },
    }
}

// State `outer` with `inner` in it, which is its initial target.
fn nested(alloc: Global) -> Result<RawChart, AllocError>
    ensures { IfOk result (λ chart. (names : Names) → length names.signals ≡ 0 → length names.objects ≡ 0 → IsReadable names chart) }
{
    let mut items = Vec::new(alloc);
    items.push(state(alloc, "outer", None, Some(name_of("inner"))))?;
    items.push(state(alloc, "inner", Some(name_of("outer")), None))?;
    Ok(RawChart {
        name: name_of("nested"),
        init: name_of("outer"),
        init_do: texts(alloc),
        vars: Vars {
            items: Vec::new(alloc),
        },
        timer: RawTimers {
            items: Vec::new(alloc),
        },
        state: RawStates { items },
    })
}

fn chart(alloc: Global) -> Result<Chart, ChartFault> {
    let names = Names {
        signals: SigNames {
            items: Vec::new(alloc),
        },
        objects: ObjNames {
            items: Vec::new(alloc),
        },
    };
    let raw = match nested(alloc) {
        Ok(raw) => raw,
        Err(_) => return Err(ChartFault::Memory),
    };
    Chart::check(alloc, &raw, &names)
}

/// Whether a task is the entry into a state, or its initial transition.
fn is_into(task: &CourseTask, is_entry: bool, state: u8) -> bool {
    match task {
        CourseTask::Enter { state: of } => is_entry && *of == state,
        CourseTask::Init { state: of } => !is_entry && *of == state,
        _ => false,
    }
}

/// Whether tasks enter the outer state, and then by its initial transition the inner one.
fn enter_both(tasks: &[CourseTask]) -> bool {
    match tasks {
        [outer, init, inner] => {
            is_into(outer, true, 1) && is_into(init, false, 1) && is_into(inner, true, 2)
        }
        _ => false,
    }
}

fn is_start(tasks: &[CourseTask]) -> bool {
    match tasks {
        [CourseTask::Begin, within @ .., CourseTask::Done] => enter_both(within),
        _ => false,
    }
}

/// Whether a start enters down to the leaf.
fn starts(alloc: Global, chart: &Chart) -> bool {
    match start_plan(alloc, chart) {
        Ok(plan) => plan.leaf == 2 && is_start(plan.tasks.as_slice()),
        Err(_) => false,
    }
}

fn is_unhandled(tasks: &[CourseTask]) -> bool {
    matches!(tasks, [CourseTask::Unhandled, CourseTask::Done])
}

/// Whether an event without a row is unhandled.
fn passes_over(alloc: Global, chart: &Chart) -> bool {
    let env = Env {
        vars: &[],
        pars: &[],
        ok: 0,
        me: 1,
    };
    match step_plan(alloc, chart, 2, &env, 4) {
        Ok(plan) => plan.leaf == 2 && is_unhandled(plan.tasks.as_slice()),
        Err(_) => false,
    }
}

/// Whether the plan of a step, or else that of a start, is right.
fn is_planned(alloc: Global, steps: bool) -> bool {
    match chart(alloc) {
        Ok(chart) if steps => passes_over(alloc, &chart),
        Ok(chart) => starts(alloc, &chart),
        Err(_) => false,
    }
}

#[test]
fn plans(rt: HostRuntime) {
    for steps in &[false, true] {
        assert!(rt; is_planned(rt.alloc(), *steps), "steps: {steps}");
    }
}

fn has_no_action(s: &State) -> bool
    ensures { IsTrue result → (sys : System) → state_able sys s.now ≡ true }
{
    if !s.entry().is_empty() {
        return false;
    }
    if !s.exit().is_empty() {
        return false;
    }
    if !s.init_do().is_empty() {
        return false;
    }
    s.row().is_empty()
}

/// The chart has no action, so it asks for nothing.
fn is_idle(chart: &Chart) -> bool
    ensures { IsTrue result → (sys : System) → chart_able sys chart.now ≡ true }
{
    for s in chart.state() {
        if !has_no_action(s) {
            return false;
        }
    }
    chart.init_do().is_empty()
}

/// A system of this chart alone.
fn system_of(alloc: Global, chart: Chart) -> Result<System, AllocError>
    requires { (sys : System) → chart_able sys chart ≡ true }
    ensures { IfOk result (λ sys. (d : ObjectDef) → d.chart ≡ 1 → IsFollowable sys d) }
{
    let mut sys = nothing(alloc);
    sys.charts.items.push(chart)?;
    Ok(sys)
}

/// A system of the chart of two states alone.
fn system(alloc: Global) -> Option<System>
    ensures { IfSome result (λ sys. (d : ObjectDef) → d.chart ≡ 1 → IsFollowable sys d) }
{
    let Ok(chart) = chart(alloc) else {
        return None;
    };
    if !is_idle(&chart) {
        return None;
    }
    match system_of(alloc, chart) {
        Ok(sys) => Some(sys),
        Err(_) => None,
    }
}

/// A start, and a step over an event that has no row.
const START_AND_STEP: [Line; 8] = [
    Begin,
    Enter(1),
    Init(1),
    Enter(2),
    Done,
    Taken(0),
    Unhandled,
    Done,
];

/// Whether so many of these records, and others behind them, follow the chart.
fn do_follow(
    alloc: Global,
    sys: &System,
    cut: Cut,
    front: usize,
    behind: &[Line],
) -> Result<bool, AllocError>
    requires { (d : ObjectDef) → d.chart ≡ 1 → IsFollowable sys.now d }
{
    let mut told = Vec::new(alloc);
    put_told(&mut told, START_AND_STEP.get(..front).unwrap_or(&[]))?;
    put_told(&mut told, behind)?;
    follows(alloc, sys, &lamp(alloc), cut, told.as_slice())
}

const LISTS: [(Cut, usize, &[Line], bool); 15] = [
    (Cut::Whole, 0, &[], false),
    (Cut::Stopped, 0, &[], true),
    (Cut::Whole, 4, &[], false),
    (Cut::Stopped, 4, &[], false),
    (Cut::Anywhere, 4, &[], true),
    (Cut::Whole, 5, &[], true),
    (Cut::Whole, 7, &[], false),
    (Cut::Anywhere, 7, &[], true),
    (Cut::Whole, 8, &[], true),
    // Records that don't follow those before them.
    (Cut::Anywhere, 1, &[Enter(2)], false),
    (Cut::Anywhere, 4, &[Enter(2)], false),
    (Cut::Anywhere, 5, &[Begin], false),
    (Cut::Anywhere, 5, &[TakenUnknown(0)], false),
    (Cut::Anywhere, 6, &[Run(2, 1)], false),
    (Cut::Anywhere, 7, &[Unhandled], false),
];

const BEGUN: Piece = Piece::Tell(Told {
    body: Body::Begin,
    known: Known::Nothing,
});

const ENTERED: Piece = Piece::Tell(Told {
    body: Body::Enter { state: 1 },
    known: Known::Nothing,
});

const POINTS: [([Piece; 2], bool); 2] = [([BEGUN, ENTERED], true), ([BEGUN, Piece::Point], false)];

/// Whether these records and points follow the chart.
fn do_follow_with_points(alloc: Global, sys: &System, records: &[Piece]) -> Result<bool, AllocError>
    requires { (d : ObjectDef) → d.chart ≡ 1 → IsFollowable sys.now d }
{
    follows_with_points(alloc, sys, &lamp(alloc), Cut::Anywhere, records)
}

/// The same in the system of the chart.
fn is_course(alloc: Global, cut: Cut, front: usize, behind: &[Line]) -> Option<bool> {
    match system(alloc) {
        Some(sys) => do_follow(alloc, &sys, cut, front, behind).ok(),
        None => None,
    }
}

fn is_course_with_points(alloc: Global, records: &[Piece]) -> Option<bool> {
    match system(alloc) {
        Some(sys) => do_follow_with_points(alloc, &sys, records).ok(),
        None => None,
    }
}

/// The first list of which something else is answered.
fn first_wrong(alloc: Global) -> Option<usize> {
    for (i, (cut, front, behind, want)) in LISTS.iter().enumerate() {
        if is_course(alloc, *cut, *front, behind) != Some(*want) {
            return Some(i);
        }
    }
    None
}

/// A start and a step follow their chart, and a start has no point.
#[test]
fn courses(rt: HostRuntime) {
    let wrong = first_wrong(rt.alloc());
    assert!(rt; wrong.is_none(), "list {wrong:?}");
    for (records, want) in &POINTS {
        assert!(rt; is_course_with_points(rt.alloc(), records) == Some(*want));
    }
}
