//! The agendas of a start and of a step, as codes.

ghost use Rattle.std.specs.Prelude.{◌≡◌, ◌++◌, IfOk, Some};
ghost use Rattle.qp_chart.specs.Drill.{initial, drill};
ghost use Rattle.qp_chart.specs.Agenda.{crossing, moves, handled, ended, start_plan};
ghost use Rattle.qp_chart.specs.Handler.{Handler};
ghost use Rattle.qp_chart_compiled.specs.Codes.{row_at, tasks_at};
ghost use Rattle.qp_chart_tree.specs.Plans.{AddsTasks};
ghost use Rattle.qp_chart_compiled.specs.Building.{Places};

use crate::agenda::{Agenda, Plan};
use crate::code::{ActionList, Code};
use crate::push::{push_acts, push_entries, push_exits};
use qp_chart::{Chart, Row};
use qp_chart_tree::{entered, exited, init_of, main_state};
use std::alloc::{AllocError, Global};

/// Adds the note of an initial transition from `s`, its actions, and the entries down to its target.
#[tactic(auto, unfolding(qp_chart::specs::Drill::initial))]
fn push_initial(
    alloc: Global,
    chart: &Chart,
    s: u8,
    t: u8,
    codes: &mut Vec<Code>,
) -> Result<(), AllocError>
    ensures { IfOk result (λ _. tasks_at chart.now codes.new.items ≡ tasks_at chart.now codes.old.items ++ initial chart.now s t) }
{
    let path = entered(alloc, chart, Some(s), t)?;
    codes.push(Code::Init { state: s })?;
    push_acts(chart, ActionList::Init(s), codes)?;
    push_entries(chart, &path, codes)
}

/// Adds the initial transitions from `s` on, and tells the leaf after them.
fn push_drill(alloc: Global, chart: &Chart, s: u8, codes: &mut Vec<Code>) -> Result<u8, AllocError>
    ensures { IfOk result (λ leaf. AddsTasks (drill chart.now s) (tasks_at chart.now codes.old.items) (tasks_at chart.now codes.new.items) leaf) }
{
    let mut leaf = s;
    for _ in chart.state() {
        match init_of(chart, leaf) {
            Some(t) => {
                push_initial(alloc, chart, leaf, t, codes)?;
                leaf = t;
            }
            None => return Ok(leaf),
        }
    }
    Ok(leaf)
}

/// Adds the exits and the entries of a transition.
#[tactic(auto, unfolding(qp_chart::specs::Agenda::crossing))]
fn push_crossing(
    alloc: Global,
    chart: &Chart,
    main: Option<u8>,
    leaf: u8,
    t: u8,
    codes: &mut Vec<Code>,
) -> Result<(), AllocError>
    ensures { IfOk result (λ _. tasks_at chart.now codes.new.items ≡ tasks_at chart.now codes.old.items ++ crossing chart.now main leaf t) }
{
    let outwards = exited(alloc, chart, main, leaf)?;
    push_exits(chart, &outwards, codes)?;
    let inwards = entered(alloc, chart, main, t)?;
    push_entries(chart, &inwards, codes)
}

/// Adds the move of a row of `s`, and tells the leaf after it.
fn push_moves(
    alloc: Global,
    chart: &Chart,
    leaf: u8,
    s: u8,
    to: Option<u8>,
    codes: &mut Vec<Code>,
) -> Result<u8, AllocError>
    ensures { IfOk result (λ after. AddsTasks (moves chart.now leaf s to) (tasks_at chart.now codes.old.items)
        (tasks_at chart.now codes.new.items) after) }
{
    match to {
        Some(t) => {
            push_crossing(alloc, chart, main_state(chart, s, t), leaf, t, codes)?;
            push_drill(alloc, chart, t, codes)
        }
        None => Ok(leaf),
    }
}

/// Places what a step does where this row handles its event, and the leaf after it.
pub(crate) fn place_step(
    alloc: Global,
    chart: &Chart,
    leaf: u8,
    state: u8,
    place: u8,
    row: &Row,
    codes: &mut Vec<Code>,
) -> Result<Plan, AllocError>
    requires { row_at chart.now state place ≡ Some row.now }
    ensures { IfOk result (Places (ended (handled chart.now leaf (Some (record { state = state; place = place; row = row.now }))))
        (tasks_at chart.now codes.old.items) (tasks_at chart.now codes.new.items)) }
{
    let from = codes.len();
    codes.push(Code::Run { state, place })?;
    push_acts(chart, ActionList::Row { state, place }, codes)?;
    let after = push_moves(alloc, chart, leaf, state, row.to(), codes)?;
    codes.push(Code::Done)?;
    Ok(Plan {
        agenda: Agenda {
            from,
            to: codes.len(),
        },
        leaf: after,
    })
}

/// Places what a start does, and the leaf after it.
pub(crate) fn place_start(
    alloc: Global,
    chart: &Chart,
    codes: &mut Vec<Code>,
) -> Result<Plan, AllocError>
    ensures { IfOk result (Places (start_plan chart.now) (tasks_at chart.now codes.old.items) (tasks_at chart.now codes.new.items)) }
{
    let from = codes.len();
    codes.push(Code::Begin)?;
    push_acts(chart, ActionList::Start, codes)?;
    let path = entered(alloc, chart, None, chart.init())?;
    push_entries(chart, &path, codes)?;
    let leaf = push_drill(alloc, chart, chart.init(), codes)?;
    codes.push(Code::Done)?;
    Ok(Plan {
        agenda: Agenda {
            from,
            to: codes.len(),
        },
        leaf,
    })
}
