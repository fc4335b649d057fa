//! Charts of files that were read: their parts, a tree of states, and the largest.

use crate::samples::{CHART, TREE};
use qp_chart::{Chart, Row, State, Timer};
use qp_model::System;
use qp_system::system_of_bytes;
use std::alloc::{AllocError, Global};
use std::test::Fail;

/// The system of a file whose chart ends so.
fn system(alloc: Global, rest: &str) -> Option<System> {
    let Ok(text) = [CHART, rest].concat(alloc) else {
        return None;
    };
    system_of_bytes(alloc, text.as_bytes()).ok()
}

/// Whether a row goes from GO to the first state without a guard, with one action.
fn row_is_right(row: &Row) -> bool {
    row.on() == 4 && row.when().is_none() && row.acts().len() == 1 && row.to() == Some(1)
}

/// Whether a state is s: it has one row, and nothing else.
fn state_is_right(state: &State) -> bool {
    if state.parent().is_some() || state.init().is_some() || state.row().len() != 1 {
        return false;
    }
    if state.entry().len() + state.exit().len() + state.init_do().len() != 0 {
        return false;
    }
    state.name().as_str() == "s" && row_is_right(&state.row()[0])
}

/// Whether a time event is T, with the signal TICK and no rate.
fn timer_is_right(timer: &Timer) -> bool {
    timer.name().as_str() == "T" && timer.signal() == 6 && timer.rate() == 0
}

/// Whether a chart is the one with the state s alone: states count from 1, signals from 4.
fn chart_is_right(chart: &Chart) -> bool {
    if chart.timer().len() != 1 || chart.state().len() != 1 {
        return false;
    }
    if chart.init() != 1 || !chart.init_do().is_empty() || chart.vars().len() != 2 {
        return false;
    }
    chart.name().as_str() == "c"
        && timer_is_right(&chart.timer()[0])
        && state_is_right(&chart.state()[0])
}

/// A chart of one state.
const SMALL: &str =
    "init = 's'\ntimer = [{ name = 'T', signal = 'TICK', rate = 0 }]\nstate = [{ name = 's', row = [{ on = 'GO', do = ['x = 1'], to = 's' }] }]";

const PARENTS: [Option<u8>; 9] = [
    None,
    Some(1),
    Some(2),
    Some(3),
    Some(4),
    Some(5),
    Some(1),
    Some(7),
    None,
];

/// Whether states have the tree's parents.
fn have_parents(states: &[State]) -> bool {
    for (state, parent) in states.iter().zip(&PARENTS) {
        if state.parent() != *parent {
            return false;
        }
    }
    states.len() == 9
}

/// Whether a chart has the tree's parents, and its one initial target.
fn tree_is_right(chart: &Chart) -> bool {
    let states = chart.state();
    if chart.init() != 6 || !have_parents(states) {
        return false;
    }
    match states {
        [a, b, ..] => a.init().is_none() && b.init() == Some(5),
        _ => false,
    }
}

/// Rows of 16 actions each.
fn rows(alloc: Global, count: usize) -> Result<String, AllocError> {
    let acts = "'x = x + 1',".repeat(alloc, 16)?;
    let row = format!(in alloc; "{{ on = 'GO', when = 'x == 1', to = 's1', do = [{acts}] }},")?;
    row.repeat(alloc, count)
}

/// States with these rows.
fn put_states(text: &mut String, alloc: Global, rows: &str) -> Result<(), AllocError> {
    for i in 1..=64u8 {
        let state = format!(in alloc; "{{ name = 's{i}', row = [{rows}] }},\n")?;
        text.push_str(state.as_str())?;
    }
    text.push_str("]\n")
}

/// The end of the file of the largest chart: 64 states with 32 rows of 16 actions each.
fn largest(alloc: Global) -> Result<String, AllocError> {
    let rows = rows(alloc, 32)?;
    let mut text = String::from_str(alloc, "init = 's1'\nstate = [\n")?;
    put_states(&mut text, alloc, rows.as_str())?;
    Ok(text)
}

fn largest_is_right(chart: &Chart) -> bool {
    for state in chart.state() {
        if state.row().len() != 32 {
            return false;
        }
    }
    chart.state().len() == 64
}

/// A chart of the tests.
#[derive(Clone, Copy)]
enum Which {
    Small,
    Tree,
    Largest,
}

fn is_right(which: Which, charts: &[Chart]) -> bool {
    match charts {
        [chart] => match which {
            Which::Small => chart_is_right(chart),
            Which::Tree => tree_is_right(chart),
            Which::Largest => largest_is_right(chart),
        },
        _ => false,
    }
}

/// Whether a file whose chart ends so has this chart alone.
fn is_read(alloc: Global, which: Which, rest: &str) -> bool {
    match system(alloc, rest) {
        Some(sys) => is_right(which, sys.charts.items.as_slice()),
        None => false,
    }
}

/// Names become numbers: states from 1, signals from 4. The tree is the one of the worked transitions, and memory is there for the largest
/// chart.
#[test]
fn charts(rt: HostRuntime) -> Result<(), Fail> {
    let largest = largest(rt.alloc())?;
    assert!(rt; is_read(rt.alloc(), Which::Small, SMALL));
    assert!(rt; is_read(rt.alloc(), Which::Tree, TREE));
    assert!(rt; is_read(rt.alloc(), Which::Largest, largest.as_str()));
    Ok(())
}
