//! The places of a chart's states in their tree.

ghost use Rattle.std.specs.Prelude.{◌≡◌, IfOk};
ghost use Rattle.std.specs.Option.{option_copied};
ghost use Rattle.qp_chart.specs.StateTree.{has, state_at, parent_of, up, is_below};
ghost use Rattle.qp_chart.specs.MainState.{nearest, main_state, exited, entered};
ghost use Rattle.qp_chart.specs.Handler.{rows_of};
ghost use Rattle.qp_chart.specs.Drill.{init_of};

use qp_chart::{Chart, Row, State};
use std::alloc::{AllocError, Global};

/// A state by its number, from 1.
#[tactic(auto, unfolding(qp_chart::specs::StateTree::state_at))]
pub fn state_at(chart: &Chart, s: u8) -> Option<&State>
    ensures { option_copied result ≡ state_at chart.now s }
{
    chart.state().get(usize::from(s).saturating_sub(1))
}

/// The rows of a state.
pub fn rows_of(chart: &Chart, s: u8) -> &[Row]
    ensures { result.now ≡ rows_of (state_at chart.now s) }
{
    match state_at(chart, s) {
        Some(state) => state.row(),
        None => &[],
    }
}

/// The state right round a state.
#[tactic(auto, unfolding(qp_chart::specs::StateTree::parent_of))]
pub fn parent_of(chart: &Chart, s: u8) -> Option<u8>
    ensures { result ≡ parent_of chart.now s }
{
    match state_at(chart, s) {
        Some(state) => state.parent(),
        None => None,
    }
}

/// The target of a state's initial transition.
#[tactic(auto, unfolding(qp_chart::specs::Drill::init_of))]
pub fn init_of(chart: &Chart, s: u8) -> Option<u8>
    ensures { result ≡ init_of chart.now s }
{
    match state_at(chart, s) {
        Some(state) => state.init(),
        None => None,
    }
}

/// The states from `s` outwards.
pub fn path_of(alloc: Global, chart: &Chart, s: u8) -> Result<Vec<u8>, AllocError>
    ensures { IfOk result (λ path. path.items ≡ up chart.now s) }
{
    let mut path = Vec::new(alloc);
    let mut at = Some(s);
    for _ in chart.state() {
        match at {
            Some(x) => {
                path.push(x)?;
                at = parent_of(chart, x);
            }
            None => return Ok(path),
        }
    }
    Ok(path)
}

/// Whether state `y` is `x` or stands round it.
fn is_round(chart: &Chart, x: u8, y: u8) -> bool
    ensures { result ≡ has (up chart.now x) y }
{
    let mut at = Some(x);
    for _ in chart.state() {
        match at {
            Some(s) => {
                if s == y {
                    return true;
                }
                at = parent_of(chart, s);
            }
            None => return false,
        }
    }
    false
}

/// Whether `x` is properly below `y`; every state is below the top.
#[tactic(auto, unfolding(qp_chart::specs::StateTree::is_below))]
fn is_below(chart: &Chart, x: u8, y: Option<u8>) -> bool
    ensures { result ≡ is_below chart.now x y }
{
    match y {
        Some(y) => is_round(chart, x, y) && x != y,
        None => true,
    }
}

/// The nearest state that the paths of `s` and `t` share.
fn nearest(chart: &Chart, s: u8, t: u8) -> Option<u8>
    ensures { result ≡ nearest chart.now s t }
{
    let mut at = Some(s);
    for _ in chart.state() {
        match at {
            Some(x) => {
                if is_round(chart, t, x) {
                    return Some(x);
                }
                at = parent_of(chart, x);
            }
            None => return None,
        }
    }
    None
}

/// The main state of the transition from `s` to `t`, or `None` for the top.
#[tactic(auto, unfolding(qp_chart::specs::MainState::main_state))]
pub fn main_state(chart: &Chart, s: u8, t: u8) -> Option<u8>
    ensures { result ≡ main_state chart.now s t }
{
    if s == t {
        parent_of(chart, s)
    } else if is_below(chart, t, Some(s)) {
        Some(s)
    } else if is_below(chart, s, Some(t)) {
        Some(t)
    } else {
        nearest(chart, s, t)
    }
}

/// The states from `s` outwards that are below the main state.
#[tactic(auto, unfolding(qp_chart::specs::MainState::exited))]
pub fn exited(alloc: Global, chart: &Chart, main: Option<u8>, s: u8) -> Result<Vec<u8>, AllocError>
    ensures { IfOk result (λ path. path.items ≡ exited chart.now main s) }
{
    let path = path_of(alloc, chart, s)?;
    path.iter()
        .copied()
        .filter(|x| is_below(chart, *x, main))
        .collect(alloc)
}

/// The same states from the outermost one.
#[tactic(auto, unfolding(qp_chart::specs::MainState::entered))]
pub fn entered(alloc: Global, chart: &Chart, main: Option<u8>, t: u8) -> Result<Vec<u8>, AllocError>
    ensures { IfOk result (λ path. path.items ≡ entered chart.now main t) }
{
    let mut path = exited(alloc, chart, main, t)?;
    path.reverse();
    Ok(path)
}
