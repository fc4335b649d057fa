//! The parents of the states: that they make a tree, and no deep one.
ghost use Rattle.std.specs.Prelude.{◌≡◌, ◌≤◌, length, Some, None, IfOk, IfErr};
ghost use Rattle.qp_chart_names.specs.Faults.{IsChartFault, first_in};
ghost use Rattle.qp_chart.specs.StateTree.{has};
ghost use Rattle.qp_chart.specs.Parents.{parent_in, path_in, up_in, loop_at, depth_at, tree_fault};

use qp_chart_names::{ChartFault, Part, code, key};

/// The most states on a path.
pub const DEPTH: usize = 6;

/// Refuses parents that make a loop, or a path of too many states.
pub(crate) fn check_tree(parents: &[Option<u8>]) -> Result<(), ChartFault>
    requires { length parents.now ≤ 64 }
    ensures ok { IfOk result (λ _. tree_fault parents.now ≡ None) }
    ensures fault { IfErr result (IsChartFault (tree_fault parents.now)) }
{
    check_loops(parents)?;
    check_depth(parents)
}

fn check_loops(parents: &[Option<u8>]) -> Result<(), ChartFault>
    requires { length parents.now ≤ 64 }
    ensures ok { IfOk result (λ _. first_in (loop_at parents.now) 1 parents.now ≡ None) }
    ensures fault { IfErr result (IsChartFault (first_in (loop_at parents.now) 1 parents.now)) }
{
    for i in 0..parents.len() {
        let state = i as u8 + 1;
        if stands_above(parents, parent(parents, state), state) {
            let at = [Part::Key(key::STATE), Part::Pos(i as u16 + 1)];
            return Err(ChartFault::below(code::PARENT_LOOP, &at, &[Part::Key(key::PARENT)]));
        }
    }
    Ok(())
}

fn check_depth(parents: &[Option<u8>]) -> Result<(), ChartFault>
    requires { length parents.now ≤ 64 }
    ensures ok { IfOk result (λ _. first_in (depth_at parents.now) 1 parents.now ≡ None) }
    ensures fault { IfErr result (IsChartFault (first_in (depth_at parents.now) 1 parents.now)) }
{
    for i in 0..parents.len() {
        if depth(parents, i as u8 + 1) > DEPTH {
            let at = [Part::Key(key::STATE), Part::Pos(i as u16 + 1)];
            return Err(ChartFault::below(code::TOO_DEEP, &at, &[]));
        }
    }
    Ok(())
}

/// The parent of a state by its number, from 1.
fn parent(parents: &[Option<u8>], state: u8) -> Option<u8>
    ensures { result ≡ parent_in parents.now state }
{
    match parents.get((state as usize).saturating_sub(1)) {
        Some(parent) => *parent,
        None => None,
    }
}

/// Whether the state stands on the path that begins at `from`.
pub(crate) fn stands_above(parents: &[Option<u8>], from: Option<u8>, state: u8) -> bool
    ensures { result ≡ has (up_in parents.now from) state }
{
    on_path(parents, parents.len(), from, state)
}

/// The same, within so many steps.
fn on_path(parents: &[Option<u8>], steps: usize, from: Option<u8>, state: u8) -> bool
    ensures { result ≡ has (path_in parents.now steps from) state }
{
    if steps == 0 {
        return false;
    }
    match from {
        None => false,
        Some(here) => here == state || on_path(parents, steps - 1, parent(parents, here), state),
    }
}

/// How many states the path of a state has.
fn depth(parents: &[Option<u8>], state: u8) -> usize
    ensures { result ≡ length (up_in parents.now (Some state)) }
{
    path_len(parents, parents.len(), Some(state))
}

/// The number of states on the path that begins at `from`, within so many steps.
fn path_len(parents: &[Option<u8>], steps: usize, from: Option<u8>) -> usize
    ensures len { result ≡ length (path_in parents.now steps from) }
    ensures few { result ≤ steps }
{
    if steps == 0 {
        return 0;
    }
    match from {
        None => 0,
        Some(here) => path_len(parents, steps - 1, parent(parents, here)) + 1,
    }
}
