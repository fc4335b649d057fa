//! The actions at a chart's states.

ghost use Rattle.std.specs.Prelude.{◌≡◌};
ghost use Rattle.qp_chart.specs.StateTree.{state_at};
ghost use Rattle.qp_chart.specs.Task.{acts_at};

use qp_chart::{Act, Chart};
use qp_chart_tree::state_at;

/// The exit actions of a state.
pub(crate) fn exit_acts(chart: &Chart, s: u8) -> &[Act]
    ensures { result.now ≡ acts_at (λ x. x.exit) (state_at chart.now s) }
{
    match state_at(chart, s) {
        Some(state) => state.exit(),
        None => &[],
    }
}

/// The entry actions of a state.
pub(crate) fn entry_acts(chart: &Chart, s: u8) -> &[Act]
    ensures { result.now ≡ acts_at (λ x. x.entry) (state_at chart.now s) }
{
    match state_at(chart, s) {
        Some(state) => state.entry(),
        None => &[],
    }
}

/// The actions of a state's initial transition.
pub(crate) fn init_acts(chart: &Chart, s: u8) -> &[Act]
    ensures { result.now ≡ acts_at (λ x. x.init_do) (state_at chart.now s) }
{
    match state_at(chart, s) {
        Some(state) => state.init_do(),
        None => &[],
    }
}
