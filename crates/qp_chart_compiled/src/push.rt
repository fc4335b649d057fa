//! Codes that are added one after another.

ghost use Rattle.std.specs.Prelude.{◌≡◌, ◌++◌, drop, map, slice_get, IfOk, Some};
ghost use Rattle.qp_chart.specs.Task.{Do, tasks_of, act_tasks, exits, entries};
ghost use Rattle.qp_chart_compiled.specs.Codes.{acts_in, tasks_at};
ghost use Rattle.qp_chart_compiled.specs.Within.{IsLocked};

use crate::code::{ActionList, Code};
use crate::lists::acts_in;
use qp_chart::{Act, Chart, Plain};
use std::alloc::AllocError;

/// Adds the actions within the `locked` at a place of a list.
fn push_within(
    chart: &Chart,
    list: ActionList,
    at: usize,
    plains: &[Plain],
    codes: &mut Vec<Code>,
) -> Result<(), AllocError>
    requires { IsLocked plains.now (slice_get (acts_in chart.now list) at) }
    ensures { IfOk result (λ _. tasks_at chart.now codes.new.items ≡ tasks_at chart.now codes.old.items ++ map Do plains.now) }
{
    for place in 0..plains.len() {
        codes.push(Code::Within { list, at, place })?;
    }
    Ok(())
}

/// Adds the action at a place of a list.
#[tactic(auto, unfolding(qp_chart::specs::Task::act_tasks))]
fn push_act(
    chart: &Chart,
    list: ActionList,
    at: usize,
    act: &Act,
    codes: &mut Vec<Code>,
) -> Result<(), AllocError>
    requires { slice_get (acts_in chart.now list) at ≡ Some act.now }
    ensures { IfOk result (λ _. tasks_at chart.now codes.new.items ≡ tasks_at chart.now codes.old.items ++ act_tasks act.now) }
{
    match act {
        Act::Plain(_) => codes.push(Code::Do { list, at })?,
        Act::Locked { ceiling, acts } => {
            codes.push(Code::Raise { ceiling: *ceiling })?;
            push_within(chart, list, at, acts.items.as_slice(), codes)?;
            codes.push(Code::Restore)?;
        }
    }
    Ok(())
}

/// Adds the actions of a list, in order.
pub(crate) fn push_acts(
    chart: &Chart,
    list: ActionList,
    codes: &mut Vec<Code>,
) -> Result<(), AllocError>
    ensures { IfOk result (λ _. tasks_at chart.now codes.new.items ≡ tasks_at chart.now codes.old.items ++ tasks_of
        (acts_in chart.now list)) }
{
    let acts = acts_in(chart, list);
    for (at, act) in acts.iter().enumerate() {
        push_act(chart, list, at, act, codes)?;
    }
    Ok(())
}

/// Adds each state's exit note and exit actions.
pub(crate) fn push_exits(
    chart: &Chart,
    path: &[u8],
    codes: &mut Vec<Code>,
) -> Result<(), AllocError>
    ensures { IfOk result (λ _. tasks_at chart.now codes.new.items ≡ tasks_at chart.now codes.old.items ++ exits chart.now path.now) }
{
    for s in path {
        codes.push(Code::Exit { state: *s })?;
        push_acts(chart, ActionList::Exit(*s), codes)?;
    }
    Ok(())
}

/// Adds each state's entry note and entry actions.
pub(crate) fn push_entries(
    chart: &Chart,
    path: &[u8],
    codes: &mut Vec<Code>,
) -> Result<(), AllocError>
    ensures { IfOk result (λ _. tasks_at chart.now codes.new.items ≡ tasks_at chart.now codes.old.items ++ entries chart.now path.now) }
{
    for s in path {
        codes.push(Code::Enter { state: *s })?;
        push_acts(chart, ActionList::Entry(*s), codes)?;
    }
    Ok(())
}
