//! The lists of actions of a chart, and what codes name in them.

ghost use Rattle.std.specs.Prelude.{◌≡◌, slice_get};
ghost use Rattle.std.specs.Option.{option_copied};
ghost use Rattle.qp_chart_compiled.specs.AsTask.{as_task};
ghost use Rattle.qp_chart_compiled.specs.Codes.{row_at, row_acts, acts_in, alone_task, within_task, task_at};

use crate::code::{ActionList, Code};
use crate::task::Task;
use qp_chart::{Act, Chart, Row};
use qp_chart_tree::{rows_of, state_at};

/// A row of a state by its place, from 1.
#[tactic(auto, unfolding(crate::specs::Codes::row_at))]
pub(crate) fn row_at(chart: &Chart, state: u8, place: u8) -> Option<&Row>
    ensures { option_copied result ≡ row_at chart.now state place }
{
    rows_of(chart, state).get(usize::from(place).saturating_sub(1))
}

/// The actions of a row.
fn row_acts(chart: &Chart, state: u8, place: u8) -> &[Act]
    ensures { result.now ≡ row_acts (row_at chart.now state place) }
{
    match row_at(chart, state, place) {
        Some(row) => row.acts(),
        None => &[],
    }
}

/// The actions of a list; a state that isn't there has none.
#[tactic(auto, unfolding(crate::specs::Codes::acts_in))]
pub(crate) fn acts_in(chart: &Chart, list: ActionList) -> &[Act]
    ensures { result.now ≡ acts_in chart.now list }
{
    match list {
        ActionList::Start => chart.init_do(),
        ActionList::Entry(s) => match state_at(chart, s) {
            Some(state) => state.entry(),
            None => &[],
        },
        ActionList::Exit(s) => match state_at(chart, s) {
            Some(state) => state.exit(),
            None => &[],
        },
        ActionList::Init(s) => match state_at(chart, s) {
            Some(state) => state.init_do(),
            None => &[],
        },
        ActionList::Row { state, place } => row_acts(chart, state, place),
    }
}

/// An action that stands alone in its list.
fn alone(acts: &[Act], at: usize) -> Task<'_>
    ensures { as_task result ≡ alone_task (slice_get acts.now at) }
{
    match acts.get(at) {
        Some(Act::Plain(plain)) => Task::Do(plain),
        _ => Task::Done,
    }
}

/// An action within a `locked` of a list.
fn within(acts: &[Act], at: usize, place: usize) -> Task<'_>
    ensures { as_task result ≡ within_task place (slice_get acts.now at) }
{
    match acts.get(at) {
        Some(Act::Locked { acts, .. }) => match acts.items.as_slice().get(place) {
            Some(plain) => Task::Do(plain),
            None => Task::Done,
        },
        _ => Task::Done,
    }
}

/// The task that a code names.
#[tactic(auto, unfolding(crate::specs::Codes::task_at))]
pub(crate) fn task_at(chart: &Chart, code: Code) -> Task<'_>
    ensures { as_task result ≡ task_at chart.now code }
{
    match code {
        Code::Begin => Task::Begin,
        Code::Run { state, place } => Task::Run { state, place },
        Code::Unhandled => Task::Unhandled,
        Code::Exit { state } => Task::Exit { state },
        Code::Enter { state } => Task::Enter { state },
        Code::Init { state } => Task::Init { state },
        Code::Done => Task::Done,
        Code::Do { list, at } => alone(acts_in(chart, list), at),
        Code::Within { list, at, place } => within(acts_in(chart, list), at, place),
        Code::Raise { ceiling } => Task::Raise { ceiling },
        Code::Restore => Task::Restore,
    }
}

/// A code by its place, from 0.
pub(crate) fn code_at(codes: &[Code], at: usize) -> Option<Code>
    ensures { result ≡ slice_get codes.now at }
{
    codes.get(at).copied()
}
