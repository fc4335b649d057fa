//! A compiled chart.

ghost use Rattle.std.specs.Prelude.{◌≡◌, ◌≤◌, List, drop, length, suc, IfOk, IfSome, IfNone};
ghost use Rattle.std.specs.Option.{option_map};
ghost use Rattle.qp_chart.specs.declared.checked.Chart.{Chart};
ghost use Rattle.qp_chart.specs.Expr.{names_in};
ghost use Rattle.qp_chart.specs.Agenda.{start_plan, step_plan};
ghost use Rattle.qp_chart_compiled.specs.AsTask.{as_task, first_task};
ghost use Rattle.qp_chart_compiled.specs.Codes.{tasks_at};
ghost use Rattle.qp_chart_compiled.specs.Compiled.{IsCompiled, choices_in, classes_at, tasks_left_in};
ghost use Rattle.qp_chart_compiled.specs.Building.{MakesLeaves};

use crate::agenda::{Agenda, Plan};
use crate::choice::{Choice, Choices, Leaf};
use crate::code::Code;
use crate::leaves::leaf_of;
use crate::lists::{code_at, task_at};
use crate::plans::place_start;
use crate::rows::first_open;
use crate::task::Task;
use qp_base::Memory;
use qp_chart::{Chart, Env, Row};
use std::alloc::{AllocError, Global};

/// A chart, compiled: for each state as the leaf and each signal the rows that may handle it, each with its whole agenda.
///
/// It has numbers alone, so it may go to another thread, and several may read it at once. It is of use with its chart only.
#[derive(Drop)]
pub struct Compiled {
    pub(crate) codes: Vec<Code>,
    pub(crate) start: Plan,
    pub(crate) unhandled: Agenda,
    pub(crate) width: usize,
    pub(crate) leaves: Vec<Leaf>,
}

impl Compiled {
    /// Compiles a chart. It alone takes memory. Want of memory is also the answer for more than 255 states, or rows in a
    /// state, which no check lets pass.
    pub fn new(chart: &Chart, alloc: Global) -> Result<Compiled, Memory>
        ensures { IfOk result (λ c. IsCompiled chart.now c) }
    {
        match compile(alloc, chart) {
            Ok(compiled) => Ok(compiled),
            Err(_) => Err(Memory),
        }
    }

    /// What a start is to do, and the leaf after it.
    pub fn start(&self, chart: &Chart) -> (Agenda, u8)
        requires { IsCompiled chart.now self.now }
        ensures tasks { tasks_left_in chart.now self.now result.0 ≡ (start_plan chart.now).tasks }
        ensures leaf { result.1 ≡ (start_plan chart.now).leaf }
    {
        let _ = chart;
        (self.start.agenda, self.start.leaf)
    }

    /// What a step from the leaf is to do over an event of this signal, and the leaf after it.
    ///
    /// It looks at rows of the signal alone, and evaluates their guards up to the first that passes.
    pub fn step(&self, chart: &Chart, leaf: u8, env: &Env<'_>, sig: u16) -> (Agenda, u8)
        requires { IsCompiled chart.now self.now }
        ensures tasks { tasks_left_in chart.now self.now result.0 ≡ (step_plan chart.now leaf (names_in env.now) sig).tasks }
        ensures leaf { result.1 ≡ (step_plan chart.now leaf (names_in env.now) sig).leaf }
    {
        let choices = self.choices(leaf, usize::from(sig) % self.width);
        match first_open(chart, env, sig, choices) {
            Some(plan) => (plan.agenda, plan.leaf),
            None => (self.unhandled, leaf),
        }
    }

    /// The choices at a leaf for the signals that leave this rest.
    fn choices(&self, leaf: u8, rest: usize) -> &[Choice]
        ensures { result.now ≡ choices_in (classes_at self.now.leaves.items leaf) rest }
    {
        match self.leaves.get(usize::from(leaf)) {
            Some(leaf) => match leaf.classes.get(rest) {
                Some(choices) => choices.items.as_slice(),
                None => &[],
            },
            None => &[],
        }
    }

    /// The first task that is left. There is none exactly where no task is left.
    pub fn next<'a>(&self, chart: &'a Chart, agenda: &Agenda) -> Option<Task<'a>>
        ensures { option_map as_task result ≡ first_task (tasks_left_in chart.now self.now agenda.now) }
    {
        if agenda.from >= agenda.to {
            return None;
        }
        match code_at(self.codes.as_slice(), agenda.from) {
            Some(code) => Some(task_at(chart, code)),
            None => None,
        }
    }

    /// Drops the first task that is left; where none is, nothing changes.
    pub fn advance(&self, agenda: &mut Agenda)
        ensures { (chart : Chart) → tasks_left_in chart self.now agenda.new ≡ drop 1 (tasks_left_in chart self.now agenda.old) }
    {
        if agenda.from < agenda.to {
            agenda.from += 1;
        }
    }
}

/// A number above all signals of the chart's rows, so that the rows of different signals never share a class.
fn width_of(chart: &Chart) -> usize
    ensures { 1 ≤ result }
{
    let mut greatest = 0;
    for state in chart.state() {
        greatest = greatest_signal(state.row(), greatest);
    }
    usize::from(greatest).saturating_add(1)
}

/// The greatest signal of some rows, and of those before.
fn greatest_signal(rows: &[Row], before: u16) -> u16 {
    let mut greatest = before;
    for row in rows {
        greatest = greatest.max(row.on());
    }
    greatest
}

/// The choices of each leaf, from 0 to the last state.
fn leaves_of(
    alloc: Global,
    chart: &Chart,
    width: usize,
    codes: &mut Vec<Code>,
) -> Result<Vec<Leaf>, AllocError>
    requires { 1 ≤ width }
    ensures { IfOk result (λ leaves. MakesLeaves chart.now width (tasks_at chart.now codes.old.items)
        (tasks_at chart.now codes.new.items) leaves.items) }
{
    let mut leaves = Vec::new(alloc);
    let count = chart.state().len() + 1;
    for leaf in 0..count {
        if leaf > 255 {
            return Err(AllocError);
        }
        let made = leaf_of(alloc, chart, leaf as u8, width, codes)?;
        leaves.push(made)?;
    }
    Ok(leaves)
}

/// The chart's tables.
fn compile(alloc: Global, chart: &Chart) -> Result<Compiled, AllocError>
    ensures { IfOk result (λ c. IsCompiled chart.now c) }
{
    let mut codes = Vec::new(alloc);
    codes.push(Code::Unhandled)?;
    codes.push(Code::Done)?;
    let unhandled = Agenda { from: 0, to: 2 };
    let start = place_start(alloc, chart, &mut codes)?;
    let width = width_of(chart);
    let leaves = leaves_of(alloc, chart, width, &mut codes)?;
    Ok(Compiled {
        codes,
        start,
        unhandled,
        width,
        leaves,
    })
}
