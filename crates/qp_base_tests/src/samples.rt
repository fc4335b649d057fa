//! Charts of files, and their agendas as texts.

ghost use Rattle.qp_chart_compiled.specs.Compiled.{IsCompiled};

use qp_chart::{Bound, Chart, Env, Node, Plain};
use qp_chart_compiled::{Agenda, Compiled, Task};
use qp_system::system_of_bytes;
use std::alloc::{AllocError, Global};

/// The one chart of a file.
fn chart_of(alloc: Global, text: &str) -> Option<Chart> {
    let sys = system_of_bytes(alloc, text.as_bytes()).ok()?;
    let mut charts = sys.charts.items;
    charts.pop()
}

/// A plain action: a `say` with its number.
fn shown_plain(alloc: Global, plain: &Plain) -> Result<String, AllocError> {
    match plain {
        Plain::Say(Bound { node: Node::Num(n) }) => format!(in alloc; "say {n}"),
        _ => String::from_str(alloc, "another action"),
    }
}

fn shown(alloc: Global, task: Task<'_>) -> Result<String, AllocError> {
    match task {
        Task::Begin => String::from_str(alloc, "begin"),
        Task::Run { state, place } => format!(in alloc; "run {state} {place}"),
        Task::Unhandled => String::from_str(alloc, "none"),
        Task::Exit { state } => format!(in alloc; "exit {state}"),
        Task::Enter { state } => format!(in alloc; "enter {state}"),
        Task::Init { state } => format!(in alloc; "init {state}"),
        Task::Done => String::from_str(alloc, "done"),
        Task::Do(plain) => shown_plain(alloc, plain),
        Task::Raise { ceiling } => format!(in alloc; "lock {ceiling}"),
        Task::Restore => String::from_str(alloc, "unlock"),
    }
}

/// The tasks that are left, with commas between them. It drops one after another, and looks beyond the last one.
fn tasks_of(
    alloc: Global,
    compiled: &Compiled,
    chart: &Chart,
    agenda: Agenda,
) -> Result<String, AllocError> {
    let mut left = agenda;
    let mut text = String::new(alloc);
    for i in 0..60u8 {
        if let Some(task) = compiled.next(chart, &left) {
            if i > 0 {
                text.push_str(", ")?;
            }
            text.push_str(shown(alloc, task)?.as_str())?;
        }
        compiled.advance(&mut left);
    }
    Ok(text)
}

/// A step from a leaf by a signal, with the variables and the last answer; what it does, and the leaf after it.
pub(crate) type Step = (u8, u16, &'static [i64], i64, &'static str, u8);

/// The chart of a file; what its start does, with the leaf after it; and steps.
pub(crate) struct Trial {
    pub(crate) file: &'static str,
    pub(crate) start: (&'static str, u8),
    pub(crate) steps: &'static [Step],
}

/// Whether an agenda has these tasks, and its leaf is this one.
fn is_so(
    alloc: Global,
    chart: &Chart,
    compiled: &Compiled,
    found: (Agenda, u8),
    tasks: &str,
    leaf: u8,
) -> bool {
    let (agenda, at) = found;
    match tasks_of(alloc, compiled, chart, agenda) {
        Ok(text) => at == leaf && text.as_str() == tasks,
        Err(_) => false,
    }
}

fn is_step(alloc: Global, chart: &Chart, compiled: &Compiled, step: &Step) -> bool
    requires { IsCompiled chart.now compiled.now }
{
    let (from, signal, vars, ok, tasks, leaf) = step;
    let env = Env {
        vars,
        pars: &[],
        ok: *ok,
        me: 1,
    };
    let found = compiled.step(chart, *from, &env, *signal);
    is_so(alloc, chart, compiled, found, tasks, *leaf)
}

/// The tasks of the start, or of the first step, that isn't as the trial has it.
fn wrong_in(
    alloc: Global,
    chart: &Chart,
    compiled: &Compiled,
    trial: &Trial,
) -> Option<&'static str>
    requires { IsCompiled chart.now compiled.now }
{
    let (tasks, leaf) = trial.start;
    let found = compiled.start(chart);
    if !is_so(alloc, chart, compiled, found, tasks, leaf) {
        return Some(tasks);
    }
    for step in trial.steps {
        if !is_step(alloc, chart, compiled, step) {
            return Some(step.4);
        }
    }
    None
}

/// The same of the trial's own chart.
pub(crate) fn wrong(alloc: Global, trial: &Trial) -> Option<&'static str> {
    let Some(chart) = chart_of(alloc, trial.file) else {
        return Some("no chart");
    };
    match Compiled::new(&chart, alloc) {
        Ok(compiled) => wrong_in(alloc, &chart, &compiled, trial),
        Err(_) => Some("no memory"),
    }
}
