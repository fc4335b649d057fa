//! What a step or a start is to do, one by one.

ghost use Rattle.std.specs.Prelude.{◌≡◌, ◌∷◌, [], ◌++◌, map, IfOk};
ghost use Rattle.qp_chart.specs.Task.{Do, Raise, Restore, tasks_of, act_tasks, exits, entries};
ghost use Rattle.qp_check_course.specs.AsTask.{as_course_task, as_tasks};

use crate::state_acts::{entry_acts, exit_acts};
use qp_chart::{Act, Chart, Plain};
use std::alloc::AllocError;

/// A note, an action, or a mark of `locked`.
#[derive(Drop)]
pub enum CourseTask<'a> {
    Begin,
    Run { state: u8, place: usize },
    /// No state handles the event.
    Unhandled,
    Exit { state: u8 },
    Enter { state: u8 },
    Init { state: u8 },
    Done,
    Do(&'a Plain),
    /// The ceiling is raised, and the former one comes back.
    Raise { ceiling: u8 },
    Restore,
}

/// Adds a task.
pub(crate) fn push_task<'a>(
    task: CourseTask<'a>,
    tasks: &mut Vec<CourseTask<'a>>,
) -> Result<(), AllocError>
    ensures { IfOk result (λ _. as_tasks tasks.new.items ≡ as_tasks tasks.old.items ++ as_course_task task.entry ∷ []) }
{
    tasks.push(task)?;
    Ok(())
}

/// Adds the actions within `locked`.
fn push_plains<'a>(plains: &'a [Plain], tasks: &mut Vec<CourseTask<'a>>) -> Result<(), AllocError>
    ensures { IfOk result (λ _. as_tasks tasks.new.items ≡ as_tasks tasks.old.items ++ map Do plains.now) }
{
    for plain in plains {
        push_task(CourseTask::Do(plain), tasks)?;
    }
    Ok(())
}

/// Adds `locked`: the actions within, and its two marks.
fn push_locked<'a>(
    ceiling: u8,
    plains: &'a [Plain],
    tasks: &mut Vec<CourseTask<'a>>,
) -> Result<(), AllocError>
    ensures { IfOk result (λ _. as_tasks tasks.new.items ≡ as_tasks tasks.old.items ++ Raise ceiling ∷ map Do plains.now ++ Restore ∷ []) }
{
    push_task(CourseTask::Raise { ceiling }, tasks)?;
    push_plains(plains, tasks)?;
    push_task(CourseTask::Restore, tasks)
}

/// Adds the tasks of an action.
#[tactic(auto, unfolding(qp_chart::specs::Task::act_tasks))]
fn push_act<'a>(act: &'a Act, tasks: &mut Vec<CourseTask<'a>>) -> Result<(), AllocError>
    ensures { IfOk result (λ _. as_tasks tasks.new.items ≡ as_tasks tasks.old.items ++ act_tasks act.now) }
{
    match act {
        Act::Plain(plain) => push_task(CourseTask::Do(plain), tasks),
        Act::Locked { ceiling, acts } => push_locked(*ceiling, acts.items.as_slice(), tasks),
    }
}

/// Adds the tasks of some actions, in order.
pub(crate) fn push_acts<'a>(
    acts: &'a [Act],
    tasks: &mut Vec<CourseTask<'a>>,
) -> Result<(), AllocError>
    ensures { IfOk result (λ _. as_tasks tasks.new.items ≡ as_tasks tasks.old.items ++ tasks_of acts.now) }
{
    for act in acts {
        push_act(act, tasks)?;
    }
    Ok(())
}

/// Adds each state's exit note and exit actions.
pub(crate) fn push_exits<'a>(
    chart: &'a Chart,
    path: &[u8],
    tasks: &mut Vec<CourseTask<'a>>,
) -> Result<(), AllocError>
    ensures { IfOk result (λ _. as_tasks tasks.new.items ≡ as_tasks tasks.old.items ++ exits chart.now path.now) }
{
    for s in path {
        push_task(CourseTask::Exit { state: *s }, tasks)?;
        push_acts(exit_acts(chart, *s), tasks)?;
    }
    Ok(())
}

/// Adds each state's entry note and entry actions.
pub(crate) fn push_entries<'a>(
    chart: &'a Chart,
    path: &[u8],
    tasks: &mut Vec<CourseTask<'a>>,
) -> Result<(), AllocError>
    ensures { IfOk result (λ _. as_tasks tasks.new.items ≡ as_tasks tasks.old.items ++ entries chart.now path.now) }
{
    for s in path {
        push_task(CourseTask::Enter { state: *s }, tasks)?;
        push_acts(entry_acts(chart, *s), tasks)?;
    }
    Ok(())
}
