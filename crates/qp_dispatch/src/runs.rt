//! Agendas, part after part.

ghost use Rattle.std.specs.Prelude.{◌≡◌};
ghost use Rattle.qp_dispatch.specs.Lasts.{moment_of_work};
ghost use Rattle.qp_dispatch.specs.Runs.{CanEnd, MayRun, PartOf, RunsTo, object_setting, tasks_in};

use crate::lasting::Lasting;
use crate::part::{Part, Under};
use crate::publication::go_on;
use crate::task::perform;
use crate::work::Work;
use qp_base::Steps;
use qp_calls::{Ops, RoomFault};
use qp_chart::Chart;
use qp_chart_compiled::{Agenda, Compiled};
use qp_model::System;
use std::sync::ledger::Ledger;

/// Where an object runs: its system, its chart, the chart compiled, and its priority.
#[derive(Clone, Copy)]
pub(crate) struct Home<'a> {
    pub(crate) sys: &'a System,
    pub(crate) chart: &'a Chart,
    pub(crate) compiled: &'a Compiled,
    pub(crate) me: u8,
}

/// What is left of a start or a step: its tasks, and the publication that its action makes, if one is under way.
#[derive(Drop)]
pub(crate) struct Left {
    pub(crate) agenda: Agenda,
    pub(crate) under: Option<Under>,
}

/// How far a run came.
#[derive(Drop)]
pub(crate) enum Ran {
    /// To a scheduling point.
    Point,
    /// To the end of the agenda.
    Over,
    /// To this assertion.
    Asserted(u8),
    /// There was no room, or no memory, for more records.
    Cut(RoomFault),
}

/// Does one part of what is left. None where nothing is.
fn part<O: Ops, L: Ledger>(
    ops: &mut O,
    home: &Home<'_>,
    lasting: &mut Lasting,
    left: &mut Left,
    work: &Work,
    ceiling: &mut u8,
    steps: &mut Steps<L>,
) -> Option<Part>
    requires { MayRun (object_setting home.now) work.now.entry lasting.old left.old.under (tasks_in (object_setting home.now) left.old) ceiling.old
        (O.lane ops.old) }
    ensures { PartOf (object_setting home.now) work.now ceiling.old ceiling.new lasting.old left.old lasting.new left.new
        (O.lane ops.old) (O.lane ops.new) result }
{
    if let Some(from) = left.under.take() {
        return Some(go_on(ops, home.me, lasting, from, &mut left.under, ceiling, steps));
    }
    let task = home.compiled.next(home.chart, &left.agenda)?;
    home.compiled.advance(&mut left.agenda);
    Some(perform(
        ops,
        home.sys,
        home.me,
        lasting,
        &mut left.under,
        work,
        task,
        ceiling,
        steps,
    ))
}

/// Does what is left, up to the next scheduling point if `stops`, or to the end of the agenda.
pub(crate) fn run<O: Ops, L: Ledger>(
    ops: &mut O,
    home: &Home<'_>,
    lasting: &mut Lasting,
    left: &mut Left,
    work: &Work,
    stops: bool,
    ceiling: &mut u8,
    steps: &mut Steps<L>,
) -> Ran
    requires may { MayRun (object_setting home.now) work.now.entry lasting.old left.old.under (tasks_in (object_setting home.now) left.old)
        ceiling.old (O.lane ops.old) }
    requires can { CanEnd (object_setting home.now) (moment_of_work work.now) lasting.old (tasks_in (object_setting home.now) left.old) }
    ensures { RunsTo stops (object_setting home.now) (moment_of_work work.now) ceiling.old ceiling.new lasting.old left.old lasting.new left.new
        (O.lane ops.old) (O.lane ops.new) result }
{
    loop {
        match part(ops, home, lasting, left, work, ceiling, steps) {
            None => return Ran::Over,
            Some(Part::Asserted(code)) => return Ran::Asserted(code),
            Some(Part::Cut(fault)) => return Ran::Cut(fault),
            Some(Part::On) => {}
            Some(Part::Point) => {
                if stops {
                    return Ran::Point;
                }
            }
        }
    }
}
