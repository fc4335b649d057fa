//! What runs in a lane: its start, its turn, and how it passes a `settle`.

ghost use Rattle.std.specs.Prelude.{◌≡◌, ◌≤◌, true, []};
ghost use Rattle.qp_port_phases.specs.Passing.{PassesTo};
ghost use Rattle.qp_port_phases.specs.Stopping.{Hears};
ghost use Rattle.qp_model.specs.Sound.{IsSound};
ghost use Rattle.qp_model.specs.Limits.{budget_limit};
ghost use Rattle.qp_kernel_turns.specs.Lanes.{SameLane};
ghost use Rattle.qp_port_lanes.specs.Answers.{Feeds, turn_by};
ghost use Rattle.qp_port.specs.declared.job.Job.TheVariants as job;
ghost use Rattle.qp_port.specs.Jobs.{DoneBehindTurn, IsSameJob, JobBegins, JobPasses, JobRests, JobStands, JobStartsAlone, JobTurns, is_left_in, stands_at_settle};

use crate::beside::{Beside, again};
use crate::turns::Turns;
use qp_base::Tells;
use qp_calls::Ops;
use qp_dispatch::{Step, Turn};
use qp_model::System;
use qp_port_lanes::{Cursor, Home, Passed, pass_settle, source_turn};
use qp_port_phases::Serves;
use qp_told::Told;
use std::sync::Wait;

/// What runs in a lane.
#[derive(Drop)]
pub enum Job<'a> {
    /// Nothing: the lane of the starting thread.
    Nothing,
    /// An object.
    Home(Home),
    /// A source of stimuli.
    Source(Cursor<'a>),
}

/// Starts an object, the first that happens in its lane.
fn start_home<O: Ops>(ops: &mut O, sys: &System, home: &mut Home, budget: u32) -> Turn
    requires sound { IsSound sys.now }
    requires begins { JobBegins sys.now (job.Home home.old) (O.lane ops.old) }
    ensures stands { JobStands sys.now budget result (job.Home home.new) (O.lane ops.new) }
    ensures alone { JobStartsAlone result (job.Home home.new) (O.lane ops.new) }
    ensures same { home.new.me ≡ home.old.me }
    ensures lane { SameLane (O.lane ops.old) (O.lane ops.new) }
    ensures hears { Hears (O.lane ops.old) (O.lane ops.new) }
    ensures feeds { Feeds (O.lane ops.old) (O.lane ops.new) result }
{
    let _ = budget;
    match home.start(ops, sys) {
        Step::Done => Turn::Idle,
        Step::Stopped => Turn::Stopped,
        Step::Memory => Turn::Memory,
        Step::Point => unreachable!(),
    }
}

/// Starts what runs in the lane, if that has a start.
pub(crate) fn start_job<O: Ops>(ops: &mut O, sys: &System, job: &mut Job<'_>, budget: u32) -> Turn
    requires sound { IsSound sys.now }
    requires begins { JobBegins sys.now job.old (O.lane ops.old) }
    requires none { (O.lane ops.old).told ≡ [] }
    ensures stands { JobStands sys.now budget result job.new (O.lane ops.new) }
    ensures alone { JobStartsAlone result job.new (O.lane ops.new) }
    ensures same { IsSameJob job.old job.new }
    ensures lane { SameLane (O.lane ops.old) (O.lane ops.new) }
    ensures hears { Hears (O.lane ops.old) (O.lane ops.new) }
    ensures feeds { Feeds (O.lane ops.old) (O.lane ops.new) result }
{
    match job {
        Job::Home(home) => start_home(ops, sys, home, budget),
        Job::Nothing | Job::Source(_) => Turn::Idle,
    }
}

/// The turn of what runs in the lane with this number.
pub(crate) fn run_job<R: Wait, O: Ops, G: Tells, T: Turns<O>>(
    rt: &R,
    ops: &mut O,
    sys: &System,
    job: &mut Job<'_>,
    number: u32,
    budget: u32,
    gate: &G,
    turns: &T,
) -> Turn
    requires sound { IsSound sys.now }
    requires few { budget ≤ budget_limit }
    requires rests { JobRests sys.now budget job.old (O.lane ops.old) }
    ensures stands { JobStands sys.now budget result job.new (O.lane ops.new) }
    ensures same { IsSameJob job.old job.new }
    ensures lane { SameLane (O.lane ops.old) (O.lane ops.new) }
    ensures hears { Hears (O.lane ops.old) (O.lane ops.new) }
    ensures feeds { Feeds (O.lane ops.old) (O.lane ops.new) result }
    ensures turns { JobTurns sys.now budget job.old job.new (O.lane ops.old) (O.lane ops.new) result }
{
    let mut told = Told::new(gate);
    match job {
        Job::Nothing => Turn::Idle,
        Job::Home(home) => turns.object(rt, ops, sys, home, number, budget, &mut told),
        Job::Source(source) => source_turn(ops, sys, source, &mut told),
    }
}

/// What the lane does behind a turn with this answer, where a source runs in it.
pub(crate) fn end_turn<O: Ops, T: Turns<O>>(turns: &T, ops: &mut O, job: &Job<'_>, turn: &Turn)
    ensures over { DoneBehindTurn T.over job.now turn.now ops.old ops.new }
    ensures still { O.lane ops.new ≡ O.lane ops.old }
{
    match job {
        Job::Source(_) => turns.beside(ops, Beside::Over(again(turn))),
        Job::Nothing | Job::Home(_) => {}
    }
}

/// Passes the `settle` at which a source stands, or tries to.
pub(crate) fn pass_job<O: Ops>(ops: &mut O, sys: &System, job: &mut Job<'_>, budget: u32) -> Passed
    requires sound { IsSound sys.now }
    requires rests { JobRests sys.now budget job.old (O.lane ops.old) }
    requires stands { stands_at_settle job.old ≡ true }
    ensures passes { JobPasses sys.now budget result job.new (O.lane ops.new) }
    ensures tries { PassesTo (O.lane ops.old) (O.lane ops.new) result }
    ensures hands { (O.lane ops.new).hands ≡ (O.lane ops.old).hands }
    ensures same { IsSameJob job.old job.new }
    ensures lane { SameLane (O.lane ops.old) (O.lane ops.new) }
    ensures hears { Hears (O.lane ops.old) (O.lane ops.new) }
    ensures feeds { Feeds (O.lane ops.old) (O.lane ops.new) (turn_by result) }
{
    let _ = budget;
    match job {
        Job::Source(source) => pass_settle(ops, sys, source),
        Job::Nothing | Job::Home(_) => unreachable!(),
    }
}

impl Job<'_> {
    /// Whether it is a source that stands at a `settle`.
    pub fn stands_at_settle(&self) -> bool
        ensures { result ≡ stands_at_settle self.now }
    {
        match self {
            Job::Source(source) => source.at_settle(),
            Job::Nothing | Job::Home(_) => false,
        }
    }

    /// Whose entries it takes.
    pub(crate) fn serves(&self) -> Serves {
        match self {
            Job::Home(home) => Serves::One(home.priority()),
            Job::Nothing | Job::Source(_) => Serves::Nobody,
        }
    }

    /// Whether it is a source that has a stimulus left.
    pub fn is_left(&self) -> bool
        ensures { result ≡ is_left_in self.now }
    {
        match self {
            Job::Source(source) => source.left(),
            Job::Nothing | Job::Home(_) => false,
        }
    }
}
