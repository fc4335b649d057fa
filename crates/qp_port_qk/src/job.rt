//! What runs in a lane: its turn, and how it passes a `settle`.

ghost use Rattle.std.specs.Prelude.{◌≡◌, ◌≤◌, true, false, []};
ghost use Rattle.qp_dispatch.specs.declared.objects.Turn.TheVariants as turn;
ghost use Rattle.qp_port_qk.specs.declared.job.QkJob.TheVariants as job;
ghost use Rattle.qp_model.specs.Sound.{IsSound};
ghost use Rattle.qp_model.specs.Limits.{budget_limit};
ghost use Rattle.qp_kernel_turns.specs.Lanes.{SameLane};
ghost use Rattle.qp_port_phases.specs.Passing.{PassesTo};
ghost use Rattle.qp_port_phases.specs.Rows.{CountsOn, PassCounts};
ghost use Rattle.qp_port_phases.specs.Stopping.{Hears};
ghost use Rattle.qp_port_lanes.specs.Answers.{Feeds, is_short, turn_by};
ghost use Rattle.qp_port_qk.specs.Jobs.{IsSameQkJob, QkJobBegins, QkJobRests, QkJobStands, JobStarts, QkJobStartsAlone, QkJobTurns, KernelStands, KernelTurns, qk_is_left_in, is_source, qk_stands_at_settle};
ghost use Rattle.qp_port_qk.specs.KernelRests.{KernelBegins, KernelRests};
ghost use Rattle.qp_port_qk.specs.Numbers.{job_rows, numbers_of};

use qp_base::Tells;
use qp_calls::Ops;
use qp_dispatch::{Step, Turn};
use qp_kernel::{Kernel, World};
use qp_kernel_turns::{Bounds, Objects, kernel_turn};
use qp_model::System;
use qp_port_lanes::{Cursor, Passed, pass_settle, source_turn};
use qp_told::Told;
use std::sync::Wait;

/// What runs in a lane.
#[derive(Drop)]
pub enum QkJob<'a> {
    /// The kernel with all objects: lane 0.
    Kernel(Objects, Kernel),
    /// A source of stimuli.
    Source(Cursor<'a>),
}

/// Starts all objects, in a lane in which nothing has happened.
fn start_kernel<O: Ops>(
    ops: &mut O,
    sys: &System,
    objects: &mut Objects,
    kernel: &Kernel,
    budget: u32,
) -> Turn
    requires sound { IsSound sys.now }
    requires begins { KernelBegins sys.now objects.old kernel.now (O.lane ops.old) }
    ensures starts { JobStarts sys.now budget result (job.Kernel objects.new kernel.now) (O.lane ops.new) }
    ensures alone { QkJobStartsAlone sys.now result (job.Kernel objects.new kernel.now) (O.lane ops.new) }
    ensures lane { SameLane (O.lane ops.old) (O.lane ops.new) }
    ensures hears { Hears (O.lane ops.old) (O.lane ops.new) }
    ensures feeds { Feeds (O.lane ops.old) (O.lane ops.new) result }
    ensures none { is_short result ≡ false → job_rows sys.now budget (job.Kernel objects.new kernel.now) (O.lane ops.new) ≡ 0 }
{
    let _ = budget;
    let _ = kernel;
    match objects.start(ops, sys) {
        Step::Done => Turn::Idle,
        Step::Stopped => Turn::Stopped,
        Step::Memory => Turn::Memory,
        Step::Point => unreachable!(),
    }
}

/// Starts what runs in the lane, if that has a start.
pub(crate) fn start_job<O: Ops>(ops: &mut O, sys: &System, job: &mut QkJob<'_>, budget: u32) -> Turn
    requires sound { IsSound sys.now }
    requires begins { QkJobBegins sys.now job.old (O.lane ops.old) }
    requires none { (O.lane ops.old).told ≡ [] }
    ensures starts { JobStarts sys.now budget result job.new (O.lane ops.new) }
    ensures alone { QkJobStartsAlone sys.now result job.new (O.lane ops.new) }
    ensures same { IsSameQkJob job.old job.new }
    ensures lane { SameLane (O.lane ops.old) (O.lane ops.new) }
    ensures hears { Hears (O.lane ops.old) (O.lane ops.new) }
    ensures feeds { Feeds (O.lane ops.old) (O.lane ops.new) result }
    ensures none { is_short result ≡ false → job_rows sys.now budget job.new (O.lane ops.new) ≡ 0 }
{
    match job {
        QkJob::Kernel(objects, kernel) => start_kernel(ops, sys, objects, kernel, budget),
        QkJob::Source(_) => Turn::Idle,
    }
}

/// A turn of the kernel, in a world in whose looks nothing happens.
fn run_kernel<R: Wait, W: World, G: Tells>(
    rt: &R,
    world: &mut W,
    sys: &System,
    objects: &mut Objects,
    kernel: &mut Kernel,
    budget: u32,
    gate: &G,
) -> Turn
    requires sound { IsSound sys.now }
    requires few { budget ≤ budget_limit }
    requires alone { W.acts ≡ false }
    requires rests { KernelRests sys.now budget objects.old kernel.old (W.lane world.old) }
    ensures stands { KernelStands sys.now budget result objects.new kernel.new (W.lane world.new) }
    ensures turns { KernelTurns W.acts sys.now budget objects.old kernel.old (W.lane world.old) objects.new kernel.new (W.lane world.new) result }
    ensures lane { SameLane (W.lane world.old) (W.lane world.new) }
    ensures hears { Hears (W.lane world.old) (W.lane world.new) }
    ensures feeds { Feeds (W.lane world.old) (W.lane world.new) result }
    ensures counts { CountsOn (W.lane world.old) (numbers_of sys.now budget turn.Idle (job.Kernel objects.old kernel.old) (W.lane world.old))
        (numbers_of sys.now budget result (job.Kernel objects.new kernel.new) (W.lane world.new)) }
{
    let at = Bounds {
        sys,
        budget,
        cooperative: false,
        threaded: true,
    };
    let mut told = Told::new(gate);
    kernel_turn(rt, world, &at, objects, kernel, &mut told)
}

/// A turn of what runs in the lane.
pub(crate) fn run_job<R: Wait, W: World, G: Tells>(
    rt: &R,
    world: &mut W,
    sys: &System,
    job: &mut QkJob<'_>,
    budget: u32,
    gate: &G,
) -> Turn
    requires sound { IsSound sys.now }
    requires few { budget ≤ budget_limit }
    requires alone { W.acts ≡ false }
    requires rests { QkJobRests sys.now budget job.old (W.lane world.old) }
    ensures stands { QkJobStands sys.now budget result job.new (W.lane world.new) }
    ensures turns { QkJobTurns W.acts sys.now budget job.old job.new (W.lane world.old) (W.lane world.new) result }
    ensures same { IsSameQkJob job.old job.new }
    ensures lane { SameLane (W.lane world.old) (W.lane world.new) }
    ensures hears { Hears (W.lane world.old) (W.lane world.new) }
    ensures feeds { Feeds (W.lane world.old) (W.lane world.new) result }
    ensures counts { CountsOn (W.lane world.old) (numbers_of sys.now budget turn.Idle job.old (W.lane world.old)) (numbers_of sys.now budget result job.new (W.lane world.new)) }
{
    match job {
        QkJob::Kernel(objects, kernel) => run_kernel(rt, world, sys, objects, kernel, budget, gate),
        QkJob::Source(source) => {
            let mut told = Told::new(gate);
            source_turn(world, sys, source, &mut told)
        }
    }
}

/// Passes the `settle` at which a source stands, or tries to.
pub(crate) fn pass_job<O: Ops>(
    ops: &mut O,
    sys: &System,
    job: &mut QkJob<'_>,
    budget: u32,
) -> Passed
    requires sound { IsSound sys.now }
    requires rests { QkJobRests sys.now budget job.old (O.lane ops.old) }
    requires stands { qk_stands_at_settle job.old ≡ true }
    ensures stands { QkJobStands sys.now budget (turn_by result) job.new (O.lane ops.new) }
    ensures same { IsSameQkJob job.old job.new }
    ensures lane { SameLane (O.lane ops.old) (O.lane ops.new) }
    ensures hears { Hears (O.lane ops.old) (O.lane ops.new) }
    ensures feeds { Feeds (O.lane ops.old) (O.lane ops.new) (turn_by result) }
    ensures tries { PassesTo (O.lane ops.old) (O.lane ops.new) result }
    ensures hands { (O.lane ops.new).hands ≡ (O.lane ops.old).hands }
    ensures counts { PassCounts (numbers_of sys.now budget turn.Idle job.old (O.lane ops.old)) (numbers_of sys.now budget (turn_by result) job.new (O.lane ops.new)) result }
{
    let _ = budget;
    match job {
        QkJob::Source(source) => pass_settle(ops, sys, source),
        QkJob::Kernel(_, _) => unreachable!(),
    }
}

impl QkJob<'_> {
    /// Whether it is a source that stands at a `settle`.
    pub fn stands_at_settle(&self) -> bool
        ensures { result ≡ qk_stands_at_settle self.now }
    {
        match self {
            QkJob::Source(source) => source.at_settle(),
            QkJob::Kernel(_, _) => false,
        }
    }

    /// Whether it is a source.
    pub(crate) fn is_source(&self) -> bool
        ensures { result ≡ is_source self.now }
    {
        match self {
            QkJob::Source(_) => true,
            QkJob::Kernel(_, _) => false,
        }
    }

    /// Whether it is a source that has a stimulus left.
    pub fn is_left(&self) -> bool
        ensures { result ≡ qk_is_left_in self.now }
    {
        match self {
            QkJob::Source(source) => source.left(),
            QkJob::Kernel(_, _) => false,
        }
    }
}
