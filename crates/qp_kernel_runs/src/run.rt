//! A run of a system on its stimuli, on one thread, under the preemptive or the cooperative kernel.

ghost use Rattle.std.specs.Prelude.{◌≡◌, ◌<◌, ◌≤◌, ◌==◌, IfOk, length, true};
ghost use Rattle.std.specs.List.{list_all};
ghost use Rattle.qp_model.specs.End.{end_of};
ghost use Rattle.qp_model.specs.Ends.{ends_last};
ghost use Rattle.qp_model.specs.History.{all_items, lane_items};
ghost use Rattle.qp_model.specs.Sound.{IsSound};
ghost use Rattle.qp_model.specs.Limits.{budget_limit};
ghost use Rattle.qp_stim.specs.Rules.{StimuliFit};
ghost use Rattle.qp_kernel.specs.Turning.{kernel_in, under};
ghost use Rattle.qp_kernel_runs.specs.SimView.{sim_view};
ghost use Rattle.qp_kernel_end.specs.Rests.{AreRestsIn};
ghost use Rattle.qp_kernel_runs.specs.Resting.{ObjectsShow, RestsAfter};
ghost use Rattle.qp_kernel_runs.specs.Running.{IsClosed, MayRunKernel, KernelRunsTo};
ghost use Rattle.qp_kernel_runs.specs.SimRun.{IsQvRun, IsRunOf, IsSimRun};

use crate::rests::rests;
use crate::world::SimWorld;
use qp_base::{Memory, NoGate};
use qp_dispatch::{Step, Turn};
use qp_kernel::Kernel;
use qp_kernel_end::{Outcome, Rest, outcome_of};
use qp_kernel_turns::{Bounds, Objects, kernel_turn};
use qp_model::{Journal, Lanes, Stimuli, System, kernels};
use qp_plain::PlainWorld;
use qp_told::Told;
use qp_vanilla::{Vanilla, vanilla_turn};
use std::alloc::Global;
use std::sync::Wait;

/// What a run leaves: its journal, and where its objects rest.
#[derive(Drop)]
pub struct Simulated {
    pub journal: Journal,
    /// An object whose start or step was under way is not among them, nor is any where no memory was found for them.
    pub rests: Vec<Rest>,
}

/// How a run came to its end, and where its objects rest.
#[derive(Drop)]
struct Ended {
    turn: Turn,
    rests: Vec<Rest>,
}

/// The kernel's number.
fn kernel_number(cooperative: bool) -> u8
    ensures { result ≡ kernel_in (under cooperative 1) }
{
    if cooperative {
        kernels::QV
    } else {
        kernels::SIM
    }
}

/// The end of a turn that left these steps under way.
fn end_of_turn(
    alloc: Global,
    sys: &System,
    objects: &Objects,
    under_way: &[u8],
    turn: Turn,
) -> Ended
    ensures turn { result.turn ≡ turn }
    ensures rests { ObjectsShow objects.now under_way.now result.rests.items }
{
    let rests = match rests(alloc, sys, objects, under_way) {
        Ok(rests) => rests,
        Err(_) => Vec::new(alloc),
    };
    Ended { turn, rests }
}

/// Starts all objects, and lets the kernel take its turn.
fn run<R: Wait>(
    rt: &R,
    alloc: Global,
    world: &mut SimWorld<'_>,
    sys: &System,
    objects: &mut Objects,
    budget: u32,
    cooperative: bool,
) -> Ended
    requires sound { IsSound sys.now }
    requires few { budget ≤ budget_limit }
    requires may { MayRunKernel sys.now objects.old (sim_view world.old) }
    ensures goes { KernelRunsTo sys.now (under cooperative budget) (sim_view world.old) (sim_view world.new) result.turn }
    ensures rests { RestsAfter sys.now (sim_view world.new).told result.turn result.rests.items }
{
    match objects.start(world, sys) {
        Step::Done => {
            let mut told = Told::new(&NoGate);
            if cooperative {
                let mut vanilla = Vanilla::new();
                let turn = vanilla_turn(rt, world, sys, objects, &mut vanilla, budget, &mut told);
                end_of_turn(alloc, sys, objects, vanilla.under_way(), turn)
            } else {
                let mut kernel = Kernel::new();
                let at = Bounds {
                    sys,
                    budget,
                    cooperative: false,
                    threaded: false,
                };
                let turn = kernel_turn(rt, world, &at, objects, &mut kernel, &mut told);
                end_of_turn(alloc, sys, objects, kernel.stack.as_slice(), turn)
            }
        }
        // (nothing is told of objects where a start stopped the run)
        Step::Stopped => Ended {
            turn: Turn::Stopped,
            rests: Vec::new(alloc),
        },
        Step::Point | Step::Memory => Ended {
            turn: Turn::Memory,
            rests: Vec::new(alloc),
        },
    }
}

/// The journal of lanes that were left, with the end that their records state.
fn closed(lanes: Lanes, budget: u32, cooperative: bool) -> Journal
    requires few { length lanes ≤ 49 }
    requires last { list_all (λ lane. ends_last (lane_items lane)) lanes ≡ true }
    ensures { IsClosed lanes (under cooperative budget) result }
{
    let mut journal = Journal {
        kernel: kernel_number(cooperative),
        budget,
        lanes,
        end: 0,
    };
    journal.end = match outcome_of(&journal) {
        Outcome::Quiet => 0,
        Outcome::Asserted { .. } => 3,
        Outcome::Spent { .. } => 4,
    };
    journal
}

/// Runs the system on its stimuli under one of the two kernels.
fn simulate<R: Wait>(
    rt: &R,
    alloc: Global,
    sys: &System,
    stim: &Stimuli,
    budget: u32,
    cooperative: bool,
) -> Result<Simulated, Memory>
    requires sound { IsSound sys.now }
    requires fit { StimuliFit sys.now stim.now }
    requires few { budget ≤ budget_limit }
    ensures run { IfOk result (λ run. IsRunOf sys.now stim.now (under cooperative budget) run.journal) }
    ensures rests { IfOk result (λ run. AreRestsIn sys.now run.journal run.rests.items) }
{
    let plain = PlainWorld::new(alloc, sys, stim.sources.len() as u32 + 1)?;
    let mut world = SimWorld::new(alloc, plain, stim)?;
    let mut objects = Objects::new(alloc, sys)?;
    let Ended { turn, rests } = run(
        rt,
        alloc,
        &mut world,
        sys,
        &mut objects,
        budget,
        cooperative,
    );
    match turn {
        Turn::Idle => {
            let journal = Journal {
                kernel: kernel_number(cooperative),
                budget,
                lanes: world.finish(),
                end: 0,
            };
            Ok(Simulated { journal, rests })
        }
        Turn::Stopped => {
            let journal = closed(world.finish(), budget, cooperative);
            // (a stop without a record is that of memory)
            if journal.end == 0 {
                Err(Memory)
            } else {
                Ok(Simulated { journal, rests })
            }
        }
        Turn::Memory => Err(Memory),
    }
}

/// Runs the system on its stimuli under the preemptive kernel: lane 0 is the kernel, lane `i` is source `i`. No object takes
/// more events than the budget. What is left is a lawful journal of `sim`; want of memory alone leaves none.
pub fn run_sim<R: Wait>(
    rt: &R,
    alloc: Global,
    sys: &System,
    stim: &Stimuli,
    budget: u32,
) -> Result<Journal, Memory>
    requires sound { IsSound sys.now }
    requires fit { StimuliFit sys.now stim.now }
    requires some { 0 < budget }
    requires few { budget ≤ budget_limit }
    ensures { IfOk result (λ j. IsSimRun sys.now stim.now budget j) }
{
    Ok(sim_with_rests(rt, alloc, sys, stim, budget)?.journal)
}

/// The same under the cooperative kernel: what is left is a lawful journal of `qv`, in which no step begins within another, and
/// the kernel rests only where every queue is empty.
pub fn run_qv<R: Wait>(
    rt: &R,
    alloc: Global,
    sys: &System,
    stim: &Stimuli,
    budget: u32,
) -> Result<Journal, Memory>
    requires sound { IsSound sys.now }
    requires fit { StimuliFit sys.now stim.now }
    requires some { 0 < budget }
    requires few { budget ≤ budget_limit }
    ensures { IfOk result (λ j. IsQvRun sys.now stim.now budget j) }
{
    Ok(qv_with_rests(rt, alloc, sys, stim, budget)?.journal)
}

/// The run of `run_sim`, and where the objects of its journal rest.
pub fn sim_with_rests<R: Wait>(
    rt: &R,
    alloc: Global,
    sys: &System,
    stim: &Stimuli,
    budget: u32,
) -> Result<Simulated, Memory>
    requires sound { IsSound sys.now }
    requires fit { StimuliFit sys.now stim.now }
    requires some { 0 < budget }
    requires few { budget ≤ budget_limit }
    ensures run { IfOk result (λ run. IsSimRun sys.now stim.now budget run.journal) }
    ensures rests { IfOk result (λ run. AreRestsIn sys.now run.journal run.rests.items) }
{
    simulate(rt, alloc, sys, stim, budget, false)
}

/// The run of `run_qv`, and where the objects of its journal rest.
pub fn qv_with_rests<R: Wait>(
    rt: &R,
    alloc: Global,
    sys: &System,
    stim: &Stimuli,
    budget: u32,
) -> Result<Simulated, Memory>
    requires sound { IsSound sys.now }
    requires fit { StimuliFit sys.now stim.now }
    requires some { 0 < budget }
    requires few { budget ≤ budget_limit }
    ensures run { IfOk result (λ run. IsQvRun sys.now stim.now budget run.journal) }
    ensures rests { IfOk result (λ run. AreRestsIn sys.now run.journal run.rests.items) }
{
    simulate(rt, alloc, sys, stim, budget, true)
}
