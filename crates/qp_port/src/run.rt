//! The run over given lanes: starts, phases, and what is left.

ghost use Rattle.std.specs.Prelude.{◌≡◌, ◌≤◌, ◌⊎◌, IfOk, OnOk, length, map, true, false};
ghost use Rattle.std.specs.List.{AllByRecursion, list_all, list_any};
ghost use Rattle.qp_model.specs.Sound.{IsSound};
ghost use Rattle.qp_model.specs.Limits.{budget_limit};
ghost use Rattle.qp_stim.specs.Rules.{StimuliFit};
ghost use Rattle.qp_port_phases.specs.declared.phases.PhasesEnd.TheVariants as ended;
ghost use Rattle.qp_port_phases.specs.Stopping.{AnyStopped};
ghost use Rattle.qp_port.specs.Ends.{HasRun};
ghost use Rattle.qp_port_lanes.specs.Answers.{IsFed, is_idle, is_short};
ghost use Rattle.qp_port.specs.Resting.{AreShown};
ghost use Rattle.qp_port.specs.Rows.{AreNewLanes};
ghost use Rattle.qp_port_lanes.specs.Workers.{AreSameLanes};

use crate::making::{Terms, new_workers};
use crate::rests::rests;
use crate::starting::{Over, run_workers};
use crate::turns::{PortTurns, Turns};
use crate::worker::PortWorker;
use qp_base::{Gate, Memory};
use qp_calls_log::Meets;
use qp_kernel_end::Rest;
use qp_model::{Stimuli, System};
use qp_port_phases::{PhasesEnd, Rounds, objects_of};
use std::alloc::Global;
use std::sync::Wait;
use std::thread::Threads;

/// What a run leaves: its lanes, in their order, where its objects rest, and whether nothing was left to be done.
#[derive(Drop)]
pub struct PortRun<O> {
    pub lanes: Vec<O>,
    /// An object whose start or step was under way is not among them.
    pub rests: Vec<Rest>,
    pub done: bool,
}

/// Whether all workers rest.
fn all_idle<O: Meets, G: Gate, T: Turns<O>>(workers: &[PortWorker<'_, O, G, T>]) -> bool
    ensures { result ≡ list_all (λ w. is_idle w.turn) workers.now }
{
    workers.iter().all(|worker| worker.is_idle())
}

/// Whether one ended for want of memory.
fn any_short<O: Meets, G: Gate, T: Turns<O>>(workers: &[PortWorker<'_, O, G, T>]) -> bool
    ensures { result ≡ list_any (λ w. is_short w.turn) workers.now }
{
    workers.iter().any(|worker| worker.is_short())
}

/// The lanes of these workers.
fn lanes_of<O: Meets + Drop, G: Gate, T: Turns<O>>(
    alloc: Global,
    workers: Vec<PortWorker<'_, O, G, T>>,
) -> Result<Vec<O>, Memory>
    ensures { IfOk result (λ lanes. lanes.items ≡ map (λ w. w.lane) workers.entry.items) }
{
    let mut lanes = Vec::new(alloc);
    for worker in workers {
        let PortWorker {
            lane,
            job: _,
            turn: _,
            number: _,
            sys: _,
            budget: _,
            gate: _,
            turns: _,
        } = worker;
        let Ok(()) = lanes.push(lane) else {
            return Err(Memory);
        };
    }
    Ok(lanes)
}

/// What is left of workers whose run is over. For want of memory a lane may have been cut anywhere.
fn left_of<O: Meets + Drop, G: Gate, T: Turns<O>>(
    alloc: Global,
    over: Over<PortWorker<'_, O, G, T>>,
) -> Result<PortRun<O>, Memory>
    ensures lanes { IfOk result (λ run. run.lanes.items ≡ map (λ w. w.lane) over.entry.workers.items) }
    ensures rests { IfOk result (λ run. AreShown (λ w. w.job) over.entry.workers.items run.rests.items) }
    ensures short { OnOk result (list_any (λ w. is_short w.turn) over.entry.workers.items ≡ false) }
    ensures idle { IfOk result (λ run. run.done ≡ true → (over.entry.how ≡ ended.Idle) × (list_all (λ w. is_idle w.turn) over.entry.workers.items ≡ true)) }
    ensures cause { IfOk result (λ run. run.done ≡ false → (over.entry.how ≡ ended.Stopped) ⊎ (list_all (λ w. is_idle w.turn) over.entry.workers.items ≡ false)) }
{
    let Over { workers, how } = over;
    let is_over = match how {
        PhasesEnd::Idle => true,
        PhasesEnd::Stopped => false,
        PhasesEnd::Memory => return Err(Memory),
    };
    if any_short(&workers) {
        return Err(Memory);
    }
    let done = is_over && all_idle(&workers);
    let Ok(rests) = rests(alloc, &workers) else {
        return Err(Memory);
    };
    let lanes = lanes_of(alloc, workers)?;
    Ok(PortRun { lanes, rests, done })
}

/// Runs the system on its stimuli over these lanes, which are new: the first stays empty, each object has one, by ascending priority,
/// and so has each source. They take their turns by these rounds, objects as the terms say, and no object takes more events than the budget.
/// Want of memory alone leaves nothing, and what is left no lane has cut for it. Something is left to be
/// done only where a lane has stopped.
pub fn run_lanes_of<R: Threads + Wait + Sync, O: Meets + Send + Drop, G: Gate, T: Turns<O> + Sync>(
    rt: &R,
    alloc: Global,
    at: &Terms<'_, G, T>,
    rounds: &Rounds,
    lanes: Vec<O>,
) -> Result<PortRun<O>, Memory>
    requires sound { IsSound at.now.sys.now }
    requires fit { StimuliFit at.now.sys.now at.now.stim.now }
    requires few { at.now.budget ≤ budget_limit }
    requires sources { rounds.now.sources ≡ length at.now.stim.now }
    requires lanes { AreNewLanes at.now.sys.now at.now.stim.now (map O.lane lanes.items) }
    ensures lanes { IfOk result (λ run. AreSameLanes (map O.lane lanes.items) (map O.lane run.lanes.items)) }
    ensures run { IfOk result (λ run. HasRun at.now.sys.now at.now.stim.now at.now.budget run.done run.rests.items (map O.lane run.lanes.items)) }
    ensures cause { IfOk result (λ run. run.done ≡ false → AnyStopped (map O.lane run.lanes.items)) }
    ensures fed { IfOk result (λ run. AllByRecursion IsFed (map O.lane run.lanes.items)) }
{
    let Ok(objects) = objects_of(alloc, at.sys) else {
        return Err(Memory);
    };
    let workers = new_workers(alloc, at, lanes)?;
    let over = run_workers(rt, objects.as_slice(), workers, rounds);
    left_of(alloc, over)
}

/// The same with turns of the port, which end where the queue is found empty.
pub fn run_lanes_of_port<R: Threads + Wait + Sync, O: Meets + Send + Drop, G: Gate>(
    rt: &R,
    alloc: Global,
    sys: &System,
    stim: &Stimuli,
    budget: u32,
    gate: &G,
    lanes: Vec<O>,
) -> Result<PortRun<O>, Memory>
    requires sound { IsSound sys.now }
    requires fit { StimuliFit sys.now stim.now }
    requires few { budget ≤ budget_limit }
    requires lanes { AreNewLanes sys.now stim.now (map O.lane lanes.items) }
    ensures lanes { IfOk result (λ run. AreSameLanes (map O.lane lanes.items) (map O.lane run.lanes.items)) }
    ensures run { IfOk result (λ run. HasRun sys.now stim.now budget run.done run.rests.items (map O.lane run.lanes.items)) }
    ensures cause { IfOk result (λ run. run.done ≡ false → AnyStopped (map O.lane run.lanes.items)) }
    ensures fed { IfOk result (λ run. AllByRecursion IsFed (map O.lane run.lanes.items)) }
{
    let at = Terms {
        sys,
        stim,
        budget,
        gate,
        turns: &PortTurns,
    };
    let sources = stim.sources.len() as u32;
    let Ok(rounds) = Rounds::new(alloc, lanes.len(), sources, false) else {
        return Err(Memory);
    };
    run_lanes_of(rt, alloc, &at, &rounds, lanes)
}
