//! The run over given lanes: the start of all objects, phases, and what is left.

ghost use Rattle.std.specs.Prelude.{◌≡◌, ◌≤◌, ◌⊎◌, IfOk, OnOk, Some, map, true, false};
ghost use Rattle.std.specs.List.{AllByRecursion, list_all, list_any};
ghost use Rattle.qp_model.specs.Sound.{IsSound};
ghost use Rattle.qp_model.specs.Limits.{budget_limit};
ghost use Rattle.qp_stim.specs.Rules.{StimuliFit};
ghost use Rattle.qp_port_phases.specs.declared.phases.PhasesEnd.TheVariants as ended;
ghost use Rattle.qp_port_phases.specs.Stopping.{AnyStopped};
ghost use Rattle.qp_port_qk.specs.Ends.{HasQkRun, has_ended_idle};
ghost use Rattle.qp_port_lanes.specs.Answers.{IsFed, is_idle, is_short};
ghost use Rattle.qp_port_qk.specs.Resting.{AreLeft, AreShownFirst};
ghost use Rattle.qp_port_qk.specs.Rows.{AreNewQkLanes};
ghost use Rattle.qp_port_lanes.specs.Workers.{AreSameLanes};

use crate::making::{QkTerms, new_workers};
use crate::rests::rests;
use crate::starting::start_and_run;
use crate::worker::QkWorker;
use qp_base::{Gate, Memory};
use qp_calls_log::Meets;
use qp_kernel::World;
use qp_kernel_end::Rest;
use qp_model::{Stimuli, System};
use qp_port_phases::{PhasesEnd, Rounds, objects_of};
use std::alloc::{AllocError, Global};
use std::sync::Wait;
use std::thread::Threads;

/// What a run leaves: its lanes, in their order, where its objects rest, and whether nothing was left to be done.
#[derive(Drop)]
pub struct QkRun<W> {
    pub lanes: Vec<W>,
    /// An object whose step was under way is not among them, and none where a start broke off.
    pub rests: Vec<Rest>,
    pub done: bool,
}

/// Whether all workers rest.
fn all_idle<W: World + Meets, G: Gate>(workers: &[QkWorker<'_, W, G>]) -> bool
    ensures { result ≡ list_all (λ w. is_idle w.turn) workers.now }
{
    workers.iter().all(|worker| worker.is_idle())
}

/// Whether one ended for want of memory.
fn any_short<W: World + Meets, G: Gate>(workers: &[QkWorker<'_, W, G>]) -> bool
    ensures { result ≡ list_any (λ w. is_short w.turn) workers.now }
{
    workers.iter().any(|worker| worker.is_short())
}

/// The lanes of these workers.
fn lanes_of<W: World + Meets + Drop, G: Gate>(
    alloc: Global,
    workers: Vec<QkWorker<'_, W, G>>,
) -> Result<Vec<W>, AllocError>
    ensures { IfOk result (λ lanes. lanes.items ≡ map (λ w. w.lane) workers.entry.items) }
{
    let mut lanes = Vec::new(alloc);
    for worker in workers {
        let QkWorker {
            lane,
            job: _,
            turn: _,
            sys: _,
            budget: _,
            gate: _,
        } = worker;
        let Ok(()) = lanes.push(lane) else {
            return Err(AllocError);
        };
    }
    Ok(lanes)
}

/// Where the objects of the first worker rest.
fn first_rests<W: World + Meets, G: Gate>(
    alloc: Global,
    sys: &System,
    workers: &[QkWorker<'_, W, G>],
) -> Result<Vec<Rest>, AllocError>
    ensures { IfOk result (λ rests. AreShownFirst (λ w. w.job) workers.now rests.items) }
{
    match workers.first() {
        Some(worker) => rests(alloc, sys, &worker.job),
        None => Ok(Vec::new(alloc)),
    }
}

/// What is left of workers whose run ended so.
fn left_of<W: World + Meets + Drop, G: Gate>(
    alloc: Global,
    sys: &System,
    workers: Vec<QkWorker<'_, W, G>>,
    how: Option<PhasesEnd>,
) -> Result<QkRun<W>, Memory>
    ensures lanes { IfOk result (λ run. run.lanes.items ≡ map (λ w. w.lane) workers.entry.items) }
    ensures rests { IfOk result (λ run. AreLeft (λ w. w.job) how workers.entry.items run.rests.items) }
    ensures short { OnOk result (list_any (λ w. is_short w.turn) workers.entry.items ≡ false) }
    ensures idle { IfOk result (λ run. run.done ≡ true → (how ≡ Some ended.Idle) × (list_all (λ w. is_idle w.turn) workers.entry.items ≡ true)) }
    ensures cause { IfOk result (λ run. run.done ≡ false → (has_ended_idle how ≡ false) ⊎ (list_all (λ w. is_idle w.turn) workers.entry.items ≡ false)) }
{
    if any_short(&workers) {
        return Err(Memory);
    }
    let done = matches!(how, Some(PhasesEnd::Idle)) && all_idle(&workers);
    let Ok(rests) = rests_left(alloc, sys, how, &workers) else {
        return Err(Memory);
    };
    match lanes_of(alloc, workers) {
        Ok(lanes) => Ok(QkRun { lanes, rests, done }),
        Err(_) => Err(Memory),
    }
}

/// Where objects rest; none where a start broke off.
fn rests_left<W: World + Meets, G: Gate>(
    alloc: Global,
    sys: &System,
    how: Option<PhasesEnd>,
    workers: &[QkWorker<'_, W, G>],
) -> Result<Vec<Rest>, AllocError>
    ensures { IfOk result (λ rests. AreLeft (λ w. w.job) how workers.now rests.items) }
{
    match how {
        Some(_) => first_rests(alloc, sys, workers),
        None => Ok(Vec::new(alloc)),
    }
}

/// Runs the system on its stimuli over these lanes, which are new, in a world in whose looks nothing happens: the first serves all
/// objects, and each source has one of the others. No object takes more events than the budget. Want of memory alone leaves
/// nothing, and what is left no lane has cut for it. Something is left to be done only where a lane has stopped.
pub fn run_lanes_of_qk<R: Threads + Wait + Sync, W: World + Meets + Send + Drop, G: Gate>(
    rt: &R,
    alloc: Global,
    sys: &System,
    stim: &Stimuli,
    budget: u32,
    gate: &G,
    lanes: Vec<W>,
) -> Result<QkRun<W>, Memory>
    requires alone { W.acts ≡ false }
    requires sound { IsSound sys.now }
    requires fit { StimuliFit sys.now stim.now }
    requires few { budget ≤ budget_limit }
    requires lanes { AreNewQkLanes sys.now stim.now (map W.lane lanes.items) }
    ensures lanes { IfOk result (λ run. AreSameLanes (map W.lane lanes.items) (map W.lane run.lanes.items)) }
    ensures run { IfOk result (λ run. HasQkRun sys.now stim.now budget run.done run.rests.items (map W.lane run.lanes.items)) }
    ensures cause { IfOk result (λ run. run.done ≡ false → AnyStopped (map W.lane run.lanes.items)) }
    ensures fed { IfOk result (λ run. AllByRecursion IsFed (map W.lane run.lanes.items)) }
{
    let Ok(objects) = objects_of(alloc, sys) else {
        return Err(Memory);
    };
    let sources = stim.sources.len() as u32;
    let Ok(rounds) = Rounds::new(alloc, lanes.len(), sources, false) else {
        return Err(Memory);
    };
    let at = QkTerms {
        sys,
        stim,
        budget,
        gate,
    };
    let mut workers = new_workers(alloc, &at, lanes)?;
    let how = start_and_run(rt, objects.as_slice(), workers.as_mut_slice(), &rounds);
    // (for want of memory a lane may have been cut anywhere)
    if matches!(how, Some(PhasesEnd::Memory)) {
        return Err(Memory);
    }
    left_of(alloc, sys, workers, how)
}
