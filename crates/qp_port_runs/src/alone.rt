//! A run under `qk` over lanes in whose looks nothing happens.

ghost use Rattle.std.specs.Prelude.{◌≡◌, ◌≤◌, IfOk, false, map};
ghost use Rattle.std.specs.List.{AllByRecursion};
ghost use Rattle.qp_model.specs.Sound.{IsSound};
ghost use Rattle.qp_model.specs.Limits.{budget_limit};
ghost use Rattle.qp_stim.specs.Rules.{StimuliFit};
ghost use Rattle.qp_port_lanes.specs.Answers.{IsFed};
ghost use Rattle.qp_port_phases.specs.Stopping.{AnyStopped};
ghost use Rattle.qp_port_qk.specs.Ends.{HasQkRun};
ghost use Rattle.qp_port_qk.specs.Rows.{AreNewQkLanes};
ghost use Rattle.qp_port_lanes.specs.Workers.{AreSameLanes};

use qp_base::{Gate, Memory};
use qp_calls_log::Meets;
use qp_kernel::Alone;
use qp_model::{Stimuli, System};
use qp_port_qk::{QkRun, run_lanes_of_qk};
use std::alloc::{AllocError, Global};
use std::sync::Wait;
use std::thread::Threads;

/// Each of these lanes, alone.
fn all_alone<O: Meets + Drop>(alloc: Global, lanes: Vec<O>) -> Result<Vec<Alone<O>>, AllocError>
    ensures { IfOk result (λ worlds. map (λ w. w.lane) worlds.items ≡ lanes.items) }
{
    let mut worlds = Vec::new(alloc);
    for lane in lanes {
        let Ok(()) = worlds.push(Alone::new(lane)) else {
            return Err(AllocError);
        };
    }
    Ok(worlds)
}

/// The lanes of these worlds.
fn all_done<O: Meets + Drop>(alloc: Global, worlds: Vec<Alone<O>>) -> Result<Vec<O>, AllocError>
    ensures { IfOk result (λ lanes. lanes.items ≡ map (λ w. w.lane) worlds.items) }
{
    let mut lanes = Vec::new(alloc);
    for world in worlds {
        let Ok(()) = lanes.push(world.done()) else {
            return Err(AllocError);
        };
    }
    Ok(lanes)
}

/// What a run leaves, with its lanes taken out of their worlds.
fn run_done<O: Meets + Drop>(alloc: Global, run: QkRun<Alone<O>>) -> Result<QkRun<O>, Memory>
    ensures lanes { IfOk result (λ x. x.lanes.items ≡ map (λ w. w.lane) run.lanes.items) }
    ensures rests { IfOk result (λ x. x.rests.items ≡ run.rests.items) }
    ensures done { IfOk result (λ x. x.done ≡ run.done) }
{
    let QkRun { lanes, rests, done } = run;
    match all_done(alloc, lanes) {
        Ok(lanes) => Ok(QkRun { lanes, rests, done }),
        Err(_) => Err(Memory),
    }
}

/// Runs the system on its stimuli over these lanes, which are new: the first serves all objects, and each source has one of the
/// others. No object takes more events than the budget. Want of memory alone leaves nothing.
pub(crate) fn run_alone<R: Threads + Wait + Sync, O: Meets + Send + Drop, G: Gate>(
    rt: &R,
    alloc: Global,
    sys: &System,
    stim: &Stimuli,
    budget: u32,
    gate: &G,
    lanes: Vec<O>,
) -> Result<QkRun<O>, Memory>
    requires sound { IsSound sys.now }
    requires fit { StimuliFit sys.now stim.now }
    requires few { budget ≤ budget_limit }
    requires lanes { AreNewQkLanes sys.now stim.now (map O.lane lanes.items) }
    ensures lanes { IfOk result (λ run. AreSameLanes (map O.lane lanes.items) (map O.lane run.lanes.items)) }
    ensures run { IfOk result (λ run. HasQkRun sys.now stim.now budget run.done run.rests.items (map O.lane run.lanes.items)) }
    ensures cause { IfOk result (λ run. run.done ≡ false → AnyStopped (map O.lane run.lanes.items)) }
    ensures fed { IfOk result (λ run. AllByRecursion IsFed (map O.lane run.lanes.items)) }
{
    let Ok(worlds) = all_alone(alloc, lanes) else {
        return Err(Memory);
    };
    let run = run_lanes_of_qk(rt, alloc, sys, stim, budget, gate, worlds)?;
    run_done(alloc, run)
}
