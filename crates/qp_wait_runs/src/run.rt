//! A run of the waiting port.

ghost use Rattle.std.specs.Prelude.{◌≡◌, ◌≤◌, IfOk, false, length, map};
ghost use Rattle.std.specs.List.{AllByRecursion};
ghost use Rattle.qp_model.specs.Kernels.{port};
ghost use Rattle.qp_model.specs.Sound.{IsSound};
ghost use Rattle.qp_model.specs.Limits.{budget_limit};
ghost use Rattle.qp_stim.specs.Rules.{StimuliFit};
ghost use Rattle.qp_port_lanes.specs.Answers.{IsFed};
ghost use Rattle.qp_port_phases.specs.Stopping.{AnyStopped};
ghost use Rattle.qp_port_runs.specs.Handed.{AreRestsIn};
ghost use Rattle.qp_port_runs.specs.Handed.{HasRun};
ghost use Rattle.qp_port_runs.specs.Handed.{AreNewLanes};
ghost use Rattle.qp_port_lanes.specs.Workers.{AreSameLanes};
ghost use Rattle.qp_port_runs.specs.Handed.{IsThreadRun};
ghost use Rattle.qp_port_runs.specs.Handed.{WasSealedFor, lane_view};
ghost use Rattle.qp_wait.specs.Handed.{bell_view};
ghost use Rattle.qp_wait.specs.Handed.{AreBellsOf, IsBellRootOf};

use crate::ringing::{all_done, all_ringing};
use crate::turns::WaitTurns;
use qp_base::{Gate, Memory};
use qp_model::kernels::PORT;
use qp_model::{Stimuli, System};
use qp_port_phases::Rounds;
use qp_port_runs::{PortRun, Shared, SharedLane, Terms, Threaded, run_lanes_of, seal};
use qp_wait::{BellLane, BellRoot, Bells};
use std::alloc::Global;
use std::sync::Wait;
use std::thread::Threads;

/// What a run leaves, with the lanes of the running table again.
fn run_done<'a>(
    alloc: Global,
    run: PortRun<BellLane<'a>>,
) -> Result<PortRun<SharedLane<'a>>, Memory>
    ensures lanes { IfOk result (λ x. map lane_view x.lanes.items ≡ map bell_view run.entry.lanes.items) }
    ensures rests { IfOk result (λ x. x.rests.items ≡ run.entry.rests.items) }
    ensures done { IfOk result (λ x. x.done ≡ run.entry.done) }
{
    let PortRun { lanes, rests, done } = run;
    match all_done(alloc, lanes) {
        Ok(lanes) => Ok(PortRun { lanes, rests, done }),
        Err(_) => Err(Memory),
    }
}

/// Runs over these lanes, which are new, with the bells of their system: the first stays empty, each object has one, by ascending
/// priority, and so has each source. Want of memory alone leaves nothing.
fn run_ringing<'a, R: Threads + Wait + Sync, G: Gate>(
    rt: &R,
    alloc: Global,
    at: &Terms<'_, G, WaitTurns<'a>>,
    bells: &'a Bells,
    mut root: BellRoot,
    lanes: Vec<SharedLane<'a>>,
) -> Result<PortRun<SharedLane<'a>>, Memory>
    requires sound { IsSound at.now.sys.now }
    requires fit { StimuliFit at.now.sys.now at.now.stim.now }
    requires few { at.now.budget ≤ budget_limit }
    requires bells { AreBellsOf at.now.sys.now bells.now }
    requires root { IsBellRootOf bells.now root }
    requires sources { at.now.turns.now.rounds.now.sources ≡ length at.now.stim.now }
    requires lanes { AreNewLanes at.now.sys.now at.now.stim.now (map lane_view lanes.items) }
    ensures lanes { IfOk result (λ run. AreSameLanes (map lane_view lanes.entry.items) (map lane_view run.lanes.items)) }
    ensures run { IfOk result (λ run. HasRun at.now.sys.now at.now.stim.now at.now.budget run.done run.rests.items (map lane_view run.lanes.items)) }
    ensures cause { IfOk result (λ run. run.done ≡ false → AnyStopped (map lane_view run.lanes.items)) }
    ensures fed { IfOk result (λ run. AllByRecursion IsFed (map lane_view run.lanes.items)) }
{
    let lanes = all_ringing(alloc, bells, &mut root, at.sys, lanes)?;
    let run = run_lanes_of(rt, alloc, at, at.turns.rounds, lanes)?;
    run_done(alloc, run)
}

/// Runs the system on its stimuli under the waiting port: each object and each source has a thread of its own, as under `port`, and
/// that of an object parks where its queue is found empty. No object takes more events than the budget. It is refused for want of
/// memory alone, and then no journal is sealed.
pub fn run_wait<R: Threads + Wait + Sync, G: Gate>(
    rt: &R,
    alloc: Global,
    sys: &System,
    stim: &Stimuli,
    budget: u32,
    gate: &G,
) -> Result<Threaded, Memory>
    requires sound { IsSound sys.now }
    requires fit { StimuliFit sys.now stim.now }
    requires few { budget ≤ budget_limit }
    ensures run { IfOk result (λ run. IsThreadRun port sys.now stim.now budget run.sealed.journal) }
    ensures sealed { IfOk result (λ run. WasSealedFor sys.now run.sealed.journal) }
    ensures rests { IfOk result (λ run. AreRestsIn sys.now run.sealed.journal run.rests.items) }
{
    let (bells, bell_root) = Bells::new(alloc, sys)?;
    let count = 1 + sys.objects.items.len() + stim.sources.len();
    let (shared, root) = Shared::new(alloc, sys)?;
    let lanes = shared.port_lanes(root, count as u32)?;
    let sources = stim.sources.len() as u32;
    let Ok(rounds) = Rounds::new(alloc, lanes.len(), sources, true) else {
        return Err(Memory);
    };
    let turns = WaitTurns { rounds: &rounds };
    let at = Terms {
        sys,
        stim,
        budget,
        gate,
        turns: &turns,
    };
    let PortRun { lanes, rests, done } = run_ringing(rt, alloc, &at, &bells, bell_root, lanes)?;
    seal(&shared, lanes, rests, done, PORT, budget)
}
