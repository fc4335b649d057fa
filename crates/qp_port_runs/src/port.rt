//! A run under `port`.

ghost use Rattle.std.specs.Prelude.{◌≡◌, ◌≤◌, IfOk};
ghost use Rattle.qp_model.specs.Kernels.{port};
ghost use Rattle.qp_model.specs.Sound.{IsSound};
ghost use Rattle.qp_model.specs.Limits.{budget_limit};
ghost use Rattle.qp_stim.specs.Rules.{StimuliFit};
ghost use Rattle.qp_kernel_end.specs.Rests.{AreRestsIn};
ghost use Rattle.qp_port_law.specs.ThreadRun.{IsThreadRun};
ghost use Rattle.qp_shared.specs.WasSealed.{WasSealedFor};

use crate::sealing::{Threaded, seal};
use qp_base::{Gate, Memory};
use qp_model::kernels::PORT;
use qp_model::{Stimuli, System};
use qp_port::{PortRun, run_lanes_of_port};
use qp_shared::Shared;
use std::alloc::Global;
use std::sync::Wait;
use std::thread::Threads;

/// Runs the system on its stimuli under `port`: each object and each source has a thread of its own. No object takes more events
/// than the budget. It is refused for want of memory alone, and then no journal is sealed.
pub fn run_port<R: Threads + Wait + Sync, G: Gate>(
    rt: &R,
    alloc: Global,
    sys: &System,
    stim: &Stimuli,
    budget: u32,
    gate: &G,
) -> Result<Threaded, Memory>
    requires sound { IsSound sys.now }
    requires fit { StimuliFit sys.now stim.now }
    requires few { budget ≤ budget_limit }
    ensures run { IfOk result (λ run. IsThreadRun port sys.now stim.now budget run.sealed.journal) }
    ensures sealed { IfOk result (λ run. WasSealedFor sys.now run.sealed.journal) }
    ensures rests { IfOk result (λ run. AreRestsIn sys.now run.sealed.journal run.rests.items) }
{
    let count = 1 + sys.objects.items.len() + stim.sources.len();
    let (shared, root) = Shared::new(alloc, sys)?;
    let lanes = shared.port_lanes(root, count as u32)?;
    let PortRun { lanes, rests, done } = run_lanes_of_port(
        rt, alloc, sys, stim, budget, gate, lanes,
    )?;
    seal(&shared, lanes, rests, done, PORT, budget)
}
