//! A run under `qk`.

ghost use Rattle.std.specs.Prelude.{◌≡◌, ◌≤◌, IfOk};
ghost use Rattle.qp_model.specs.Kernels.{qk};
ghost use Rattle.qp_model.specs.Sound.{IsSound};
ghost use Rattle.qp_model.specs.Limits.{budget_limit};
ghost use Rattle.qp_stim.specs.Rules.{StimuliFit};
ghost use Rattle.qp_kernel_end.specs.Rests.{AreRestsIn};
ghost use Rattle.qp_port_law.specs.ThreadRun.{IsThreadRun};
ghost use Rattle.qp_shared.specs.WasSealed.{WasSealedFor};

use crate::alone::run_alone;
use crate::sealing::{Threaded, seal};
use qp_base::{Gate, Memory};
use qp_model::kernels::QK;
use qp_model::{Stimuli, System};
use qp_port_qk::QkRun;
use qp_port_qk::laws::sealed_qk_runs_are_lawful;
use qp_shared::Shared;
use std::alloc::Global;
use std::sync::Wait;
use std::thread::Threads;

/// Runs the system on its stimuli under `qk`: one thread has the kernel with all objects, and each source has a thread of its own.
/// No object takes more events than the budget. It is refused for want of memory alone, and then no journal is sealed.
pub fn run_qk<R: Threads + Wait + Sync, G: Gate>(
    rt: &R,
    alloc: Global,
    sys: &System,
    stim: &Stimuli,
    budget: u32,
    gate: &G,
) -> Result<Threaded, Memory>
    requires sound { IsSound sys.now }
    requires fit { StimuliFit sys.now stim.now }
    requires few { budget ≤ budget_limit }
    ensures run { IfOk result (λ run. IsThreadRun qk sys.now stim.now budget run.sealed.journal) }
    ensures sealed { IfOk result (λ run. WasSealedFor sys.now run.sealed.journal) }
    ensures rests { IfOk result (λ run. AreRestsIn sys.now run.sealed.journal run.rests.items) }
{
    let count = 1 + stim.sources.len();
    let (shared, root) = Shared::new(alloc, sys)?;
    let lanes = shared.lanes(root, count as u32)?;
    let QkRun { lanes, rests, done } = run_alone(rt, alloc, sys, stim, budget, gate, lanes)?;
    sealed_qk_runs_are_lawful();
    seal(&shared, lanes, rests, done, QK, budget)
}
