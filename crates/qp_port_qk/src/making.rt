//! The workers of a run, before their start.

ghost use Rattle.std.specs.Prelude.{◌≡◌, ◌+◌, ◌<◌, ◌≤◌, IfOk, OnOk, length};
ghost use Rattle.qp_kernel_turns.specs.Objects.{AreMade};
ghost use Rattle.qp_port_qk.specs.Making.{AreAllQkMade, MadesKernel, IsFreshQkSource};
ghost use Rattle.qp_port_lanes.specs.Workers.{AddsAll, SourcesMade};

use crate::job::QkJob;
use crate::worker::QkWorker;
use qp_base::{Memory, Tells};
use qp_calls_log::Meets;
use qp_dispatch::Turn;
use qp_kernel::{Kernel, World};
use qp_kernel_turns::Objects;
use qp_model::{Source, Stimuli, System};
use qp_port_lanes::Cursor;
use std::alloc::Global;

/// What all workers of a run share: the system, its stimuli, the budget of an object, and what is told of its steps.
#[derive(Clone, Copy)]
pub struct QkTerms<'a, G: Tells> {
    pub sys: &'a System,
    pub stim: &'a Stimuli,
    pub budget: u32,
    pub gate: &'a G,
}

/// A worker with the kernel and all objects.
fn kernel_worker<'a, W: World + Meets, G: Tells>(
    at: &QkTerms<'a, G>,
    lane: W,
    objects: Objects,
) -> QkWorker<'a, W, G>
    requires made { AreMade at.now.sys.now objects }
    ensures made { MadesKernel at.now.sys.now at.now.budget result.sys.now result.budget result.turn result.job }
    ensures lane { result.lane ≡ lane }
{
    QkWorker {
        lane,
        job: QkJob::Kernel(objects, Kernel::new()),
        turn: Turn::Idle,
        sys: at.sys,
        budget: at.budget,
        gate: at.gate,
    }
}

/// A worker with the source of this number.
fn source_worker<'a, W: World + Meets, G: Tells>(
    at: &QkTerms<'a, G>,
    lane: W,
    source: u32,
) -> QkWorker<'a, W, G>
    ensures made { IsFreshQkSource at.now.sys.now at.now.budget at.now.stim.now source result.sys.now result.budget result.turn result.job }
    ensures lane { result.lane ≡ lane }
{
    QkWorker {
        lane,
        job: QkJob::Source(Cursor::new(at.stim, source, source)),
        turn: Turn::Idle,
        sys: at.sys,
        budget: at.budget,
        gate: at.gate,
    }
}

/// Adds one for each of these sources, of which the first has this number.
fn add_sources<'a, W: World + Meets + Drop, G: Tells>(
    at: &QkTerms<'a, G>,
    source: u32,
    sources: &[Source],
    lanes: &mut Vec<W>,
    workers: &mut Vec<QkWorker<'a, W, G>>,
) -> Result<(), Memory>
    requires enough { length sources.now ≤ length lanes.old.items }
    requires few { source + length sources.now ≤ 50 }
    ensures { OnOk result (AddsAll (λ w. w.lane) (SourcesMade (λ k w. IsFreshQkSource at.now.sys.now at.now.budget at.now.stim.now k w.sys.now w.budget w.turn w.job) source sources.now) lanes.old.items workers.old.items lanes.new.items workers.new.items) }
{
    let Some((_, rest)) = sources.split_first() else {
        return Ok(());
    };
    let worker = source_worker(at, lanes.remove(0), source);
    if workers.push(worker).is_err() {
        return Err(Memory);
    }
    add_sources(at, source + 1, rest, lanes, workers)
}

/// A worker for each of these lanes: the first has the kernel with all objects, the others the sources.
pub fn new_workers<'a, W: World + Meets + Drop, G: Tells>(
    alloc: Global,
    at: &QkTerms<'a, G>,
    lanes: Vec<W>,
) -> Result<Vec<QkWorker<'a, W, G>>, Memory>
    requires many { length lanes.items ≡ 1 + length at.now.stim.now }
    requires few { length at.now.stim.now ≤ 16 }
    ensures { IfOk result (λ ws. AreAllQkMade (λ w. w.lane) (λ w. MadesKernel at.now.sys.now at.now.budget w.sys.now w.budget w.turn w.job)
        (λ k w. IsFreshQkSource at.now.sys.now at.now.budget at.now.stim.now k w.sys.now w.budget w.turn w.job) at.now.stim.now lanes.items ws.items) }
{
    let mut lanes = lanes;
    let Ok(mut workers) = Vec::with_capacity(alloc, lanes.len()) else {
        return Err(Memory);
    };
    let objects = Objects::new(alloc, at.sys)?;
    let worker = kernel_worker(at, lanes.remove(0), objects);
    let Ok(_) = workers.push(worker) else {
        return Err(Memory);
    };
    let stim = at.stim;
    add_sources(at, 1, &stim.sources, &mut lanes, &mut workers)?;
    Ok(workers)
}
