//! The workers of a run, before their start.

ghost use Rattle.std.specs.Prelude.{◌≡◌, ◌+◌, ◌<◌, ◌≤◌, IfOk, OnOk, length};
ghost use Rattle.qp_port.specs.Making.{AddsOne, AreAllMade, HomesMade, IsThis, MadesHome, MadesNothing, IsFreshSource};
ghost use Rattle.qp_port_lanes.specs.Workers.{AddsAll, IsFreshWorker, SourcesMade};

use crate::job::Job;
use crate::turns::Turns;
use crate::worker::PortWorker;
use qp_base::{Memory, Tells};
use qp_calls_log::Meets;
use qp_dispatch::Turn;
use qp_model::{ObjectDef, Source, Stimuli, System};
use qp_port_lanes::{Cursor, Home};
use std::alloc::Global;

/// What all workers of a run share: the system, its stimuli, the budget of an object, what is told of its steps, and how objects
/// take their turns.
#[derive(Clone, Copy)]
pub struct Terms<'a, G: Tells, T> {
    pub sys: &'a System,
    pub stim: &'a Stimuli,
    pub budget: u32,
    pub gate: &'a G,
    pub turns: &'a T,
}

/// Adds a worker that is to do this, with the first of the lanes.
fn add<'a, O: Meets + Drop, G: Tells, T: Turns<O>>(
    at: &Terms<'a, G, T>,
    job: Job<'a>,
    lanes: &mut Vec<O>,
    workers: &mut Vec<PortWorker<'a, O, G, T>>,
) -> Result<(), Memory>
    requires { 0 < length lanes.old.items }
    ensures { OnOk result (AddsOne (λ w. w.lane) (λ w. IsFreshWorker at.now.sys.now at.now.budget w.sys.now w.budget w.turn × IsThis job.entry w.job) lanes.old.items workers.old.items lanes.new.items workers.new.items) }
{
    let Ok(number) = u32::try_from(workers.len()) else {
        return Err(Memory);
    };
    let worker = PortWorker {
        lane: lanes.remove(0),
        job,
        turn: Turn::Idle,
        number,
        sys: at.sys,
        budget: at.budget,
        gate: at.gate,
        turns: at.turns,
    };
    let Ok(()) = workers.push(worker) else {
        return Err(Memory);
    };
    Ok(())
}

/// Adds one for each of these objects.
fn add_homes<'a, O: Meets + Drop, G: Tells, T: Turns<O>>(
    alloc: Global,
    at: &Terms<'a, G, T>,
    objects: &[ObjectDef],
    lanes: &mut Vec<O>,
    workers: &mut Vec<PortWorker<'a, O, G, T>>,
) -> Result<(), Memory>
    requires { length objects.now ≤ length lanes.old.items }
    ensures { OnOk result (AddsAll (λ w. w.lane) (HomesMade (λ d w. MadesHome at.now.sys.now at.now.budget d w.sys.now w.budget w.turn w.job) objects.now) lanes.old.items workers.old.items lanes.new.items workers.new.items) }
{
    let Some((one, rest)) = objects.split_first() else {
        return Ok(());
    };
    let home = Home::new(alloc, at.sys, one.priority)?;
    add(at, Job::Home(home), lanes, workers)?;
    add_homes(alloc, at, rest, lanes, workers)
}

/// Adds one for each of these sources, of which the first has this number.
fn add_sources<'a, O: Meets + Drop, G: Tells, T: Turns<O>>(
    at: &Terms<'a, G, T>,
    source: u32,
    sources: &[Source],
    lanes: &mut Vec<O>,
    workers: &mut Vec<PortWorker<'a, O, G, T>>,
) -> Result<(), Memory>
    requires enough { length sources.now ≤ length lanes.old.items }
    requires few { source + length sources.now ≤ 50 }
    ensures { OnOk result (AddsAll (λ w. w.lane) (SourcesMade (λ k w. IsFreshSource at.now.sys.now at.now.budget at.now.stim.now k w.sys.now w.budget w.turn w.job) source sources.now) lanes.old.items workers.old.items lanes.new.items workers.new.items) }
{
    let Some((_, rest)) = sources.split_first() else {
        return Ok(());
    };
    let Ok(number) = u32::try_from(workers.len()) else {
        return Err(Memory);
    };
    let cursor = Cursor::new(at.stim, source, number);
    add(at, Job::Source(cursor), lanes, workers)?;
    add_sources(at, source + 1, rest, lanes, workers)
}

/// A worker for each of these lanes: the first has nothing to do, then come the objects, by ascending priority, and the sources.
pub(crate) fn new_workers<'a, O: Meets + Drop, G: Tells, T: Turns<O>>(
    alloc: Global,
    at: &Terms<'a, G, T>,
    lanes: Vec<O>,
) -> Result<Vec<PortWorker<'a, O, G, T>>, Memory>
    requires many { length lanes.items ≡ 1 + length at.now.sys.now.objects + length at.now.stim.now }
    requires few { length at.now.stim.now ≤ 16 }
    ensures { IfOk result (λ ws. AreAllMade (λ w. w.lane) (λ w. MadesNothing at.now.sys.now at.now.budget w.sys.now w.budget w.turn w.job)
        (λ d w. MadesHome at.now.sys.now at.now.budget d w.sys.now w.budget w.turn w.job)
        (λ k w. IsFreshSource at.now.sys.now at.now.budget at.now.stim.now k w.sys.now w.budget w.turn w.job)
        at.now.sys.now.objects at.now.stim.now lanes.items ws.items) }
{
    let sys = at.sys;
    let stim = at.stim;
    let mut lanes = lanes;
    let Ok(mut workers) = Vec::with_capacity(alloc, lanes.len()) else {
        return Err(Memory);
    };
    add(at, Job::Nothing, &mut lanes, &mut workers)?;
    add_homes(alloc, at, &sys.objects.items, &mut lanes, &mut workers)?;
    add_sources(at, 1, &stim.sources, &mut lanes, &mut workers)?;
    Ok(workers)
}
