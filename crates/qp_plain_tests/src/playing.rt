//! A run of a system's objects on its stimuli, by a gate.

ghost use Rattle.std.specs.Prelude.{◌≤◌};
ghost use Rattle.qp_model.specs.Sound.{IsSound};
ghost use Rattle.qp_model.specs.Limits.{budget_limit};
ghost use Rattle.qp_stim.specs.Rules.{StimuliFit};
ghost use Rattle.qp_kernel_runs.specs.SimView.{sim_view};
ghost use Rattle.qp_kernel_turns.specs.Objects.{AreMade};
ghost use Rattle.qp_kernel_turns.specs.Starting.{IsFreshLane};

use qp_base::{Gate, Memory};
use qp_calls::Ops;
use qp_dispatch::{Step, Turn};
use qp_kernel::Kernel;
use qp_kernel_runs::SimWorld;
use qp_kernel_turns::{Bounds, Objects, kernel_turn};
use qp_model::{Lanes, Stimuli, System};
use qp_plain::PlainWorld;
use qp_told::Told;
use std::alloc::Global;
use std::sync::Wait;

/// What a run left: how its turn ended, the count of steps, the code in the stop word, and the lanes.
#[derive(Drop)]
pub(crate) struct Played {
    pub(crate) turn: Turn,
    pub(crate) steps: u64,
    pub(crate) code: Option<u8>,
    pub(crate) lanes: Lanes,
}

/// Starts all objects, and lets the kernel take its turn. It answers how it ended, and the count of steps.
fn run<R: Wait, G: Gate>(
    rt: &R,
    world: &mut SimWorld<'_>,
    sys: &System,
    objects: &mut Objects,
    budget: u32,
    gate: &G,
) -> (Turn, u64)
    requires sound { IsSound sys.now }
    requires few { budget ≤ budget_limit }
    requires made { AreMade sys.now objects.old }
    requires fresh { IsFreshLane sys.now (sim_view world.old) }
    requires fit { StimuliFit sys.now (sim_view world.old).plan }
{
    match objects.start(world, sys) {
        Step::Done => {
            let at = Bounds {
                sys,
                budget,
                cooperative: false,
                threaded: false,
            };
            let mut kernel = Kernel::new();
            let mut told = Told::new(gate);
            let turn = kernel_turn(rt, world, &at, objects, &mut kernel, &mut told);
            (turn, kernel.steps)
        }
        Step::Stopped => (Turn::Stopped, 0),
        Step::Point | Step::Memory => (Turn::Memory, 0),
    }
}

/// Runs the system on its stimuli under the preemptive kernel.
pub(crate) fn play<R: Wait, G: Gate>(
    rt: &R,
    alloc: Global,
    sys: &System,
    stim: &Stimuli,
    budget: u32,
    gate: &G,
) -> Result<Played, Memory>
    requires sound { IsSound sys.now }
    requires fit { StimuliFit sys.now stim.now }
    requires few { budget ≤ budget_limit }
{
    let plain = PlainWorld::new(alloc, sys, stim.sources.len() as u32 + 1)?;
    let mut world = SimWorld::new(alloc, plain, stim)?;
    let mut objects = Objects::new(alloc, sys)?;
    let (turn, steps) = run(rt, &mut world, sys, &mut objects, budget, gate);
    let code = world.stopped();
    Ok(Played {
        turn,
        steps,
        code,
        lanes: world.finish(),
    })
}
