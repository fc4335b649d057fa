//! A run of two lanes on one thread: the kernel's and that of one source.

ghost use Rattle.std.specs.Prelude.{◌≡◌, [], false, true};
ghost use Rattle.qp_model.specs.Sound.{IsSound};
ghost use Rattle.qp_stim.specs.Rules.{StimuliFit};
ghost use Rattle.qp_calls.specs.LaneView.{IsNew};
ghost use Rattle.qp_kernel.specs.Happenings.{has_no_stim};
ghost use Rattle.qp_kernel.specs.Turning.{under_qk};
ghost use Rattle.qp_kernel_turns.specs.Knowing.{KnowsAt, MayLook};
ghost use Rattle.qp_kernel_turns.specs.Objects.{AreMade};
ghost use Rattle.qp_kernel_turns.specs.Starting.{AllStarted, IsFreshLane};
ghost use Rattle.qp_shared.specs.Lane.{lane_view};
ghost use Rattle.qp_shared_tests.specs.Lanes.{IsSame};

use crate::lanes::{pair, seal_pair};
use qp_base::NoGate;
use qp_calls::Ops;
use qp_dispatch::Step;
use qp_kernel::{Alone, Kernel, World};
use qp_kernel_turns::{Bounds, Objects, kernel_turn};
use qp_model::kernels::QK;
use qp_model::{Stimuli, System};
use qp_port_lanes::laws::new_cursors_stand;
use qp_port_lanes::{Cursor, source_turn};
use qp_shared::{Sealed, Shared, SharedLane};
use qp_told::Told;
use std::alloc::Global;
use std::sync::Wait;

/// Starts all objects. Whether each start came to its end.
fn start<O: Ops>(ops: &mut O, sys: &System, objects: &mut Objects) -> bool
    requires sound { IsSound sys.now }
    requires made { AreMade sys.now objects.old }
    requires fresh { IsFreshLane sys.now (O.lane ops.old) }
    ensures all { result ≡ true → AllStarted sys.now objects.old objects.new (O.lane ops.old) (O.lane ops.new) }
    ensures same { IsSame (O.lane ops.old) (O.lane ops.new) }
    ensures plan { (O.lane ops.new).plan ≡ (O.lane ops.old).plan }
{
    matches!(objects.start(ops, sys), Step::Done)
}

/// One turn of the kernel, whose objects have started.
fn turn<R: Wait, W: World>(rt: &R, world: &mut W, sys: &System, objects: &mut Objects)
    requires alone { W.acts ≡ false }
    requires sound { IsSound sys.now }
    requires plan { (W.lane world.old).plan ≡ [] }
    requires knows { KnowsAt (MayLook sys.now (under_qk 100000)) sys.now (under_qk 100000) 0 [] objects.old (W.lane world.old) }
    requires none { has_no_stim (W.lane world.old) }
    ensures { IsSame (W.lane world.old) (W.lane world.new) }
{
    let at = Bounds {
        sys,
        budget: 100_000,
        cooperative: false,
        threaded: true,
    };
    let mut kernel = Kernel::new();
    let mut told = Told::new(&NoGate);
    let _ = kernel_turn(rt, world, &at, objects, &mut kernel, &mut told);
}

/// The same, where the objects have started.
fn go_on<R: Wait, W: World>(
    rt: &R,
    world: &mut W,
    sys: &System,
    objects: &mut Objects,
    started: bool,
)
    requires alone { W.acts ≡ false }
    requires sound { IsSound sys.now }
    requires plan { (W.lane world.old).plan ≡ [] }
    requires knows { started ≡ true → KnowsAt (MayLook sys.now (under_qk 100000)) sys.now (under_qk 100000) 0 [] objects.old (W.lane world.old) }
    requires none { started ≡ true → has_no_stim (W.lane world.old) }
    ensures { IsSame (W.lane world.old) (W.lane world.new) }
{
    if started {
        turn(rt, world, sys, objects);
        return;
    }
}

/// All stimuli of the first source, up to a `settle`.
fn act<O: Ops>(ops: &mut O, sys: &System, stim: &Stimuli)
    requires sound { IsSound sys.now }
    requires fit { StimuliFit sys.now stim.now }
    requires of { (O.lane ops.old).sys ≡ sys.now }
    requires new { IsNew (O.lane ops.old) }
    ensures { IsSame (O.lane ops.old) (O.lane ops.new) }
{
    if stim.sources.is_empty() {
        return;
    }
    let mut cursor = Cursor::new(stim, 1, 1);
    new_cursors_stand();
    let mut told = Told::new(&NoGate);
    let _ = source_turn(ops, sys, &mut cursor, &mut told);
}

/// Starts all objects in the first lane, lets the source act in the second, and then the kernel in the first.
fn play<'a, R: Wait>(
    rt: &R,
    sys: &System,
    stim: &Stimuli,
    objects: Objects,
    first: SharedLane<'a>,
    second: &mut SharedLane<'_>,
) -> SharedLane<'a>
    requires sound { IsSound sys.now }
    requires fit { StimuliFit sys.now stim.now }
    requires made { AreMade sys.now objects }
    requires fresh { IsFreshLane sys.now (lane_view first) }
    requires plan { (lane_view first).plan ≡ [] }
    requires of { (lane_view second.old).sys ≡ sys.now }
    requires new { IsNew (lane_view second.old) }
    ensures first { IsSame (lane_view first.entry) (lane_view result) }
    ensures second { IsSame (lane_view second.old) (lane_view second.new) }
{
    let mut objects = objects;
    let mut world = Alone::new(first);
    let started = start(&mut world, sys, &mut objects);
    act(second, sys, stim);
    go_on(rt, &mut world, sys, &mut objects, started);
    world.done()
}

/// Runs the system on the stimuli of its one source, over two lanes on one thread, and seals the lanes.
pub(crate) fn run<R: Wait>(rt: &R, alloc: Global, sys: &System, stim: &Stimuli) -> Option<Sealed>
    requires sound { IsSound sys.now }
    requires fit { StimuliFit sys.now stim.now }
{
    let Ok(objects) = Objects::new(alloc, sys) else {
        return None;
    };
    let Ok((shared, root)) = Shared::new(alloc, sys) else {
        return None;
    };
    let (first, mut second) = pair(&shared, root)?;
    let first = play(rt, sys, stim, objects, first, &mut second);
    seal_pair(alloc, &shared, first, second, QK)
}
