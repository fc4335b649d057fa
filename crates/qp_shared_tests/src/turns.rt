//! Turns of a lamp that waits.

ghost use Rattle.std.specs.Prelude.{◌≡◌, ◌≤◌, true};
ghost use Rattle.qp_model.specs.Sound.{IsSound};
ghost use Rattle.qp_port_lanes.specs.At.{HasEmptyLane, IsHome, IsUnstartedHome};
ghost use Rattle.qp_shared.specs.Starting.{IsRootOf};
ghost use Rattle.qp_wait.specs.Handed as handed;
ghost use Rattle.qp_wait.specs.Handed.{AreBellsOf, bell_view};
ghost use Rattle.qp_shared_tests.specs.Lamps.{IsLamp};

use crate::lamps::{is_lamp, lamp};
use crate::lanes::triple;
use crate::shown::shown_behind;
use qp_base::NoGate;
use qp_dispatch::{Step, Turn};
use qp_model::System;
use qp_port_lanes::Home;
use qp_shared::{Root, Shared};
use qp_told::Told;
use qp_wait::{BellLane, BellRoot, Bells, wait_turn};
use std::alloc::Global;
use std::sync::Wait;

/// How many entries the lamp takes at most.
const BUDGET: u32 = 100_000;

/// Whether the lamp started in its lane.
fn starts(lane: &mut BellLane<'_>, sys: &System, home: &mut Home) -> bool
    requires sound { IsSound sys.now }
    requires made { IsUnstartedHome sys.now 1 home.old }
    requires empty { HasEmptyLane sys.now 1 (bell_view lane.old) }
    ensures { result ≡ true → IsHome sys.now 100000 home.new (bell_view lane.new) }
{
    match home.start(&mut lane.ringing, sys) {
        Step::Done => true,
        _ => false,
    }
}

/// The lamp takes its turn. Whether that came to its end.
fn waits<R: Wait>(rt: &R, lane: &mut BellLane<'_>, sys: &System, home: &mut Home) -> bool
    requires sound { IsSound sys.now }
    requires knows { IsHome sys.now 100000 home.old (bell_view lane.old) }
{
    let mut told = Told::new(&NoGate);
    match wait_turn(rt, lane, sys, home, 1, BUDGET, &mut told) {
        Turn::Idle => true,
        _ => false,
    }
}

/// The lamp starts in its lane and takes its turn. Whether both came to their end.
fn is_over<R: Wait>(rt: &R, alloc: Global, sys: &System, lane: &mut BellLane<'_>) -> bool
    requires sound { IsSound sys.now }
    requires empty { HasEmptyLane sys.now 1 (bell_view lane.old) }
{
    let Ok(mut home) = Home::new(alloc, sys, 1) else {
        return false;
    };
    if !starts(lane, sys, &mut home) {
        return false;
    }
    waits(rt, lane, sys, &mut home)
}

/// How many parks the lamp's lane made in its turn, and its records behind it.
fn seen_in<R: Wait>(rt: &R, alloc: Global, sys: &System, lane: &mut BellLane<'_>) -> Option<String>
    requires sound { IsSound sys.now }
    requires empty { HasEmptyLane sys.now 1 (bell_view lane.old) }
{
    if !is_over(rt, alloc, sys, lane) {
        return None;
    }
    let parks = lane.parks().len() as u64;
    Some(shown_behind(alloc, &[parks], lane.records()))
}

/// The same of a turn over an empty queue, with nothing on the count, over these tables and bells.
fn seen_over<'a, R: Wait>(
    rt: &R,
    alloc: Global,
    sys: &System,
    shared: &'a Shared<'_>,
    root: Root,
    bells: &'a Bells,
    bell_root: &mut BellRoot,
) -> Option<String>
    requires sound { IsSound sys.now }
    requires root { IsRootOf shared.now root }
    requires its { shared.now.sys.now ≡ sys.now }
    requires lamp { IsLamp sys.now }
    requires bells { AreBellsOf sys.now bells.now }
    requires bell_root { handed.IsBellRootOf bells.now bell_root.old }
{
    let (_, second, _) = triple(shared, root, sys)?;
    let Ok(mut lane) = bells.bell(alloc, bell_root, second, 1) else {
        return None;
    };
    seen_in(rt, alloc, sys, &mut lane)
}

/// The same over tables and bells of a lamp.
fn seen_once<R: Wait>(rt: &R, alloc: Global, sys: &System) -> Option<String>
    requires sound { IsSound sys.now }
    requires lamp { IsLamp sys.now }
{
    let Ok((shared, root)) = Shared::new(alloc, sys) else {
        return None;
    };
    let Ok((bells, mut bell_root)) = Bells::new(alloc, sys) else {
        return None;
    };
    seen_over(rt, alloc, sys, &shared, root, &bells, &mut bell_root)
}

/// The same of a new lamp.
fn seen<R: Wait>(rt: &R, alloc: Global) -> Option<String> {
    let sys = lamp(alloc, 1)?;
    if is_lamp(&sys) {
        seen_once(rt, alloc, &sys)
    } else {
        None
    }
}

#[test]
fn a_turn_over_an_empty_queue_is_over(rt: HostRuntime) {
    let seen = seen(&rt, rt.alloc());
    assert_eq!(rt;
        seen.as_deref(),
        Some(" 0: begin 1, enter 1 1, done 1, nil 1 0 0 0")
    );
}
