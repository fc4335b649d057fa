//! Posts of a source's lane that rings.

ghost use Rattle.std.specs.Prelude.{◌≡◌, ◌<◌, IsTrue};
ghost use Rattle.qp_model.specs.Parts.{is_static};
ghost use Rattle.qp_model.specs.Sound.{IsSound};
ghost use Rattle.qp_model.specs.WordLaw.{is_object};
ghost use Rattle.qp_shared.specs.Starting.{IsRootOf};
ghost use Rattle.qp_wait.specs.Handed as handed;
ghost use Rattle.qp_wait.specs.Handed.{AreBellsOf};
ghost use Rattle.qp_shared_tests.specs.Lamps.{HasGrown, IsLamp, IsLampLane};

use crate::lamps::{is_lamp, lamp};
use crate::lanes::triple;
use qp_base::Steps;
use qp_calls::{Did, Ops, post_static};
use qp_model::System;
use qp_shared::{Root, Shared};
use qp_wait::{BellLane, BellRoot, Bells};
use qp_wait_rings::RingingLane;
use std::alloc::Global;
use std::marker::Brand;
use std::sync::ledger::{Blank, Ledger};

/// What two posts answer, and the notes given to object 1 behind each.
type Answers = ((u16, u32), (u16, u32));

/// Posts the first signal to object 1. The answer of the call; None where there was no room.
fn post_go<O: Ops, L: Ledger>(ops: &mut O, margin: Option<u8>, blank: Blank) -> Option<u16>
    requires name { blank.name ≡ L.name }
    requires parts { blank.parts ≡ L.parts }
    requires some { 0 < blank.parts }
    requires object { IsTrue (is_object (O.lane ops.old).sys 1) }
    requires fixed { IsTrue (is_static (O.lane ops.old).sys 4) }
    ensures { HasGrown (O.lane ops.old) (O.lane ops.new) }
{
    let mut steps = Steps::<L>::open(blank);
    match post_static(ops, 1, 4, margin, &mut steps) {
        Ok(Did::Value(value)) => Some(value),
        _ => None,
    }
}

/// A post: its answer, and the notes that the lane gave to object 1.
fn post_and_count(lane: &mut BellLane<'_>, margin: Option<u8>) -> Option<(u16, u32)>
    requires { IsLampLane lane.old }
    ensures { IsLampLane lane.new }
{
    let value = post_go::<RingingLane<'_>, Brand>(&mut lane.ringing, margin, Blank::new(1))?;
    Some((value, lane.rings(1)))
}

/// Two posts, the second one with margin 0.
fn post_both(lane: &mut BellLane<'_>) -> Option<Answers>
    requires { IsLampLane lane.old }
{
    let first = post_and_count(lane, None)?;
    let second = post_and_count(lane, Some(0))?;
    Some((first, second))
}

/// The source's lane posts twice, over these tables and bells.
fn post_over<'a>(
    alloc: Global,
    sys: &System,
    shared: &'a Shared<'_>,
    root: Root,
    bells: &'a Bells,
    bell_root: &mut BellRoot,
) -> Option<Answers>
    requires root { IsRootOf shared.now root }
    requires its { shared.now.sys.now ≡ sys.now }
    requires lamp { IsLamp sys.now }
    requires bells { AreBellsOf sys.now bells.now }
    requires bell_root { handed.IsBellRootOf bells.now bell_root.old }
{
    let (_, _, last) = triple(shared, root, sys)?;
    let Ok(mut lane) = bells.bell(alloc, bell_root, last, 0) else {
        return None;
    };
    post_both(&mut lane)
}

/// The same over tables and bells of a lamp.
fn post_twice(alloc: Global, sys: &System) -> Option<Answers>
    requires sound { IsSound sys.now }
    requires lamp { IsLamp sys.now }
{
    let Ok((shared, root)) = Shared::new(alloc, sys) else {
        return None;
    };
    let Ok((bells, mut bell_root)) = Bells::new(alloc, sys) else {
        return None;
    };
    post_over(alloc, sys, &shared, root, &bells, &mut bell_root)
}

/// What two posts answer over a lamp with this queue, and the notes behind each.
fn posts(alloc: Global, queue: u8) -> Option<Answers> {
    let sys = lamp(alloc, queue)?;
    if is_lamp(&sys) {
        post_twice(alloc, &sys)
    } else {
        None
    }
}

#[test]
fn posts_ring(rt: HostRuntime) {
    assert_eq!(rt; posts(rt.alloc(), 1), Some(((1, 1), (1, 2))));
}

#[test]
fn refused_posts_do_not(rt: HostRuntime) {
    assert_eq!(rt; posts(rt.alloc(), 0), Some(((1, 1), (0, 1))));
}
