//! Lanes that are nearly full, and the stop word.

ghost use Rattle.qp_model.specs.Sound.{IsSound};

use crate::acts::Kind;
use crate::bench::system_of;
use qp_calls::{Ops, RoomFault};
use qp_model::{Rec, System};
use qp_plain::PlainWorld;
use std::alloc::Global;
use std::test::Fail;

/// Adds so many notes. None where there is no room.
fn fill<O: Ops>(ops: &mut O, count: u32) -> Option<()> {
    for _i in 0..count {
        ops.room().ok()?;
        ops.note(Rec::rest(1));
    }
    Some(())
}

/// The number of records with which a lane is full.
fn full_at<O: Ops>(ops: &mut O) -> Option<u32> {
    match ops.room() {
        Err(RoomFault::LaneFull { len }) => Some(len),
        _ => None,
    }
}

/// How many notes come, whether there was room for all of them, and with how many records the lane is full then.
const FILLS: [(u32, bool, Option<u32>); 3] = [
    (999_992, true, None),
    (1, true, Some(999_993)),
    (1, false, Some(999_993)),
];

/// Whether a lane has room for eight more records up to 999,992, and none from 999,993 on.
fn has_room_for_a_million(alloc: Global, sys: &System) -> bool
    requires { IsSound sys.now }
{
    let Ok(mut world) = PlainWorld::new(alloc, sys, 1) else {
        return false;
    };
    for (count, fit, full) in &FILLS {
        if fill(&mut world, *count).is_some() != *fit || full_at(&mut world) != *full {
            return false;
        }
    }
    true
}

/// Notes that an object is at its budget, and hands in the code of it. None where there is no room.
fn spend<O: Ops>(ops: &mut O) -> Option<()> {
    ops.room().ok()?;
    ops.note(Rec::spent(1));
    ops.stop(6);
    Some(())
}

/// Whether the first of two codes stays, and each lane finds it.
fn keeps_the_first_code(world: &mut PlainWorld<'_>) -> bool {
    if !world.rests() || world.stopped().is_some() || spend(world).is_none() {
        return false;
    }
    world.stop(7);
    let is_found = world.stopped() == Some(6);
    if world.lanes() != 2 || world.go(1) != 0 {
        return false;
    }
    world.stop(7);
    is_found && world.stopped() == Some(6)
}

/// The same in a new world of two lanes.
fn stops_once(alloc: Global, sys: &System) -> bool
    requires { IsSound sys.now }
{
    match PlainWorld::new(alloc, sys, 2) {
        Ok(mut world) => keeps_the_first_code(&mut world),
        Err(_) => false,
    }
}

#[test]
fn lanes_fill_and_stop(rt: HostRuntime) -> Result<(), Fail> {
    let sys = system_of(rt.alloc(), Kind::One(1, 1))?;
    assert!(rt; has_room_for_a_million(rt.alloc(), &sys));
    assert!(rt; stops_once(rt.alloc(), &sys));
    Ok(())
}
