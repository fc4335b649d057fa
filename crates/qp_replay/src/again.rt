//! A world of one thread that makes a journal's records once more.

ghost use Rattle.std.specs.Prelude.{◌≡◌, ◌≤◌, length, IfOk, OnOk};
ghost use Rattle.qp_model.specs.Lawful.{Lawful};
ghost use Rattle.qp_model.specs.Places.{IsSerial};
ghost use Rattle.qp_model.specs.Sound.{IsSound};
ghost use Rattle.qp_plain.specs.NewWorld.{lanes_in};
ghost use Rattle.qp_replay.specs.Remaining.{record_place};
ghost use Rattle.qp_replay.specs.RerunLaws.{record_at, with_next};
ghost use Rattle.qp_replay.specs.Rerun.{MayGoNext, IsRerun, world_in};
ghost use Rattle.qp_stim.specs.Rules.{StimuliFit};

use crate::marks::At;
use crate::places::Places;
use arrayvec::ArrayVec;
use qp_base::Memory;
use qp_model::{Journal, Lanes, Rec, Stimuli, System};
use qp_plain::PlainWorld;
use std::alloc::Global;

/// A copy of a record.
fn copy_of(rec: &Rec) -> Rec
    ensures { result ≡ rec.now }
{
    let mut nums = ArrayVec::new();
    let _ = nums.try_extend_from_slice(rec.nums.as_slice());
    Rec {
        kind: rec.kind,
        of: rec.of,
        nums,
    }
}

/// How many lanes there are.
fn count(lanes: &Lanes) -> u32
    requires { length lanes.now ≤ 49 }
    ensures { result ≡ length lanes.now }
{
    lanes.items.len() as u32
}

/// Makes the record at this place, at the end of its lane.
fn make(world: &mut PlainWorld<'_>, lanes: &Lanes, at: At) -> Result<(), Memory>
    requires { MayGoNext lanes.now (record_place at.lane at.place) world.old }
    ensures made { OnOk result (world_in world.new ≡ with_next (world_in world.old) at.lane (record_at lanes.now (record_place at.lane at.place))) }
    ensures sys { OnOk result (world.new.sys.now ≡ world.old.sys.now) }
    ensures lanes { OnOk result (lanes_in world.new ≡ lanes_in world.old) }
{
    let lane = &lanes.items[at.lane as usize];
    let rec = copy_of(&lane.items[at.place as usize]);
    let _ = world.go(at.lane);
    world.place_for(&rec)?;
    world.repeat(rec);
    Ok(())
}

/// A new world of one thread in which the records of the journal are made, one after another along the order. The stimuli say of
/// which journals this can be asked, and nothing else.
pub fn rerun<'a>(
    alloc: Global,
    sys: &'a System,
    _stim: &Stimuli,
    j: &Journal,
    order: &Places,
) -> Result<PlainWorld<'a>, Memory>
    requires sound { IsSound sys.now }
    requires fit { StimuliFit sys.now _stim.now }
    requires lawful { Lawful sys.now _stim.now j.now }
    requires serial { IsSerial j.now.lanes order.now }
    ensures { IfOk result (λ w. IsRerun sys.now j.now.lanes order.now w) }
{
    let mut world = PlainWorld::new(alloc, sys, count(&j.lanes))?;
    for at in &order.items {
        make(&mut world, &j.lanes, *at)?;
    }
    Ok(world)
}
