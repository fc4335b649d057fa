//! The turn of an object: it takes and dispatches until its queue is found empty.

ghost use Rattle.std.specs.Prelude.{◌≡◌, ◌≤◌, false};
ghost use Rattle.qp_model.specs.Sound.{IsSound};
ghost use Rattle.qp_model.specs.Limits.{budget_limit};
ghost use Rattle.qp_kernel_turns.specs.Lanes.{LaneTo, LaneTurns};
ghost use Rattle.qp_told.specs.Steps.{TellsSteps};
ghost use Rattle.qp_port_lanes.specs.At.{IsBusyHome, IsHome};
ghost use Rattle.qp_port_lanes.specs.Takes.{BeginTakes, FinishTakes, LookTakes};
ghost use Rattle.qp_port_lanes.specs.Turning.{HomeTurns, HomeLooksTo, NeverEmpty, NextTo, StaysEmpty, HomeStepsTo, UnlessFound, NeverEmptyUnlessIdle, UnlessOver, UnsetFirst};

use crate::home::Home;
use qp_base::Tells;
use qp_calls::{Ops, Take};
use qp_dispatch::{Step, Turn};
use qp_kernel_turns::{Halt, ready};
use qp_model::{Rec, System, stops};
use qp_told::Told;
use std::sync::Wait;

/// Whether the queue was found empty in the place of a take, and is so still. This look adds no record.
fn stays_empty<O: Ops>(ops: &mut O, sys: &System, home: &Home, budget: u32) -> bool
    requires sound { IsSound sys.now }
    requires knows { IsHome sys.now budget home.now (O.lane ops.old) }
    ensures { StaysEmpty sys.now budget home.now (O.lane ops.old) (O.lane ops.new) result }
{
    let _ = sys;
    let _ = budget;
    if !home.looked {
        return false;
    }
    let now = ops.counts(home.me);
    u64::from(now.f) + u64::from(now.l) <= u64::from(now.m)
}

/// The object has taken its budget: its queue is looked at in the place of a take. It stands empty, or ends the lane.
fn look_only<O: Ops>(ops: &mut O, sys: &System, home: &mut Home, budget: u32) -> Result<(), Halt>
    requires sound { IsSound sys.now }
    requires knows { IsHome sys.now budget home.old (O.lane ops.old) }
    requires full { budget ≤ home.old.object.taken }
    requires room { 8 ≤ (O.lane ops.old).spare }
    ensures goes { HomeLooksTo sys.now budget home.old.me home.new (O.lane ops.new) result }
    ensures never { UnlessFound (O.lane ops.old) (O.lane ops.new) result }
    ensures lane { LaneTo false (O.lane ops.old) (O.lane ops.new) result }
    ensures same { home.new.me ≡ home.old.me }
    ensures takes { LookTakes home.old home.new (O.lane ops.old).told (O.lane ops.new).told result }
    ensures kept { home.new.object.taken ≡ home.old.object.taken }
{
    if stays_empty(ops, sys, home, budget) {
        return Ok(());
    }
    let me = home.me;
    let now = ops.seen(me);
    if u64::from(now.f) + u64::from(now.l) <= u64::from(now.m) {
        home.looked = true;
        return Ok(());
    }
    ops.note(Rec::spent(me));
    ops.stop(stops::SPENT);
    Err(Halt::Stopped)
}

/// Takes the next entry, and begins its step. False where the queue was found empty. An object that has taken up `budget` entries looks
/// at its queue in the place of a take. Where a step begins, the gate is called with the lane's number and the count of entries that the
/// object has taken up.
pub fn begin_step<R: Wait, O: Ops, G: Tells>(
    rt: &R,
    ops: &mut O,
    sys: &System,
    home: &mut Home,
    lane: u32,
    budget: u32,
    gate: &mut Told<'_, G>,
) -> Result<bool, Halt>
    requires sound { IsSound sys.now }
    requires few { budget ≤ budget_limit }
    requires knows { IsHome sys.now budget home.old (O.lane ops.old) }
    ensures goes { NextTo sys.now budget home.old.me home.new (O.lane ops.new) result }
    ensures never { UnlessOver (O.lane ops.old) (O.lane ops.new) result }
    ensures unset { UnsetFirst (O.lane ops.old) result }
    ensures lane { LaneTo false (O.lane ops.old) (O.lane ops.new) result }
    ensures same { home.new.me ≡ home.old.me }
    ensures takes { BeginTakes home.old home.new (O.lane ops.old).told (O.lane ops.new).told result }
    ensures tells { TellsSteps home.old.object.taken home.new.object.taken gate.old.steps.list gate.new.steps.list }
{
    ready(ops)?;
    if home.object.taken() >= budget {
        look_only(ops, sys, home, budget)?;
        return Ok(false);
    }
    match ops.take(rt, home.me) {
        Take::Taken(e) => {
            home.object.begin(e);
            home.busy = true;
            gate.tells(lane, u64::from(home.object.taken()));
            Ok(true)
        }
        Take::Empty { .. } => Ok(false),
    }
}

/// Goes on with the step under way, to its end. Where the stop word is set at a scheduling point, it stops there.
pub fn finish_step<R: Wait, O: Ops>(
    rt: &R,
    ops: &mut O,
    sys: &System,
    home: &mut Home,
    budget: u32,
) -> Result<(), Halt>
    requires sound { IsSound sys.now }
    requires knows { IsBusyHome sys.now budget false home.old (O.lane ops.old) }
    ensures goes { HomeStepsTo sys.now budget home.old.me home.new (O.lane ops.new) result }
    ensures never { NeverEmpty (O.lane ops.old) (O.lane ops.new) }
    ensures lane { LaneTo false (O.lane ops.old) (O.lane ops.new) result }
    ensures same { home.new.me ≡ home.old.me }
    ensures takes { FinishTakes home.old home.new (O.lane ops.old).told (O.lane ops.new).told result }
    ensures kept { home.new.object.taken ≡ home.old.object.taken }
{
    let _ = budget;
    for _ in rt.forever() {
        match home.object.resume(ops, sys, &mut home.ceiling) {
            Step::Point => {
                if let Some(_) = ops.stopped() {
                    return Err(Halt::Stopped);
                }
            }
            Step::Done => {
                home.busy = false;
                return Ok(());
            }
            Step::Stopped => return Err(Halt::Stopped),
            Step::Memory => return Err(Halt::Memory),
        }
    }
    unreachable!()
}

/// Goes on until the queue is found empty.
fn rounds<R: Wait, O: Ops, G: Tells>(
    rt: &R,
    ops: &mut O,
    sys: &System,
    home: &mut Home,
    lane: u32,
    budget: u32,
    gate: &mut Told<'_, G>,
) -> Result<(), Halt>
    requires sound { IsSound sys.now }
    requires few { budget ≤ budget_limit }
    requires knows { IsHome sys.now budget home.old (O.lane ops.old) }
    ensures goes { HomeLooksTo sys.now budget home.old.me home.new (O.lane ops.new) result }
    ensures never { UnlessFound (O.lane ops.old) (O.lane ops.new) result }
    ensures lane { LaneTo false (O.lane ops.old) (O.lane ops.new) result }
    ensures same { home.new.me ≡ home.old.me }
    ensures tells { TellsSteps home.old.object.taken home.new.object.taken gate.old.steps.list gate.new.steps.list }
{
    for _ in rt.forever() {
        if !begin_step(rt, ops, sys, home, lane, budget, gate)? {
            return Ok(());
        }
        finish_step(rt, ops, sys, home, budget)?;
    }
    unreachable!()
}

/// The turn of an object: it takes entries and dispatches each to its end, until its queue is found empty. An object takes up at
/// most `budget` entries in the run. Where a step begins, the gate is called with the lane's number and the count of entries that
/// the object has taken up.
pub fn object_turn<R: Wait, O: Ops, G: Tells>(
    rt: &R,
    ops: &mut O,
    sys: &System,
    home: &mut Home,
    lane: u32,
    budget: u32,
    gate: &mut Told<'_, G>,
) -> Turn
    requires sound { IsSound sys.now }
    requires few { budget ≤ budget_limit }
    requires knows { IsHome sys.now budget home.old (O.lane ops.old) }
    ensures goes { HomeTurns sys.now budget home.old.me home.new (O.lane ops.new) result }
    ensures never { NeverEmptyUnlessIdle (O.lane ops.old) (O.lane ops.new) result }
    ensures lane { LaneTurns false (O.lane ops.old) (O.lane ops.new) result }
    ensures same { home.new.me ≡ home.old.me }
    ensures tells { TellsSteps home.old.object.taken home.new.object.taken gate.old.steps.list gate.new.steps.list }
{
    match rounds(rt, ops, sys, home, lane, budget, gate) {
        Ok(()) => Turn::Idle,
        Err(Halt::Stopped) => Turn::Stopped,
        Err(Halt::Memory) => Turn::Memory,
    }
}
