//! The turn.

ghost use Rattle.std.specs.Prelude.{◌≡◌, ◌≤◌, false};
ghost use Rattle.qp_model.specs.Sound.{IsSound};
ghost use Rattle.qp_model.specs.Limits.{budget_limit};
ghost use Rattle.qp_kernel_turns.specs.Lanes.{LaneTo, LaneTurns};
ghost use Rattle.qp_told.specs.Steps.{TellsSteps};
ghost use Rattle.qp_port_lanes.specs.At.{IsHome};
ghost use Rattle.qp_port_lanes.specs.Turning.{HomeTurns, HomeLooksTo};
ghost use Rattle.qp_wait.specs.Lane.{bell_view};
ghost use Rattle.qp_wait.specs.Waiting.{RoundWaits, TurnWaits};

use crate::lane::BellLane;
use crate::pausing::{give_up, pause};
use crate::steps::{begin, finish};
use qp_base::Tells;
use qp_dispatch::Turn;
use qp_kernel_turns::Halt;
use qp_model::System;
use qp_port_lanes::Home;
use qp_told::Told;
use std::sync::Wait;

/// Goes on, with parks between, until the queue is found empty and nothing is on the count.
fn rounds<R: Wait, G: Tells>(
    rt: &R,
    lane: &mut BellLane<'_>,
    sys: &System,
    home: &mut Home,
    number: u32,
    budget: u32,
    gate: &mut Told<'_, G>,
) -> Result<(), Halt>
    requires sound { IsSound sys.now }
    requires few { budget ≤ budget_limit }
    requires knows { IsHome sys.now budget home.old (bell_view lane.old) }
    ensures goes { HomeLooksTo sys.now budget home.old.me home.new (bell_view lane.new) result }
    ensures lane { LaneTo false (bell_view lane.old) (bell_view lane.new) result }
    ensures same { home.new.me ≡ home.old.me }
    ensures waits { RoundWaits result home.new.busy lane.old lane.new }
    ensures tells { TellsSteps home.old.object.taken home.new.object.taken gate.old.steps.list gate.new.steps.list }
{
    let mut said = false;
    for _ in rt.forever() {
        if begin(rt, lane, sys, home, number, budget, gate)? {
            finish(rt, lane, sys, home, budget, &mut said)?;
        } else if !lane.has_found(home.priority()) {
            give_up(lane);
            return Err(Halt::Memory);
        } else if !pause(rt, lane, home.priority())? {
            return Ok(());
        }
    }
    unreachable!()
}

/// The turn of an object in the waiting port: it takes entries and dispatches each to its end, behind which one is taken off the count.
/// Where its queue is found empty it looks at the count. Where nothing is there the turn is over; else it looks at the stop word, parks
/// until it is noted, and takes again. Every parker is noted where the end of a step leaves nothing on the count, for the first time in
/// the turn, and where the turn ends otherwise. A lane that hasn't the object's parker can't wait: it ends as for want of memory.
pub fn wait_turn<R: Wait, G: Tells>(
    rt: &R,
    lane: &mut BellLane<'_>,
    sys: &System,
    home: &mut Home,
    number: u32,
    budget: u32,
    gate: &mut Told<'_, G>,
) -> Turn
    requires sound { IsSound sys.now }
    requires few { budget ≤ budget_limit }
    requires knows { IsHome sys.now budget home.old (bell_view lane.old) }
    ensures goes { HomeTurns sys.now budget home.old.me home.new (bell_view lane.new) result }
    ensures lane { LaneTurns false (bell_view lane.old) (bell_view lane.new) result }
    ensures same { home.new.me ≡ home.old.me }
    ensures waits { TurnWaits result home.new.busy lane.old lane.new }
    ensures tells { TellsSteps home.old.object.taken home.new.object.taken gate.old.steps.list gate.new.steps.list }
{
    let Err(halt) = rounds(rt, lane, sys, home, number, budget, gate) else {
        return Turn::Idle;
    };
    lane.farewell();
    match halt {
        Halt::Stopped => Turn::Stopped,
        Halt::Memory => Turn::Memory,
    }
}
