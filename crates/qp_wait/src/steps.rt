//! The steps of a turn. Code over any lanes gets the ringing lane alone: it leaves what else the lane counts as it is.

ghost use Rattle.std.specs.Prelude.{◌≡◌, ◌≤◌, false};
ghost use Rattle.qp_model.specs.Sound.{IsSound};
ghost use Rattle.qp_model.specs.Limits.{budget_limit};
ghost use Rattle.qp_kernel_turns.specs.Lanes.{LaneTo};
ghost use Rattle.qp_told.specs.Steps.{TellsSteps};
ghost use Rattle.qp_port_lanes.specs.At.{IsBusyHome, IsHome};
ghost use Rattle.qp_port_lanes.specs.Takes.{BeginTakes, FinishTakes};
ghost use Rattle.qp_port_lanes.specs.Turning.{NextTo, HomeStepsTo, UnsetFirst};
ghost use Rattle.qp_wait.specs.Lane.{bell_view};
ghost use Rattle.qp_wait.specs.Steps.{ClosesStep, FinishesStep, KeepsCounts};

use crate::lane::BellLane;
use qp_base::Tells;
use qp_kernel_turns::Halt;
use qp_model::System;
use qp_port_lanes::{Home, begin_step, finish_step};
use qp_told::Told;
use std::sync::Wait;

/// Takes the next entry, and begins its step. False where the queue was found empty.
pub(crate) fn begin<R: Wait, G: Tells>(
    rt: &R,
    lane: &mut BellLane<'_>,
    sys: &System,
    home: &mut Home,
    number: u32,
    budget: u32,
    gate: &mut Told<'_, G>,
) -> Result<bool, Halt>
    requires sound { IsSound sys.now }
    requires few { budget ≤ budget_limit }
    requires knows { IsHome sys.now budget home.old (bell_view lane.old) }
    ensures goes { NextTo sys.now budget home.old.me home.new (bell_view lane.new) result }
    ensures lane { LaneTo false (bell_view lane.old) (bell_view lane.new) result }
    ensures same { home.new.me ≡ home.old.me }
    ensures takes { BeginTakes home.old home.new (bell_view lane.old).told (bell_view lane.new).told result }
    ensures unset { UnsetFirst (bell_view lane.old) result }
    ensures counts { KeepsCounts lane.old lane.new }
    ensures tells { TellsSteps home.old.object.taken home.new.object.taken gate.old.steps.list gate.new.steps.list }
{
    begin_step(rt, &mut lane.ringing, sys, home, number, budget, gate)
}

/// The step under way goes on to its end.
fn go_on<R: Wait>(
    rt: &R,
    lane: &mut BellLane<'_>,
    sys: &System,
    home: &mut Home,
    budget: u32,
) -> Result<(), Halt>
    requires sound { IsSound sys.now }
    requires knows { IsBusyHome sys.now budget false home.old (bell_view lane.old) }
    ensures goes { HomeStepsTo sys.now budget home.old.me home.new (bell_view lane.new) result }
    ensures lane { LaneTo false (bell_view lane.old) (bell_view lane.new) result }
    ensures same { home.new.me ≡ home.old.me }
    ensures takes { FinishTakes home.old home.new (bell_view lane.old).told (bell_view lane.new).told result }
    ensures counts { KeepsCounts lane.old lane.new }
    ensures kept { home.new.object.taken ≡ home.old.object.taken }
{
    finish_step(rt, &mut lane.ringing, sys, home, budget)
}

/// Behind a step one is taken off the count. Where that leaves nothing there for the first time in a turn, every parker is noted; `said`
/// tells that it was.
fn close(lane: &mut BellLane<'_>, said: &mut bool)
    ensures { ClosesStep said.old said.new lane.old lane.new }
{
    if lane.close() && !*said {
        lane.farewell();
        *said = true;
    }
}

/// The step under way goes on to its end, and is closed.
pub(crate) fn finish<R: Wait>(
    rt: &R,
    lane: &mut BellLane<'_>,
    sys: &System,
    home: &mut Home,
    budget: u32,
    said: &mut bool,
) -> Result<(), Halt>
    requires sound { IsSound sys.now }
    requires knows { IsBusyHome sys.now budget false home.old (bell_view lane.old) }
    ensures goes { HomeStepsTo sys.now budget home.old.me home.new (bell_view lane.new) result }
    ensures lane { LaneTo false (bell_view lane.old) (bell_view lane.new) result }
    ensures same { home.new.me ≡ home.old.me }
    ensures takes { FinishTakes home.old home.new (bell_view lane.old).told (bell_view lane.new).told result }
    ensures counts { FinishesStep said.old said.new lane.old lane.new result }
    ensures kept { home.new.object.taken ≡ home.old.object.taken }
{
    go_on(rt, lane, sys, home, budget)?;
    close(lane, said);
    Ok(())
}
