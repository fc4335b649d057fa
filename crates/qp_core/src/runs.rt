//! Steps of any seat, and runs of schedules.

ghost use Rattle.std.specs.Prelude.{◌≡◌, ◌<◌, ◌≤◌};
ghost use Rattle.qp_model.specs.Sound.{IsSound};
ghost use Rattle.qp_core_steps.specs.Words.{StepsAs};
ghost use Rattle.std.specs.List.{position};
ghost use Rattle.qp_core.specs.State.{stands_as, may_apply, Applies};
ghost use Rattle.qp_core.specs.Runs.{HoldsOf, EndsAs};

use crate::splits::{join, split, step_at};
use crate::state::{CoreState, seat_place};
use qp_base::Memory;
use qp_core_steps::Op;
use qp_model::System;
use std::alloc::Global;

/// Why a schedule wasn't run to its end.
#[derive(Clone, Copy, PartialEq, Eq, Debug)]
pub enum CoreFault {
    /// No memory was left.
    Memory,
    /// The place of the first step that isn't allowed, from 0.
    NotAllowed { place: u64 },
}

/// Where the seat of this number is that stands.
fn place_in(s: &CoreState<'_>, number: u32) -> Option<usize>
    ensures { result ≡ position (stands_as number) s.now.seats }
{
    seat_place(&s.seats, number)
}

/// How many seats have a lane of their own.
fn lanes_in(s: &CoreState<'_>) -> u32
    ensures { result ≡ s.now.lanes }
{
    s.lanes
}

/// The system of the table.
fn system_of<'a>(s: &CoreState<'a>) -> &'a System
    ensures { result.now ≡ s.now.sys.now }
{
    s.sys
}

/// Makes one step of the seat `lane`. False exactly where the seat may not take it; nothing has changed then, nor where
/// memory was refused. The rule of the event table stands after it (docs/EVENT_TABLE.md).
pub fn apply(alloc: Global, s: &mut CoreState<'_>, lane: u32, op: &Op) -> Result<bool, Memory>
    ensures one { StepsAs (may_apply s.old lane op.now) (Applies s.old lane op.now s.new) (s.new ≡ s.old) result }
    ensures kept { HoldsOf s.old → HoldsOf s.new }
{
    let sys = system_of(s);
    let lanes = lanes_in(s);
    let Some(at) = place_in(s, lane) else {
        return Ok(false);
    };
    match op {
        Op::Split { into, serves } => split(alloc, lanes, &mut s.seats, at, *into, *serves),
        Op::Join { from } => join(alloc, &mut s.seats, at, *from),
        _ => step_at(alloc, sys, lanes, &mut s.words, &mut s.seats, at, op),
    }
}

/// Makes the steps of a schedule, each a seat and what it does, from the table where nothing has happened.
pub fn run<'a>(
    alloc: Global,
    sys: &'a System,
    lanes: u32,
    schedule: &[(u32, Op)],
) -> Result<CoreState<'a>, CoreFault>
    requires sound { IsSound sys.now }
    requires some { 0 < lanes }
    requires few { lanes ≤ 49 }
    ensures { EndsAs sys.now lanes schedule.now result }
{
    let Ok(mut s) = CoreState::new(alloc, sys, lanes) else {
        return Err(CoreFault::Memory);
    };
    for (place, (lane, op)) in schedule.iter().enumerate() {
        let Ok(made) = apply(alloc, &mut s, *lane, op) else {
            return Err(CoreFault::Memory);
        };
        if !made {
            return Err(CoreFault::NotAllowed {
                place: place as u64,
            });
        }
    }
    Ok(s)
}
