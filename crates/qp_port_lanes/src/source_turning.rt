//! The turn of a source: it does its stimuli up to the next `settle`.

ghost use Rattle.std.specs.Prelude.{◌≡◌, ◌<◌};
ghost use Rattle.qp_model.specs.Sound.{IsSound};
ghost use Rattle.qp_port_lanes.specs.CursorAt.{IsCursorAt};
ghost use Rattle.qp_port_lanes.specs.SourceTurning.{DoesNext, IsSameSource, NextBreaks, SourceTurns, BreaksOffUnlessIdle, UnsetNext};
ghost use Rattle.qp_port_lanes.specs.Tells.{NextTells, SourceTells};

use crate::cursor::Cursor;
use qp_base::{Steps, Tells};
use qp_calls::Ops;
use qp_calls_stimulus::{Stimulated, stimulus};
use qp_dispatch::Turn;
use qp_model::{Stim, System};
use qp_told::Told;
use std::marker::Brand;
use std::sync::ledger::{Blank, Ledger};

/// Does the next stimulus; where the turn ends, how. A stimulus that doesn't come to its end doesn't move the cursor.
fn do_next<O: Ops, G: Tells, L: Ledger>(
    ops: &mut O,
    sys: &System,
    source: &mut Cursor<'_>,
    gate: &mut Told<'_, G>,
    steps: &mut Steps<L>,
) -> Option<Turn>
    requires sound { IsSound sys.now }
    requires knows { IsCursorAt sys.now source.old (O.lane ops.old) }
    ensures does { DoesNext sys.now source.old source.new (O.lane ops.old) (O.lane ops.new) result }
    ensures breaks { NextBreaks sys.now source.old source.new (O.lane ops.old) (O.lane ops.new) result }
    ensures same { IsSameSource source.old source.new }
    ensures unset { UnsetNext (O.lane ops.old) result }
    ensures tells { NextTells source.old source.new (O.lane ops.old) (O.lane ops.new) gate.old.steps.list gate.new.steps.list result }
{
    if source.settling {
        return Some(Turn::Idle);
    }
    let stimuli = source.stim;
    let mine = &stimuli.sources[source.source as usize - 1];
    let at = source.begun as usize;
    if at >= mine.items.len() {
        return Some(Turn::Idle);
    }
    let s = &mine.items[at];
    if let Stim::Settle = s {
        return Some(Turn::Idle);
    }
    if let Some(_) = ops.stopped() {
        return Some(Turn::Stopped);
    }
    let place = source.begun + 1;
    let answer = stimulus(ops, sys, s, place, 0, steps, source.lane, gate);
    match answer {
        Stimulated::Done => {
            source.begun = place;
            None
        }
        Stimulated::Tried => Some(Turn::Stopped),
        Stimulated::Stopped => Some(Turn::Stopped),
        Stimulated::Memory => Some(Turn::Memory),
    }
}

/// Does the stimuli, and counts tries in a ledger of its own.
fn turn_in<O: Ops, G: Tells, L: Ledger>(
    ops: &mut O,
    sys: &System,
    source: &mut Cursor<'_>,
    gate: &mut Told<'_, G>,
    blank: Blank,
) -> Turn
    requires name { blank.name ≡ L.name }
    requires parts { blank.parts ≡ L.parts }
    requires some { 0 < blank.parts }
    requires sound { IsSound sys.now }
    requires knows { IsCursorAt sys.now source.old (O.lane ops.old) }
    ensures turns { SourceTurns sys.now source.old source.new (O.lane ops.old) (O.lane ops.new) result }
    ensures breaks { BreaksOffUnlessIdle sys.now source.old source.new (O.lane ops.old) (O.lane ops.new) result }
    ensures same { IsSameSource source.old source.new }
    ensures tells { SourceTells source.old source.new gate.old.steps.list gate.new.steps.list result }
{
    let mut steps = Steps::<L>::open(blank);
    let first = source.begun as usize;
    let stimuli = source.stim;
    let mine = &stimuli.sources[source.source as usize - 1];
    let count = mine.items.len();
    for _k in first..count {
        if let Some(turn) = do_next(ops, sys, source, gate, &mut steps) {
            return turn;
        }
    }
    Turn::Idle
}

/// The turn of a source: its stimuli from the cursor on, up to the next `settle`. `Idle` where the next is a `settle` or none is
/// left. It calls the gate behind each `stim`.
pub fn source_turn<O: Ops, G: Tells>(
    ops: &mut O,
    sys: &System,
    source: &mut Cursor<'_>,
    gate: &mut Told<'_, G>,
) -> Turn
    requires sound { IsSound sys.now }
    requires knows { IsCursorAt sys.now source.old (O.lane ops.old) }
    ensures turns { SourceTurns sys.now source.old source.new (O.lane ops.old) (O.lane ops.new) result }
    ensures breaks { BreaksOffUnlessIdle sys.now source.old source.new (O.lane ops.old) (O.lane ops.new) result }
    ensures same { IsSameSource source.old source.new }
    ensures tells { SourceTells source.old source.new gate.old.steps.list gate.new.steps.list result }
{
    turn_in::<O, G, Brand>(ops, sys, source, gate, Blank::new(1))
}
