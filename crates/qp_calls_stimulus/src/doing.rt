//! A stimulus from its record to its end.

ghost use Rattle.std.specs.Prelude.{◌≡◌, false};
ghost use Rattle.qp_model.specs.Sound.{IsSound};
ghost use Rattle.qp_stim.specs.Rules.{StimulusFits};
ghost use Rattle.qp_calls.specs.Clauses.{IsFault};
ghost use Rattle.qp_calls.specs.Notes.{spills_told};
ghost use Rattle.qp_calls_stimulus.specs.Stimulating.{StimulusHalts, StimulusTells, KeepsOwn, Stimulates};

use crate::calling::{Called, make};
use qp_base::{Steps, Tells};
use qp_calls::{Halted, Ops, RoomFault, halt};
use qp_model::{Rec, Stim, System};
use qp_told::Told;
use std::sync::ledger::Ledger;

/// What became of a stimulus.
#[derive(Debug, Clone, Copy, PartialEq, Eq)]
pub enum Stimulated {
    /// All its records came.
    Done,
    /// A settle saw an entry, and may be tried again.
    Tried,
    /// It ended in an assertion, or its lane has no room. The lane has stopped.
    Stopped,
    /// Memory was refused. The lane has stopped.
    Memory,
}

/// Stops the lane where it has no room, or memory was refused.
fn give_up<O: Ops>(ops: &mut O, fault: RoomFault) -> Stimulated
    requires fault { IsFault (O.lane ops.old) fault }
    requires spills { spills_told (O.lane ops.old).told ≡ false }
    ensures { StimulusHalts (O.lane ops.old) (O.lane ops.new) result }
{
    match halt(ops, fault) {
        Halted::Full => Stimulated::Stopped,
        Halted::Memory => Stimulated::Memory,
    }
}

/// Does the stimulus at `place` of its source, counted from 1, in the look with the number `look`, which is 0 in a run
/// with threads. The gate is told of it right behind its `stim`, with the number of the source's lane. The lane works for
/// no object. A post or a publication that is refused is done; an assertion stops the lane, and so does a lane without room.
pub fn stimulus<O: Ops, L: Ledger, G: Tells>(
    ops: &mut O,
    sys: &System,
    s: &Stim,
    place: u32,
    look: u32,
    steps: &mut Steps<L>,
    lane: u32,
    gate: &mut Told<'_, G>,
) -> Stimulated
    requires of { (O.lane ops.old).sys ≡ sys.now }
    requires sound { IsSound sys.now }
    requires none { (O.lane ops.old).by ≡ 0 }
    requires fits { StimulusFits sys.now s.now }
    requires spills { spills_told (O.lane ops.old).told ≡ false }
    ensures stimulates { Stimulates sys.now s.now place look (O.lane ops.old) (O.lane ops.new) result }
    ensures own { KeepsOwn (O.lane ops.old) (O.lane ops.new) }
    ensures tells { StimulusTells place (O.lane ops.old) (O.lane ops.new) gate.old.steps.list gate.new.steps.list result }
{
    if let Err(fault) = ops.room() {
        return give_up(ops, fault);
    }
    ops.note(Rec::stim(place, look));
    gate.tells(lane, u64::from(place));
    match make(ops, sys, s, steps) {
        Ok(Called::Whole) => Stimulated::Done,
        Ok(Called::Tried) => Stimulated::Tried,
        Ok(Called::Asserted(code)) => {
            ops.stop(code);
            Stimulated::Stopped
        }
        Err(fault) => give_up(ops, fault),
    }
}
