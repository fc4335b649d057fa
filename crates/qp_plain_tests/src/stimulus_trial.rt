//! Stimuli, one after another, in a lane.

ghost use Rattle.std.specs.Prelude.{◌≡◌, ◌<◌, IfSome};
ghost use Rattle.std.specs.List.{AllByRecursion};
ghost use Rattle.qp_model.specs.Sound.{IsSound};
ghost use Rattle.qp_stim.specs.Rules.{StimulusFits};
ghost use Rattle.qp_plain_tests.specs.StimulusTrial.{IsStimulusBase};

use qp_base::{Gate, Steps};
use qp_calls::Ops;
use qp_calls_stimulus::{Stimulated, stimulus};
use qp_model::{Lanes, Rec, Stim, System};
use qp_plain::PlainWorld;
use qp_told::Told;
use std::alloc::Global;
use std::marker::Brand;
use std::sync::ledger::{Blank, Ledger};

/// A lane when its stimuli have ended: the records, what the last stimulus answered, and the code of the stop word.
#[derive(Drop)]
pub(crate) struct Trial {
    pub(crate) lanes: Lanes,
    pub(crate) answer: Stimulated,
    pub(crate) stopped: Option<u8>,
}

/// Adds a note of no object.
fn note<O: Ops>(ops: &mut O, sys: &System) -> Option<()>
    requires { IsStimulusBase sys.now (O.lane ops.old) }
    ensures { IfSome result (λ _. IsStimulusBase sys.now (O.lane ops.new)) }
{
    let _ = sys;
    let Ok(()) = ops.room() else {
        return None;
    };
    ops.note(Rec::rest(0));
    Some(())
}

/// Adds so many notes.
fn notes<O: Ops>(ops: &mut O, sys: &System, count: u32) -> Option<()>
    requires { IsStimulusBase sys.now (O.lane ops.old) }
    ensures { IfSome result (λ _. IsStimulusBase sys.now (O.lane ops.new)) }
{
    for _i in 0..count {
        note(ops, sys)?;
    }
    Some(())
}

/// Does the stimuli in turn, up to one that doesn't come to its end, and counts its tries in a ledger of its own.
fn play<O: Ops, L: Ledger, G: Gate>(
    ops: &mut O,
    sys: &System,
    stimuli: &[Stim],
    gate: &G,
    blank: Blank,
) -> Stimulated
    requires name { blank.name ≡ L.name }
    requires parts { blank.parts ≡ L.parts }
    requires some { 0 < blank.parts }
    requires fits { AllByRecursion (StimulusFits sys.now) stimuli.now }
    requires base { IsStimulusBase sys.now (O.lane ops.old) }
{
    let mut steps = Steps::<L>::open(blank);
    let mut told = Told::new(gate);
    let mut place: u32 = 0;
    for s in stimuli {
        place = place.saturating_add(1);
        match stimulus(ops, sys, s, place, 0, &mut steps, 5, &mut told) {
            Stimulated::Done => {}
            answer => return answer,
        }
    }
    Stimulated::Done
}

/// The stimuli in a new lane, behind so many notes.
pub(crate) fn run<G: Gate>(
    alloc: Global,
    sys: &System,
    stimuli: &[Stim],
    count: u32,
    gate: &G,
) -> Option<Trial>
    requires sound { IsSound sys.now }
    requires fits { AllByRecursion (StimulusFits sys.now) stimuli.now }
{
    let Ok(mut world) = PlainWorld::new(alloc, sys, 1) else {
        return None;
    };
    notes(&mut world, sys, count)?;
    let answer = play::<PlainWorld<'_>, Brand, G>(&mut world, sys, stimuli, gate, Blank::new(1));
    let stopped = world.stopped();
    Some(Trial {
        lanes: world.finish(),
        answer,
        stopped,
    })
}
