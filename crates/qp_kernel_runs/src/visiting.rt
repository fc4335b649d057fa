//! A stimulus in the lane of its source.

ghost use Rattle.std.specs.Prelude.{◌≡◌, ◌<◌, [], false, get_or};
ghost use Rattle.qp_model.specs.Sound.{IsSound};
ghost use Rattle.qp_model.specs.declared.stimulus.Stim.TheVariants as stim;
ghost use Rattle.qp_stim.specs.Rules.{StimulusFits};
ghost use Rattle.qp_calls.specs.Notes.{spills_told};
ghost use Rattle.qp_kernel.specs.Happenings.{lane_told};
ghost use Rattle.qp_plain.specs.NewWorld.{chosen, lanes_in};
ghost use Rattle.qp_plain.specs.WorldView.{world_view};
ghost use Rattle.qp_kernel_runs.specs.Visiting.{Rests, Visits};

use crate::happened::Happened;
use qp_base::{NoGate, Steps};
use qp_calls::Ops;
use qp_calls_stimulus::{Stimulated, stimulus};
use qp_model::{Stim, System};
use qp_plain::PlainWorld;
use qp_told::Told;
use std::sync::ledger::Ledger;

/// Does the stimulus at `place` of a source, in the look with the number `look`, and comes back to lane 0. A `settle`
/// finds all queues empty.
pub(crate) fn visit<L: Ledger>(
    plain: &mut PlainWorld<'_>,
    done: &Happened,
    source: u32,
    sys: &System,
    s: &Stim,
    place: u32,
    look: u32,
    steps: &mut Steps<L>,
) -> (Stimulated, Happened)
    requires home { chosen plain.old ≡ 0 }
    requires some { 0 < source }
    requires within { source < lanes_in plain.old }
    requires made_for { (world_view plain.old).sys ≡ sys.now }
    requires sound { IsSound sys.now }
    requires fits { StimulusFits sys.now s.now }
    requires spills { spills_told (get_or (world_view plain.old).aside.told source []) ≡ false }
    requires tells { get_or (world_view plain.old).aside.told source [] ≡ lane_told source done.now.list }
    requires rests { s.now ≡ stim.Settle → Rests (world_view plain.old) }
    ensures { Visits source sys.now s.now place look done.now.list result.1.list (world_view plain.old) (world_view plain.new) result.0 }
{
    let home = plain.go(source);
    let former = plain.by(0);
    let mut told = Told::new(&NoGate);
    let answer = stimulus(plain, sys, s, place, look, steps, 0, &mut told);
    let now = done.then(plain);
    plain.by(former);
    plain.go(home);
    (answer, now)
}
