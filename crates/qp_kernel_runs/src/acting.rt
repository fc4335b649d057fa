//! A source acts.

ghost use Rattle.std.specs.Prelude.{◌≡◌, ◌≢◌, ◌<◌, [], ◌∷◌, List, false, length};
ghost use Rattle.qp_model.specs.Sound.{IsSound};
ghost use Rattle.qp_model.specs.declared.stimulus.Stim.{Stim};
ghost use Rattle.qp_model.specs.declared.stimulus.Stim.TheVariants as stim;
ghost use Rattle.qp_stim.specs.Rules.{StimuliFit};
ghost use Rattle.qp_plain.specs.WorldView.{world_view};
ghost use Rattle.qp_kernel_runs.specs.Acting.{is_halt};

use crate::visiting::visit;
use crate::world::SimWorld;
use qp_base::Steps;
use qp_calls_stimulus::Stimulated;
use qp_model::System;
use std::sync::ledger::Ledger;

/// Whether the run goes on no more.
fn stops_run(answer: Stimulated) -> bool
    ensures { result ≡ is_halt answer }
{
    match answer {
        Stimulated::Done => false,
        Stimulated::Tried | Stimulated::Stopped | Stimulated::Memory => true,
    }
}

impl SimWorld<'_> {
    ghost use Rattle.qp_kernel_runs.specs.Acting.{HasActed};
    ghost use Rattle.qp_kernel_runs.specs.Choosing.{left_of};
    ghost use Rattle.qp_kernel_runs.specs.Visiting.{Rests};

    /// The source in this place, from 0, does its next stimulus.
    pub(crate) fn act<L: Ledger>(
        &mut self,
        j: usize,
        sys: &System,
        look: u32,
        steps: &mut Steps<L>,
    ) -> Stimulated
        requires live { self.old.halted ≡ false }
        requires made_for { (world_view self.old.plain).sys ≡ sys.now }
        requires sound { IsSound sys.now }
        requires fit { StimuliFit sys.now self.old.stim.now }
        requires place { j < length self.old.stim.now }
        requires left { left_of self.old.stim.now self.old.begun.items j ≢ [] }
        requires rests { (ss : List Stim) → left_of self.old.stim.now self.old.begun.items j ≡ stim.Settle ∷ ss → Rests
            (world_view self.old.plain) }
        ensures { HasActed j sys.now look self.old self.new result }
    {
        let stimuli = self.stim;
        let mine = &stimuli.sources[j];
        let at = self.begun[j];
        let s = &mine.items[at as usize];
        let place = at + 1;
        let source = j as u32 + 1;
        let (answer, now) = visit(
            &mut self.plain,
            &self.done,
            source,
            sys,
            s,
            place,
            look,
            steps,
        );
        self.done = now;
        self.begun[j] = place;
        self.last = source;
        self.halted = stops_run(answer);
        answer
    }
}
