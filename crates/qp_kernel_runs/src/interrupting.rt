//! A look lets at most one stimulus happen.

use crate::world::SimWorld;
use qp_base::Steps;
use qp_calls::Ops;
use qp_calls_stimulus::Stimulated;
use qp_kernel::{Irq, World};
use qp_model::System;
use std::sync::Wait;
use std::sync::ledger::Ledger;

impl World for SimWorld<'_> {
    ghost use Rattle.std.specs.Prelude.{true};

    ghost acts = { true };

    fn interrupt<R: Wait, L: Ledger>(
        &mut self,
        _rt: &R,
        sys: &System,
        look: u32,
        base: bool,
        steps: &mut Steps<L>,
    ) -> Irq {
        if self.plain.stopped().is_some() {
            return Irq::Stopped;
        }
        let rests = base && self.plain.rests();
        let Some(j) = self.chosen(rests) else {
            return Irq::Nothing;
        };
        match self.act(j, sys, look, steps) {
            Stimulated::Done => Irq::Happened,
            Stimulated::Stopped => {
                let _ = self.plain.stopped();
                Irq::Stopped
            }
            Stimulated::Memory => Irq::Memory,
            // A settle acts only where every queue is empty, so none is tried in vain.
            Stimulated::Tried => Irq::Nothing,
        }
    }
}
