//! How objects take their turns over lanes of a kind.

ghost use Rattle.std.specs.Prelude.{ℕ, ◌≡◌, ◌≤◌, false};
ghost use Rattle.qp_dispatch.specs.declared.objects.Turn.{Turn};
ghost use Rattle.qp_model.specs.Sound.{IsSound};
ghost use Rattle.qp_model.specs.Limits.{budget_limit};
ghost use Rattle.qp_kernel_turns.specs.Lanes.{LaneTurns};
ghost use Rattle.qp_told.specs.Steps.{TellsSteps};
ghost use Rattle.qp_port_lanes.specs.At.{IsHome};
ghost use Rattle.qp_port_lanes.specs.Turning.{HomeTurns};
ghost use Rattle.qp_port.specs.Beside.{Does};

use crate::beside::Beside;
use qp_base::Tells;
use qp_calls::Ops;
use qp_dispatch::Turn;
use qp_model::System;
use qp_port_lanes::{Home, object_turn};
use qp_told::Told;
use std::sync::Wait;

/// How an object takes its turn over lanes of this kind, and what the lane of a source does behind one.
pub trait Turns<O: Ops> {
    /// What a lane does where so many sources take a turn next.
    ghost called: { ℕ → O → O → Type 0 };

    /// What the lane of a source does behind a turn with this answer.
    ghost over: { Turn → O → O → Type 0 };

    /// The turn of an object, with the conditions of `object_turn` and all of its clauses but `never`, which turns that wait lack.
    fn object<R: Wait, G: Tells>(
        &self,
        rt: &R,
        ops: &mut O,
        sys: &System,
        home: &mut Home,
        lane: u32,
        budget: u32,
        gate: &mut Told<'_, G>,
    ) -> Turn
        requires sound { IsSound sys.now }
        requires few { budget ≤ budget_limit }
        requires knows { IsHome sys.now budget home.old (O.lane ops.old) }
        ensures goes { HomeTurns sys.now budget home.old.me home.new (O.lane ops.new) result }
        ensures lane { LaneTurns false (O.lane ops.old) (O.lane ops.new) result }
        ensures same { home.new.me ≡ home.old.me }
        ensures tells { TellsSteps home.old.object.taken home.new.object.taken gate.old.steps.list gate.new.steps.list };

    /// What the lane does where it is told so. It stands as it stood.
    fn beside(&self, ops: &mut O, what: Beside)
        ensures does { Does called over what ops.old ops.new }
        ensures still { O.lane ops.new ≡ O.lane ops.old };
}

/// Turns of the port: an object's ends where its queue is found empty, and nothing comes behind a source's.
#[derive(Clone, Copy)]
pub struct PortTurns;

impl<O: Ops> Turns<O> for PortTurns {
    ghost called = { λ n a b. b ≡ a };

    ghost over = { λ t a b. b ≡ a };

    fn object<R: Wait, G: Tells>(
        &self,
        rt: &R,
        ops: &mut O,
        sys: &System,
        home: &mut Home,
        lane: u32,
        budget: u32,
        gate: &mut Told<'_, G>,
    ) -> Turn {
        object_turn(rt, ops, sys, home, lane, budget, gate)
    }

    fn beside(&self, ops: &mut O, what: Beside) {
        let _ = ops;
        match what {
            Beside::Round(_) | Beside::Over(_) => {}
        }
    }
}
