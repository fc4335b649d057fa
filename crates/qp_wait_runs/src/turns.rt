//! Turns of the waiting port.

ghost use Rattle.std.specs.Prelude.{◌≡◌};
ghost use Rattle.qp_wait.specs.Handed.{OpensFor, bell_view};
ghost use Rattle.qp_wait_runs.specs.Ending.{IsOffCount};

use qp_base::Tells;
use qp_dispatch::Turn;
use qp_model::System;
use qp_port_lanes::{Home, is_idle, object_turn};
use qp_port_phases::Rounds;
use qp_port_runs::{Beside, Turns};
use qp_told::Told;
use qp_wait::{BellLane, wait_turn};
use std::sync::Wait;

/// A source has taken part in a round: it is off the count, and where its turn has stopped, every parker is noted.
fn source_over(ops: &mut BellLane<'_>, turn: &Turn)
    ensures over { IsOffCount turn.now ops.old ops.new }
    ensures still { bell_view ops.new ≡ bell_view ops.old }
{
    ops.away();
    if !is_idle(turn) {
        ops.farewell();
    }
}

/// Turns of the waiting port: an object's parks where its queue is found empty. Where a lane has no thread of its own nobody could wake
/// it there, so objects take turns of the port then. The sources that take a turn next are on the count; each is off it behind its
/// turn, and notes every parker where it has stopped.
#[derive(Clone, Copy)]
pub(crate) struct WaitTurns<'b> {
    pub(crate) rounds: &'b Rounds,
}

impl<'a> Turns<BellLane<'a>> for WaitTurns<'_> {
    ghost called = { λ n a b. OpensFor n a b };

    ghost over = { λ t a b. IsOffCount t a b };

    fn object<R: Wait, G: Tells>(
        &self,
        rt: &R,
        ops: &mut BellLane<'a>,
        sys: &System,
        home: &mut Home,
        lane: u32,
        budget: u32,
        gate: &mut Told<'_, G>,
    ) -> Turn {
        if self.rounds.are_given_up() {
            return object_turn(rt, ops, sys, home, lane, budget, gate);
        }
        wait_turn(rt, ops, sys, home, lane, budget, gate)
    }

    fn beside(&self, ops: &mut BellLane<'a>, what: Beside) {
        match what {
            Beside::Round(sources) => ops.phase(sources),
            Beside::Over(turn) => source_over(ops, &turn),
        }
    }
}
