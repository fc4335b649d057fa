//! A lane with what runs in it.

ghost use Rattle.std.specs.Prelude.{◌≡◌, refl, true};
ghost use Rattle.qp_port_lanes.specs.Answers.{is_idle, is_short};
ghost use Rattle.qp_model_order.specs.SourceRun.{untold_all};
ghost use Rattle.qp_kernel.specs.Starts.{AreStarts};
ghost use Rattle.qp_port.specs.Jobs.{LaneEndsBehind, JobIsAlone, JobTurns, TurnsFrom, is_left_in, stands_at_settle, starts_of};
ghost use Rattle.qp_port.specs.Alone.{none-alone};
ghost use Rattle.qp_port.specs.Numbers.{counts-none, none-more, uncounted};
ghost use Rattle.qp_port.specs.Workers.{IsSameWorker, MayBegin, MayTurn, same-itself, same-still, same-table};

use crate::beside::Beside;
use crate::job::{Job, end_turn, pass_job, run_job, start_job};
use crate::starting::Starts;
use crate::turns::Turns;
use qp_base::Tells;
use qp_calls::Counts;
use qp_calls_log::Meets;
use qp_dispatch::Turn;
use qp_model::System;
use qp_port_lanes::{is_idle, is_short, turn_by};
use qp_port_phases::{Passed, PhaseLane, Serves, Worker};
use std::sync::Wait;

/// A lane with its number, what runs in it, and the answer of its last turn. One whose turn has stopped takes no more: it is a lane
/// like another, and its turns do nothing.
#[derive(Drop)]
pub struct PortWorker<'a, O: Meets, G: Tells, T: Turns<O>> {
    pub(crate) lane: O,
    pub(crate) job: Job<'a>,
    pub(crate) turn: Turn,
    pub(crate) number: u32,
    pub(crate) sys: &'a System,
    pub(crate) budget: u32,
    pub(crate) gate: &'a G,
    pub(crate) turns: &'a T,
}

impl<O: Meets, G: Tells, T: Turns<O>> PortWorker<'_, O, G, T> {
    /// Whether its last turn, or its start, came to its end.
    pub(crate) fn is_idle(&self) -> bool
        ensures { result ≡ is_idle self.now.turn }
    {
        is_idle(&self.turn)
    }

    /// Whether it ended for want of memory.
    pub(crate) fn is_short(&self) -> bool
        ensures { result ≡ is_short self.now.turn }
    {
        is_short(&self.turn)
    }

    /// Takes its turn, where it rests.
    fn run<R: Wait>(&mut self, rt: &R)
        requires ready { MayTurn self.old.sys.now self.old.budget self.old.turn self.old.job (O.lane self.old.lane) }
        requires idle { is_idle self.old.turn ≡ true }
        ensures ready { MayTurn self.new.sys.now self.new.budget self.new.turn self.new.job (O.lane self.new.lane) }
        ensures same { IsSameWorker self.old.sys.now self.new.sys.now self.old.budget self.new.budget self.old.job self.new.job (O.lane self.old.lane) (O.lane self.new.lane) }
        ensures turns { JobTurns self.old.sys.now self.old.budget self.old.job self.new.job (O.lane self.old.lane) (O.lane self.new.lane) self.new.turn }
    {
        self.turn = run_job(
            rt,
            &mut self.lane,
            self.sys,
            &mut self.job,
            self.number,
            self.budget,
            self.gate,
            self.turns,
        );
    }

    /// Takes its turn, where it rests; else it does nothing.
    fn take_turn<R: Wait>(&mut self, rt: &R)
        requires ready { MayTurn self.old.sys.now self.old.budget self.old.turn self.old.job (O.lane self.old.lane) }
        ensures ready { MayTurn self.new.sys.now self.new.budget self.new.turn self.new.job (O.lane self.new.lane) }
        ensures same { IsSameWorker self.old.sys.now self.new.sys.now self.old.budget self.new.budget self.old.job self.new.job (O.lane self.old.lane) (O.lane self.new.lane) }
        ensures turns { TurnsFrom self.old.sys.now self.old.budget self.old.turn self.old.job (O.lane self.old.lane) self.new.turn self.new.job (O.lane self.new.lane) }
    {
        if is_idle(&self.turn) {
            self.run(rt);
        }
    }
}

impl<O: Meets + Send, G: Tells + Sync, T: Turns<O> + Sync> Worker for PortWorker<'_, O, G, T> {
    ghost ready = { λ w. MayTurn w.sys.now w.budget w.turn w.job (O.lane w.lane) };

    ghost turned = { λ a b. MayTurn b.sys.now b.budget b.turn b.job (O.lane b.lane) × IsSameWorker a.sys.now b.sys.now a.budget b.budget a.job b.job (O.lane a.lane) (O.lane b.lane)
        × TurnsFrom a.sys.now a.budget a.turn a.job (O.lane a.lane) b.turn b.job (O.lane b.lane) × LaneEndsBehind O.lane T.over b.job b.turn b.lane };

    fn turn<R: Wait>(&mut self, rt: &R) {
        self.take_turn(rt);
        end_turn(self.turns, &mut self.lane, &self.job, &self.turn);
    }
}

impl<O: Meets + Send, G: Tells + Sync, T: Turns<O> + Sync> PhaseLane for PortWorker<'_, O, G, T> {
    ghost view = { λ w. O.lane w.lane };

    ghost waits = { λ w. stands_at_settle w.job };

    ghost remains = { λ w. is_left_in w.job };

    ghost numbers = { λ w. uncounted };

    ghost same = { λ a b. IsSameWorker a.sys.now b.sys.now a.budget b.budget a.job b.job (O.lane a.lane) (O.lane b.lane) };

    ghost rests = { λ w. is_idle w.turn };

    ghost rowless = { λ w. true };

    ghost called = { λ n a b. T.called n a.lane b.lane };

    fn meet(&mut self, other: &mut Self) {
        self.lane.meet(&mut other.lane);
    }

    fn at_settle(&self) -> bool {
        self.job.stands_at_settle()
    }

    fn left(&self) -> bool {
        self.job.is_left()
    }

    fn at_rest(&self) -> bool {
        self.is_idle()
    }

    fn is_rowless(&self) -> bool {
        true
    }

    fn serves(&self) -> Serves {
        self.job.serves()
    }

    fn on_round(&mut self, sources: u32) {
        self.turns.beside(&mut self.lane, Beside::Round(sources));
    }

    fn pass_settle(&mut self) -> Passed {
        if is_idle(&self.turn) {
            let passed = pass_job(&mut self.lane, self.sys, &mut self.job, self.budget);
            self.turn = turn_by(&passed);
            return passed;
        }
        if is_short(&self.turn) {
            return Passed::Memory;
        }
        Passed::Stopped
    }

    fn counts(&mut self, p: u8) -> Counts {
        self.lane.counts(p)
    }

    fn stopped(&mut self) -> Option<u8> {
        self.lane.stopped()
    }

    ghost same_itself = { λ a. same-itself a.sys.now a.budget a.job (O.lane a.lane) };

    ghost same_still = { λ a b c h k. same-still a.sys.now b.sys.now c.sys.now a.budget b.budget c.budget a.job b.job c.job (O.lane a.lane) (O.lane b.lane) (O.lane c.lane) h k };

    ghost same_table = { λ a b h. same-table a.sys.now b.sys.now a.budget b.budget a.job b.job (O.lane a.lane) (O.lane b.lane) h };

    ghost same_hears = { λ a b h. h.hears };

    ghost same_advances = { λ a b h. h.lane.advances };

    ghost went = { λ a b h. (h.0, h.1) };

    ghost went_on = { λ a b h. counts-none (O.lane a.lane) };

    ghost went_rowless = { λ a b h is l. none-more uncounted };
}

impl<O: Meets + Send, G: Tells + Sync, T: Turns<O> + Sync> Starts for PortWorker<'_, O, G, T> {
    ghost fresh = { λ w. MayBegin w.sys.now w.budget w.turn w.job (O.lane w.lane) };

    ghost alone = { λ w. JobIsAlone w.turn w.job (O.lane w.lane) };

    ghost started = { λ w. AreStarts (starts_of w.job) (untold_all (O.lane w.lane).told) };

    fn start(&mut self) -> bool {
        self.turn = start_job(&mut self.lane, self.sys, &mut self.job, self.budget);
        is_idle(&self.turn)
    }

    ghost fresh_alone = { λ w h. none-alone w.turn w.job (O.lane w.lane) h.none };

    ghost rows_none = { λ w. refl };
}
