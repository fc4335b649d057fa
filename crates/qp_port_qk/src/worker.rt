//! A lane with what runs in it.

ghost use Rattle.std.specs.Prelude.{◌≡◌, false, true};
ghost use Rattle.qp_port_phases.specs.Rows.{CountsOn};
ghost use Rattle.qp_port_lanes.specs.Answers.{is_idle, is_short};
ghost use Rattle.qp_model_order.specs.SourceRun.{untold_all};
ghost use Rattle.qp_kernel.specs.Starts.{AreStarts};
ghost use Rattle.qp_port_qk.specs.Alone.{blank-alone, blank-started};
ghost use Rattle.qp_port_qk.specs.Jobs.{QkJobTurns, QkTurnsFrom, qk_is_left_in, is_source, qk_stands_at_settle, QkJobIsAlone, qk_starts_of};
ghost use Rattle.qp_port_qk.specs.Numbers.{numbers_of, source-rows};
ghost use Rattle.qp_port_qk.specs.Workers.{IsSameQkWorker, QkMayBegin, QkMayEnd, QkMayTurn, qk-same-itself, qk-same-still, qk-same-table, IsBlank};

use crate::job::{QkJob, pass_job, run_job, start_job};
use crate::starting::QkStarts;
use qp_base::Tells;
use qp_calls::Counts;
use qp_calls_log::Meets;
use qp_dispatch::Turn;
use qp_kernel::World;
use qp_model::System;
use qp_port_lanes::{is_idle, is_short, turn_by};
use qp_port_phases::{Passed, PhaseLane, Serves, Worker};
use std::sync::Wait;

/// A lane, what runs in it, and the answer of its last turn. One whose turn has stopped takes no more: it is a lane like another,
/// and its turns do nothing. In the looks of its world nothing happens.
#[derive(Drop)]
pub struct QkWorker<'a, W: World + Meets, G: Tells> {
    pub(crate) lane: W,
    pub(crate) job: QkJob<'a>,
    pub(crate) turn: Turn,
    pub(crate) sys: &'a System,
    pub(crate) budget: u32,
    pub(crate) gate: &'a G,
}

impl<W: World + Meets, G: Tells> QkWorker<'_, W, G> {
    /// Whether its last turn, or its start, came to its end.
    pub(crate) fn is_idle(&self) -> bool
        ensures { result ≡ is_idle self.now.turn }
    {
        is_idle(&self.turn)
    }

    /// Whether it ended for want of memory.
    pub(crate) fn is_short(&self) -> bool
        ensures { result ≡ is_short self.now.turn }
    {
        is_short(&self.turn)
    }

    /// Takes its turn, where it rests.
    fn run<R: Wait>(&mut self, rt: &R)
        requires ready { QkMayTurn W.acts self.old.sys.now self.old.budget self.old.turn self.old.job (W.lane self.old.lane) }
        requires idle { is_idle self.old.turn ≡ true }
        ensures ready { QkMayTurn W.acts self.new.sys.now self.new.budget self.new.turn self.new.job (W.lane self.new.lane) }
        ensures same { IsSameQkWorker self.old.sys.now self.new.sys.now self.old.budget self.new.budget self.old.job self.new.job (W.lane self.old.lane) (W.lane self.new.lane) }
        ensures turns { QkJobTurns W.acts self.old.sys.now self.old.budget self.old.job self.new.job (W.lane self.old.lane) (W.lane self.new.lane) self.new.turn }
        ensures counts { CountsOn (W.lane self.old.lane) (numbers_of self.old.sys.now self.old.budget self.old.turn self.old.job (W.lane self.old.lane))
            (numbers_of self.new.sys.now self.new.budget self.new.turn self.new.job (W.lane self.new.lane)) }
    {
        self.turn = run_job(
            rt,
            &mut self.lane,
            self.sys,
            &mut self.job,
            self.budget,
            self.gate,
        );
    }
}

impl<W: World + Meets + Send, G: Tells + Sync> Worker for QkWorker<'_, W, G> {
    ghost ready = { λ w. QkMayTurn W.acts w.sys.now w.budget w.turn w.job (W.lane w.lane) };

    ghost turned = { λ a b. QkMayTurn W.acts b.sys.now b.budget b.turn b.job (W.lane b.lane) × IsSameQkWorker a.sys.now b.sys.now a.budget b.budget a.job b.job (W.lane a.lane) (W.lane b.lane)
        × CountsOn (W.lane a.lane) (numbers_of a.sys.now a.budget a.turn a.job (W.lane a.lane)) (numbers_of b.sys.now b.budget b.turn b.job (W.lane b.lane))
        × QkTurnsFrom W.acts a.sys.now a.budget a.turn a.job (W.lane a.lane) b.turn b.job (W.lane b.lane) };

    fn turn<R: Wait>(&mut self, rt: &R) {
        if is_idle(&self.turn) {
            self.run(rt);
        }
    }
}

impl<W: World + Meets + Send, G: Tells + Sync> PhaseLane for QkWorker<'_, W, G> {
    ghost view = { λ w. W.lane w.lane };

    ghost waits = { λ w. qk_stands_at_settle w.job };

    ghost remains = { λ w. qk_is_left_in w.job };

    ghost numbers = { λ w. numbers_of w.sys.now w.budget w.turn w.job (W.lane w.lane) };

    ghost same = { λ a b. IsSameQkWorker a.sys.now b.sys.now a.budget b.budget a.job b.job (W.lane a.lane) (W.lane b.lane) };

    ghost rests = { λ w. is_idle w.turn };

    ghost rowless = { λ w. is_source w.job };

    ghost called = { λ n a b. b ≡ a };

    fn meet(&mut self, other: &mut Self) {
        self.lane.meet(&mut other.lane);
    }

    fn at_settle(&self) -> bool {
        self.job.stands_at_settle()
    }

    fn left(&self) -> bool {
        self.job.is_left()
    }

    fn at_rest(&self) -> bool {
        self.is_idle()
    }

    fn is_rowless(&self) -> bool {
        self.job.is_source()
    }

    fn serves(&self) -> Serves {
        if self.job.is_source() {
            Serves::Nobody
        } else {
            Serves::Everyone
        }
    }

    fn on_round(&mut self, sources: u32) {
        let _ = sources;
    }

    fn pass_settle(&mut self) -> Passed {
        if is_idle(&self.turn) {
            let passed = pass_job(&mut self.lane, self.sys, &mut self.job, self.budget);
            self.turn = turn_by(&passed);
            return passed;
        }
        if is_short(&self.turn) {
            return Passed::Memory;
        }
        Passed::Stopped
    }

    fn counts(&mut self, p: u8) -> Counts {
        self.lane.counts(p)
    }

    fn stopped(&mut self) -> Option<u8> {
        self.lane.stopped()
    }

    ghost same_itself = { λ a. qk-same-itself a.sys.now a.budget a.job (W.lane a.lane) };

    ghost same_still = { λ a b c h k. qk-same-still a.sys.now b.sys.now c.sys.now a.budget b.budget c.budget a.job b.job c.job (W.lane a.lane) (W.lane b.lane) (W.lane c.lane) h k };

    ghost same_table = { λ a b h. qk-same-table a.sys.now b.sys.now a.budget b.budget a.job b.job (W.lane a.lane) (W.lane b.lane) h };

    ghost same_hears = { λ a b h. h.hears };

    ghost same_advances = { λ a b h. h.lane.advances };

    ghost went = { λ a b h. (h.0, h.1) };

    ghost went_on = { λ a b h. h.2 };

    ghost went_rowless = { λ a b h is l. source-rows a.sys.now b.sys.now a.budget b.budget a.job b.job (W.lane a.lane) (W.lane b.lane) h.1.job is };
}

impl<W: World + Meets + Send, G: Tells + Sync> QkStarts for QkWorker<'_, W, G> {
    ghost begins = { λ w. QkMayBegin W.acts w.sys.now w.budget w.turn w.job (W.lane w.lane) };

    ghost ended = { λ w. QkMayEnd w.sys.now w.budget w.turn w.job (W.lane w.lane) };

    ghost blank = { λ w. IsBlank w.sys.now w.job (W.lane w.lane) };

    ghost alone = { λ w. QkJobIsAlone w.sys.now w.turn w.job (W.lane w.lane) };

    ghost started = { λ w. AreStarts (qk_starts_of w.sys.now w.job) (untold_all (W.lane w.lane).told) };

    ghost blank_alone = { λ w h. blank-alone w.sys.now w.turn w.job (W.lane w.lane) h };

    ghost blank_started = { λ w h. blank-started w.sys.now w.job (W.lane w.lane) h };

    fn start(&mut self) -> bool {
        self.turn = start_job(&mut self.lane, self.sys, &mut self.job, self.budget);
        is_idle(&self.turn)
    }
}
