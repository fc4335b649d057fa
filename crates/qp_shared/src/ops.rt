//! The calls of a lane.

use crate::lane::SharedLane;
use qp_base::{Ev, Steps};
use qp_calls::{Arm, Claim, Counts, Dec, Fresh, Give, HeldEntry, Hold, Ops, RoomFault, Take, Tick};
use qp_model::Rec;
use std::sync::Wait;
use std::sync::ledger::Ledger;

impl Ops for SharedLane<'_> {
    ghost use Rattle.std.specs.Prelude.{◌<◌, IsTrue};
    ghost use Rattle.qp_model.specs.WordLaw.{is_object};
    ghost use Rattle.qp_calls.specs.Clauses.{Counted, Sees, Takes};
    ghost use Rattle.qp_shared_queues.specs.Now.{EmptyNow, ReadsNow};
    ghost use Rattle.qp_shared.specs.Lane.{lane_view, seat_view};
    ghost use Rattle.qp_shared.specs.LaneLaws.{keeps-limit, has-causes};

    ghost lane = { lane_view };

    #[inline(always)]
    fn room(&mut self) -> Result<(), RoomFault> {
        qp_shared_blocks::room(&mut self.state)
    }

    fn by(&mut self, o: u8) -> u8 {
        qp_shared_blocks::by(&mut self.state, o)
    }

    fn note(&mut self, r: Rec) {
        qp_shared_blocks::note(&mut self.state, r);
    }

    fn give<L: Ledger>(
        &mut self,
        pool: u8,
        reserve: Option<u8>,
        ev: &Ev,
        steps: &mut Steps<L>,
    ) -> Give {
        qp_shared_blocks::give(&mut self.state, pool, reserve, ev, steps)
    }

    fn first(&mut self, f: Fresh) -> Hold {
        qp_shared_blocks::first(&mut self.state, f)
    }

    fn inc(&mut self, h: &Hold) -> Hold {
        qp_shared_blocks::inc(&mut self.state, h)
    }

    fn dec(&mut self, h: Hold) -> Dec {
        qp_shared_blocks::dec(&mut self.state, h)
    }

    fn back(&mut self, f: Fresh) {
        qp_shared_blocks::back(&mut self.state, f);
    }

    fn sig(&mut self, h: &Hold) -> u16 {
        qp_shared_blocks::sig(&mut self.state, h)
    }

    fn par(&mut self, h: &Hold, j: usize) -> u64 {
        qp_shared_blocks::par(&mut self.state, h, j)
    }

    #[inline(always)]
    fn claim<L: Ledger>(
        &mut self,
        to: u8,
        e: HeldEntry,
        margin: Option<u8>,
        steps: &mut Steps<L>,
    ) -> Claim {
        qp_shared_queues::claim(&mut self.state, to, e, margin, steps)
    }

    fn lifo<L: Ledger>(&mut self, e: HeldEntry, steps: &mut Steps<L>) -> Claim {
        qp_shared_queues::lifo(&mut self.state, e, steps)
    }

    #[inline(always)]
    fn take<R: Wait>(&mut self, rt: &R, me: u8) -> Take
        requires room { 0 < (lane_view self.old).spare }
        requires object { IsTrue (is_object (lane_view self.old).sys me) }
        requires serves { IsTrue ((lane_view self.old).serves me) }
        ensures takes { Takes me (lane_view self.old) (lane_view self.new) result }
        ensures now { EmptyNow me (seat_view self.old) (seat_view self.new) result }
    {
        qp_shared_queues::take(&mut self.state, rt, me)
    }

    fn seen(&mut self, p: u8) -> Counts
        requires room { 0 < (lane_view self.old).spare }
        requires object { IsTrue (is_object (lane_view self.old).sys p) }
        ensures sees { Sees p (lane_view self.old) (lane_view self.new) result }
        ensures now { ReadsNow p (seat_view self.old) (seat_view self.new) result }
    {
        qp_shared_queues::seen(&mut self.state, p)
    }

    fn counts(&mut self, p: u8) -> Counts
        requires object { IsTrue (is_object (lane_view self.old).sys p) }
        ensures counted { Counted p (lane_view self.old) (lane_view self.new) result }
        ensures now { ReadsNow p (seat_view self.old) (seat_view self.new) result }
    {
        qp_shared_queues::counts(&mut self.state, p)
    }

    fn subscribe(&mut self, sig: u16) -> bool {
        qp_shared_signals::subscribe(&mut self.state, sig)
    }

    fn unsubscribe(&mut self, sig: u16) -> bool {
        qp_shared_signals::unsubscribe(&mut self.state, sig)
    }

    fn subscribers(&mut self, sig: u16) -> u32 {
        qp_shared_signals::subscribers(&mut self.state, sig)
    }

    fn arm<L: Ledger>(&mut self, t: u8, ticks: u16, interval: u16, steps: &mut Steps<L>) -> Arm {
        qp_shared_signals::arm(&mut self.state, t, ticks, interval, steps)
    }

    fn disarm<L: Ledger>(&mut self, t: u8, steps: &mut Steps<L>) -> u16 {
        qp_shared_signals::disarm(&mut self.state, t, steps)
    }

    fn rearm<L: Ledger>(&mut self, t: u8, ticks: u16, steps: &mut Steps<L>) -> u16 {
        qp_shared_signals::rearm(&mut self.state, t, ticks, steps)
    }

    fn tick_one<L: Ledger>(&mut self, t: u8, steps: &mut Steps<L>) -> Tick {
        qp_shared_signals::tick_one(&mut self.state, t, steps)
    }

    fn stop(&mut self, code: u8) {
        qp_shared_signals::stop(&mut self.state, code);
    }

    fn stopped(&mut self) -> Option<u8> {
        qp_shared_signals::stopped(&mut self.state)
    }

    fn leave(&mut self, e: HeldEntry) {
        qp_shared_blocks::leave(&mut self.state, e);
    }

    fn leave_fresh(&mut self, f: Fresh) {
        qp_shared_blocks::leave_fresh(&mut self.state, f);
    }

    ghost within = { keeps-limit };

    ghost causes = { has-causes };
}
