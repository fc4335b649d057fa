//! The calls of a lane: those of the ringing one.

use crate::lane::BellLane;
use qp_base::{Ev, Steps};
use qp_calls::{Arm, Claim, Counts, Dec, Fresh, Give, HeldEntry, Hold, Ops, RoomFault, Take, Tick};
use qp_model::Rec;
use std::sync::Wait;
use std::sync::ledger::Ledger;

impl Ops for BellLane<'_> {
    ghost use Rattle.qp_wait.specs.Lane.{bell_view};
    ghost use Rattle.qp_wait.specs.LaneLaws.{keeps-limit, has-causes};

    ghost lane = { bell_view };

    fn room(&mut self) -> Result<(), RoomFault> {
        self.ringing.room()
    }

    fn by(&mut self, o: u8) -> u8 {
        self.ringing.by(o)
    }

    fn note(&mut self, r: Rec) {
        self.ringing.note(r);
    }

    fn give<L: Ledger>(
        &mut self,
        pool: u8,
        reserve: Option<u8>,
        ev: &Ev,
        steps: &mut Steps<L>,
    ) -> Give {
        self.ringing.give(pool, reserve, ev, steps)
    }

    fn first(&mut self, f: Fresh) -> Hold {
        self.ringing.first(f)
    }

    fn inc(&mut self, h: &Hold) -> Hold {
        self.ringing.inc(h)
    }

    fn dec(&mut self, h: Hold) -> Dec {
        self.ringing.dec(h)
    }

    fn back(&mut self, f: Fresh) {
        self.ringing.back(f);
    }

    fn sig(&mut self, h: &Hold) -> u16 {
        self.ringing.sig(h)
    }

    fn par(&mut self, h: &Hold, j: usize) -> u64 {
        self.ringing.par(h, j)
    }

    fn claim<L: Ledger>(
        &mut self,
        to: u8,
        e: HeldEntry,
        margin: Option<u8>,
        steps: &mut Steps<L>,
    ) -> Claim {
        self.ringing.claim(to, e, margin, steps)
    }

    fn lifo<L: Ledger>(&mut self, e: HeldEntry, steps: &mut Steps<L>) -> Claim {
        self.ringing.lifo(e, steps)
    }

    fn take<R: Wait>(&mut self, rt: &R, me: u8) -> Take {
        self.ringing.take(rt, me)
    }

    fn seen(&mut self, p: u8) -> Counts {
        self.ringing.seen(p)
    }

    fn counts(&mut self, p: u8) -> Counts {
        self.ringing.counts(p)
    }

    fn subscribe(&mut self, sig: u16) -> bool {
        self.ringing.subscribe(sig)
    }

    fn unsubscribe(&mut self, sig: u16) -> bool {
        self.ringing.unsubscribe(sig)
    }

    fn subscribers(&mut self, sig: u16) -> u32 {
        self.ringing.subscribers(sig)
    }

    fn arm<L: Ledger>(&mut self, t: u8, ticks: u16, interval: u16, steps: &mut Steps<L>) -> Arm {
        self.ringing.arm(t, ticks, interval, steps)
    }

    fn disarm<L: Ledger>(&mut self, t: u8, steps: &mut Steps<L>) -> u16 {
        self.ringing.disarm(t, steps)
    }

    fn rearm<L: Ledger>(&mut self, t: u8, ticks: u16, steps: &mut Steps<L>) -> u16 {
        self.ringing.rearm(t, ticks, steps)
    }

    fn tick_one<L: Ledger>(&mut self, t: u8, steps: &mut Steps<L>) -> Tick {
        self.ringing.tick_one(t, steps)
    }

    fn stop(&mut self, code: u8) {
        self.ringing.stop(code);
    }

    fn stopped(&mut self) -> Option<u8> {
        self.ringing.stopped()
    }

    fn leave(&mut self, e: HeldEntry) {
        self.ringing.leave(e);
    }

    fn leave_fresh(&mut self, f: Fresh) {
        self.ringing.leave_fresh(f);
    }

    ghost within = { keeps-limit };

    ghost causes = { has-causes };
}
