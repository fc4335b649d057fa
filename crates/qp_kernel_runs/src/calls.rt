//! The calls of lane 0, which are those of the plain world.

use crate::world::SimWorld;
use qp_base::{Ev, Steps};
use qp_calls::{Arm, Claim, Counts, Dec, Fresh, Give, HeldEntry, Hold, Ops, RoomFault, Take, Tick};
use qp_model::Rec;
use std::sync::Wait;
use std::sync::ledger::Ledger;

impl<'a> Ops for SimWorld<'a> {
    ghost use Rattle.qp_kernel_runs.specs.SimView.{sim_view};
    ghost use Rattle.qp_kernel_runs.specs.SimLaws.{keeps-limit, has-causes};

    ghost lane = { sim_view };

    fn room(&mut self) -> Result<(), RoomFault> {
        self.plain.room()
    }

    fn by(&mut self, o: u8) -> u8 {
        self.plain.by(o)
    }

    fn note(&mut self, r: Rec) {
        self.plain.note(r);
    }

    fn give<L: Ledger>(
        &mut self,
        pool: u8,
        reserve: Option<u8>,
        ev: &Ev,
        steps: &mut Steps<L>,
    ) -> Give {
        self.plain.give(pool, reserve, ev, steps)
    }

    fn first(&mut self, f: Fresh) -> Hold {
        self.plain.first(f)
    }

    fn inc(&mut self, h: &Hold) -> Hold {
        self.plain.inc(h)
    }

    fn dec(&mut self, h: Hold) -> Dec {
        self.plain.dec(h)
    }

    fn back(&mut self, f: Fresh) {
        self.plain.back(f);
    }

    fn sig(&mut self, h: &Hold) -> u16 {
        self.plain.sig(h)
    }

    fn par(&mut self, h: &Hold, j: usize) -> u64 {
        self.plain.par(h, j)
    }

    fn claim<L: Ledger>(
        &mut self,
        to: u8,
        e: HeldEntry,
        margin: Option<u8>,
        steps: &mut Steps<L>,
    ) -> Claim {
        self.plain.claim(to, e, margin, steps)
    }

    fn lifo<L: Ledger>(&mut self, e: HeldEntry, steps: &mut Steps<L>) -> Claim {
        self.plain.lifo(e, steps)
    }

    fn take<R: Wait>(&mut self, rt: &R, me: u8) -> Take {
        self.plain.take(rt, me)
    }

    fn seen(&mut self, p: u8) -> Counts {
        self.plain.seen(p)
    }

    fn counts(&mut self, p: u8) -> Counts {
        self.plain.counts(p)
    }

    fn subscribe(&mut self, sig: u16) -> bool {
        self.plain.subscribe(sig)
    }

    fn unsubscribe(&mut self, sig: u16) -> bool {
        self.plain.unsubscribe(sig)
    }

    fn subscribers(&mut self, sig: u16) -> u32 {
        self.plain.subscribers(sig)
    }

    fn arm<L: Ledger>(&mut self, t: u8, ticks: u16, interval: u16, steps: &mut Steps<L>) -> Arm {
        self.plain.arm(t, ticks, interval, steps)
    }

    fn disarm<L: Ledger>(&mut self, t: u8, steps: &mut Steps<L>) -> u16 {
        self.plain.disarm(t, steps)
    }

    fn rearm<L: Ledger>(&mut self, t: u8, ticks: u16, steps: &mut Steps<L>) -> u16 {
        self.plain.rearm(t, ticks, steps)
    }

    fn tick_one<L: Ledger>(&mut self, t: u8, steps: &mut Steps<L>) -> Tick {
        self.plain.tick_one(t, steps)
    }

    fn stop(&mut self, code: u8) {
        self.plain.stop(code);
    }

    fn stopped(&mut self) -> Option<u8> {
        self.plain.stopped()
    }

    fn leave(&mut self, e: HeldEntry) {
        self.plain.leave(e);
    }

    fn leave_fresh(&mut self, f: Fresh) {
        self.plain.leave_fresh(f);
    }

    ghost within = { λ w. keeps-limit w };

    ghost causes = { λ w. has-causes w };
}
