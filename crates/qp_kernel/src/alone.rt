//! A lane in whose looks nothing happens.

ghost use Rattle.std.specs.Prelude.{◌≡◌, false};

use crate::world::{Irq, World};
use qp_base::{Ev, Steps};
use qp_calls::{Arm, Claim, Counts, Dec, Fresh, Give, HeldEntry, Hold, Ops, RoomFault, Take, Tick};
use qp_model::{Rec, System};
use std::sync::Wait;
use std::sync::ledger::Ledger;

/// A lane whose sources are threads of their own: its looks let nothing happen, and its calls are those of the lane.
#[derive(Drop)]
pub struct Alone<O: Ops> {
    pub(crate) lane: O,
}

impl<O: Ops> Alone<O> {
    /// The lane, alone.
    pub fn new(lane: O) -> Alone<O>
        ensures { result.lane ≡ lane }
    {
        Alone { lane }
    }

    /// Gives the lane back.
    pub fn done(self) -> O
        ensures { result ≡ self.lane }
    {
        let Alone { lane } = self;
        lane
    }
}

impl<O: Ops> World for Alone<O> {
    ghost acts = { false };

    fn interrupt<R: Wait, L: Ledger>(
        &mut self,
        _rt: &R,
        _sys: &System,
        _look: u32,
        _base: bool,
        _steps: &mut Steps<L>,
    ) -> Irq {
        Irq::Nothing
    }
}

impl<O: Ops> Ops for Alone<O> {
    ghost lane = { λ s. O.lane s.lane };

    fn room(&mut self) -> Result<(), RoomFault> {
        self.lane.room()
    }

    fn by(&mut self, o: u8) -> u8 {
        self.lane.by(o)
    }

    fn note(&mut self, r: Rec) {
        self.lane.note(r);
    }

    fn give<L: Ledger>(
        &mut self,
        pool: u8,
        reserve: Option<u8>,
        ev: &Ev,
        steps: &mut Steps<L>,
    ) -> Give {
        self.lane.give(pool, reserve, ev, steps)
    }

    fn first(&mut self, f: Fresh) -> Hold {
        self.lane.first(f)
    }

    fn inc(&mut self, h: &Hold) -> Hold {
        self.lane.inc(h)
    }

    fn dec(&mut self, h: Hold) -> Dec {
        self.lane.dec(h)
    }

    fn back(&mut self, f: Fresh) {
        self.lane.back(f);
    }

    fn sig(&mut self, h: &Hold) -> u16 {
        self.lane.sig(h)
    }

    fn par(&mut self, h: &Hold, j: usize) -> u64 {
        self.lane.par(h, j)
    }

    fn claim<L: Ledger>(
        &mut self,
        to: u8,
        e: HeldEntry,
        margin: Option<u8>,
        steps: &mut Steps<L>,
    ) -> Claim {
        self.lane.claim(to, e, margin, steps)
    }

    fn lifo<L: Ledger>(&mut self, e: HeldEntry, steps: &mut Steps<L>) -> Claim {
        self.lane.lifo(e, steps)
    }

    fn take<R: Wait>(&mut self, rt: &R, me: u8) -> Take {
        self.lane.take(rt, me)
    }

    fn seen(&mut self, p: u8) -> Counts {
        self.lane.seen(p)
    }

    fn counts(&mut self, p: u8) -> Counts {
        self.lane.counts(p)
    }

    fn subscribe(&mut self, sig: u16) -> bool {
        self.lane.subscribe(sig)
    }

    fn unsubscribe(&mut self, sig: u16) -> bool {
        self.lane.unsubscribe(sig)
    }

    fn subscribers(&mut self, sig: u16) -> u32 {
        self.lane.subscribers(sig)
    }

    fn arm<L: Ledger>(&mut self, t: u8, ticks: u16, interval: u16, steps: &mut Steps<L>) -> Arm {
        self.lane.arm(t, ticks, interval, steps)
    }

    fn disarm<L: Ledger>(&mut self, t: u8, steps: &mut Steps<L>) -> u16 {
        self.lane.disarm(t, steps)
    }

    fn rearm<L: Ledger>(&mut self, t: u8, ticks: u16, steps: &mut Steps<L>) -> u16 {
        self.lane.rearm(t, ticks, steps)
    }

    fn tick_one<L: Ledger>(&mut self, t: u8, steps: &mut Steps<L>) -> Tick {
        self.lane.tick_one(t, steps)
    }

    fn stop(&mut self, code: u8) {
        self.lane.stop(code);
    }

    fn stopped(&mut self) -> Option<u8> {
        self.lane.stopped()
    }

    fn leave(&mut self, e: HeldEntry) {
        self.lane.leave(e);
    }

    fn leave_fresh(&mut self, f: Fresh) {
        self.lane.leave_fresh(f);
    }

    ghost within = { λ s. O.within s.lane };

    ghost causes = { λ s. O.causes s.lane };
}
