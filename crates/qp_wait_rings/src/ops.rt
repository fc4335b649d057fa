//! The calls of a lane, of which posts ring.

use crate::lane::{empty_at, object_of};
use crate::posts::{open_one, settle};
use crate::ringing::RingingLane;
use qp_base::{Ev, Steps};
use qp_calls::{Arm, Claim, Counts, Dec, Fresh, Give, HeldEntry, Hold, Ops, RoomFault, Take, Tick};
use qp_model::Rec;
use std::sync::Wait;
use std::sync::ledger::Ledger;

impl Ops for RingingLane<'_> {
    ghost use Rattle.std.specs.Prelude.{◌≡◌, ◌<◌, IsTrue};
    ghost use Rattle.qp_model.specs.WordLaw.{is_object};
    ghost use Rattle.qp_calls.specs.Clauses.{Counted, Sees, Stopped, Takes};
    ghost use Rattle.qp_wait_rings.specs.Lane.{found_at, found_by, ringing_view};
    ghost use Rattle.qp_wait_rings.specs.LaneLaws.{keeps-limit, has-causes};

    ghost lane = { ringing_view };

    fn room(&mut self) -> Result<(), RoomFault> {
        self.lane.room()
    }

    fn by(&mut self, o: u8) -> u8 {
        self.lane.by(o)
    }

    fn note(&mut self, r: Rec) {
        self.lane.note(r);
    }

    fn give<L: Ledger>(
        &mut self,
        pool: u8,
        reserve: Option<u8>,
        ev: &Ev,
        steps: &mut Steps<L>,
    ) -> Give {
        self.lane.give(pool, reserve, ev, steps)
    }

    fn first(&mut self, f: Fresh) -> Hold {
        self.lane.first(f)
    }

    fn inc(&mut self, h: &Hold) -> Hold {
        self.lane.inc(h)
    }

    fn dec(&mut self, h: Hold) -> Dec {
        self.lane.dec(h)
    }

    fn back(&mut self, f: Fresh) {
        self.lane.back(f);
    }

    fn sig(&mut self, h: &Hold) -> u16 {
        self.lane.sig(h)
    }

    fn par(&mut self, h: &Hold, j: usize) -> u64 {
        self.lane.par(h, j)
    }

    fn claim<L: Ledger>(
        &mut self,
        to: u8,
        e: HeldEntry,
        margin: Option<u8>,
        steps: &mut Steps<L>,
    ) -> Claim {
        open_one(self.count, &mut self.seat, &mut self.opened);
        let claim = self.lane.claim(to, e, margin, steps);
        settle(
            self.count,
            &mut self.seat,
            self.cords.as_mut_slice(),
            &mut self.refused,
            to,
            &claim,
        );
        claim
    }

    fn lifo<L: Ledger>(&mut self, e: HeldEntry, steps: &mut Steps<L>) -> Claim {
        let me = object_of(&mut self.lane);
        open_one(self.count, &mut self.seat, &mut self.opened);
        let claim = self.lane.lifo(e, steps);
        settle(
            self.count,
            &mut self.seat,
            self.cords.as_mut_slice(),
            &mut self.refused,
            me,
            &claim,
        );
        claim
    }

    fn take<R: Wait>(&mut self, rt: &R, me: u8) -> Take
        requires room { 0 < (ringing_view self.old).spare }
        requires object { IsTrue (is_object (ringing_view self.old).sys me) }
        requires serves { IsTrue ((ringing_view self.old).serves me) }
        ensures takes { Takes me (ringing_view self.old) (ringing_view self.new) result }
        ensures found { self.new.found ≡ found_by me result }
    {
        let take = self.lane.take(rt, me);
        self.found = match &take {
            Take::Taken(_) => None,
            Take::Empty { .. } => Some(me),
        };
        take
    }

    fn seen(&mut self, p: u8) -> Counts
        requires room { 0 < (ringing_view self.old).spare }
        requires object { IsTrue (is_object (ringing_view self.old).sys p) }
        ensures sees { Sees p (ringing_view self.old) (ringing_view self.new) result }
        ensures found { self.new.found ≡ found_at p result }
    {
        let now = self.lane.seen(p);
        self.found = empty_at(p, &now);
        now
    }

    fn counts(&mut self, p: u8) -> Counts
        requires object { IsTrue (is_object (ringing_view self.old).sys p) }
        ensures counted { Counted p (ringing_view self.old) (ringing_view self.new) result }
        ensures found { self.new.found ≡ found_at p result }
    {
        let now = self.lane.counts(p);
        self.found = empty_at(p, &now);
        now
    }

    fn subscribe(&mut self, sig: u16) -> bool {
        self.lane.subscribe(sig)
    }

    fn unsubscribe(&mut self, sig: u16) -> bool {
        self.lane.unsubscribe(sig)
    }

    fn subscribers(&mut self, sig: u16) -> u32 {
        self.lane.subscribers(sig)
    }

    fn arm<L: Ledger>(&mut self, t: u8, ticks: u16, interval: u16, steps: &mut Steps<L>) -> Arm {
        self.lane.arm(t, ticks, interval, steps)
    }

    fn disarm<L: Ledger>(&mut self, t: u8, steps: &mut Steps<L>) -> u16 {
        self.lane.disarm(t, steps)
    }

    fn rearm<L: Ledger>(&mut self, t: u8, ticks: u16, steps: &mut Steps<L>) -> u16 {
        self.lane.rearm(t, ticks, steps)
    }

    fn tick_one<L: Ledger>(&mut self, t: u8, steps: &mut Steps<L>) -> Tick {
        self.lane.tick_one(t, steps)
    }

    fn stop(&mut self, code: u8) {
        self.lane.stop(code);
    }

    fn stopped(&mut self) -> Option<u8>
        ensures stops { Stopped (ringing_view self.old) (ringing_view self.new) result }
        ensures found { self.new.found ≡ self.old.found }
    {
        self.lane.stopped()
    }

    fn leave(&mut self, e: HeldEntry) {
        self.lane.leave(e);
    }

    fn leave_fresh(&mut self, f: Fresh) {
        self.lane.leave_fresh(f);
    }

    ghost within = { keeps-limit };

    ghost causes = { has-causes };
}
