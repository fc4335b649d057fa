//! The calls of the lane chosen.

ghost use Rattle.std.specs.Prelude.{◌≡◌};
ghost use Rattle.qp_plain.specs.World.{code_found};

use crate::records::{copy_of, place, refusal, shortage, stated};
use crate::world::PlainWorld;
use qp_base::{Ev, Steps};
use qp_calls::{Arm, Claim, Counts, Dec, Fresh, Give, HeldEntry, Hold, Ops, RoomFault, Take, Tick};
use qp_model::{Rec, is_spill};
use std::mem;
use std::sync::Wait;
use std::sync::ledger::Ledger;

/// The code that the stop word holds; None where it is 0.
fn code_of(word: u8) -> Option<u8>
    ensures { result ≡ code_found word }
{
    if word == 0 { None } else { Some(word) }
}

impl<'a> Ops for PlainWorld<'a> {
    ghost use Rattle.std.specs.Prelude.{◌≡◌};
    ghost use Rattle.qp_calls.specs.Clauses.{Stops};
    ghost use Rattle.qp_calls.specs.Notes.{MayStop};
    ghost use Rattle.qp_plain.specs.Book.{purses_of};
    ghost use Rattle.qp_plain.specs.World.{word_after};
    ghost use Rattle.qp_plain.specs.WorldView.{world_view};
    ghost use Rattle.qp_plain.specs.LaneLaws.{keeps-limit, has-causes};

    ghost lane = { world_view };

    fn room(&mut self) -> Result<(), RoomFault> {
        self.book.room()
    }

    fn by(&mut self, o: u8) -> u8 {
        mem::replace(&mut self.by, o)
    }

    fn note(&mut self, r: Rec) {
        let spills = is_spill(&r);
        if spills {
            self.book.add_spill(r);
        } else {
            self.book.add(r);
        }
    }

    fn give<L: Ledger>(
        &mut self,
        pool: u8,
        reserve: Option<u8>,
        ev: &Ev,
        steps: &mut Steps<L>,
    ) -> Give {
        steps.step();
        let word = &mut self.pools[usize::from(pool) - 1];
        let n = word.ops();
        let free = word.left();
        if free <= reserve.unwrap_or(0) {
            self.book.add(shortage(self.by, pool, n, free, reserve));
            return Give::Short { n, free };
        }
        let b = word.take();
        let at = place(pool, b);
        let from = u64::from(self.blocks[at].ops);
        self.cells[at] = copy_of(ev);
        self.book.add(Rec::new(self.by, pool, n, b, from, ev));
        Give::Given(Fresh::of(pool, b, false))
    }

    fn first(&mut self, f: Fresh) -> Hold {
        let name = self.blocks[place(f.pool(), f.block())].make();
        self.book
            .add(Rec::inc(self.by, f.pool(), f.block(), u64::from(name)));
        Hold::of(f.pool(), f.block(), u64::from(name))
    }

    fn inc(&mut self, h: &Hold) -> Hold {
        let name = self.blocks[place(h.pool(), h.block())].make();
        self.book
            .add(Rec::inc(self.by, h.pool(), h.block(), u64::from(name)));
        Hold::of(h.pool(), h.block(), u64::from(name))
    }

    fn dec(&mut self, h: Hold) -> Dec {
        let word = &mut self.blocks[place(h.pool(), h.block())];
        let d = word.drop_one();
        let left = word.refs;
        self.book.add(Rec::dec(self.by, h.pool(), h.block(), u64::from(d), h.name()));
        if left == 0 {
            Dec::Last(Fresh::of(h.pool(), h.block(), true))
        } else {
            Dec::Kept
        }
    }

    fn back(&mut self, f: Fresh) {
        let to = u64::from(self.blocks[place(f.pool(), f.block())].ops);
        let word = &mut self.pools[usize::from(f.pool()) - 1];
        let n = word.ops();
        word.put(f.block());
        self.book
            .add(Rec::back(self.by, f.pool(), n, f.block(), to));
    }

    fn sig(&mut self, h: &Hold) -> u16 {
        self.cells[place(h.pool(), h.block())].sig
    }

    fn par(&mut self, h: &Hold, j: usize) -> u64 {
        self.cells[place(h.pool(), h.block())].pars.as_slice()[j]
    }

    fn claim<L: Ledger>(
        &mut self,
        to: u8,
        e: HeldEntry,
        margin: Option<u8>,
        steps: &mut Steps<L>,
    ) -> Claim {
        steps.step();
        let word = &mut self.queues[usize::from(to)];
        let now = word.counts();
        if word.free() <= u16::from(margin.unwrap_or(0)) {
            self.book.add(refusal(self.by, to, now, margin));
            return Claim::Short {
                entry: e,
                f: now.f,
                l: now.l,
                m: now.m,
            };
        }
        let rec = Rec::post(self.by, to, now.f + 1, now.l, now.m, stated(&e));
        word.post(e);
        self.book.add(rec);
        Claim::Done
    }

    fn lifo<L: Ledger>(&mut self, e: HeldEntry, steps: &mut Steps<L>) -> Claim {
        steps.step();
        let o = self.by;
        let word = &mut self.queues[usize::from(o)];
        let now = word.counts();
        if word.free() == 0 {
            self.book.add(Rec::no_lifo(o, o, now.f, now.l, now.m));
            return Claim::Short {
                entry: e,
                f: now.f,
                l: now.l,
                m: now.m,
            };
        }
        let rec = Rec::lifo(o, now.f, now.l + 1, now.m, stated(&e));
        word.post_front(e);
        self.book.add(rec);
        Claim::Done
    }

    fn take<R: Wait>(&mut self, _rt: &R, me: u8) -> Take {
        let word = &mut self.queues[usize::from(me)];
        let now = word.counts();
        match word.take() {
            Some(e) => {
                self.book
                    .add(Rec::took(me, now.f, now.l, now.m + 1, stated(&e)));
                Take::Taken(e)
            }
            None => {
                let empty = Take::Empty {
                    f: now.f,
                    l: now.l,
                    m: now.m,
                };
                if !self.book.tells(me, now) {
                    self.book
                        .add_nil(Rec::nil(me, now.f, now.l, now.m), me, now);
                    return empty;
                }
                empty
            }
        }
    }

    fn seen(&mut self, p: u8) -> Counts {
        let now = self.queues[usize::from(p)].counts();
        self.book.add(Rec::seen(p, now.f, now.l, now.m));
        now
    }

    fn counts(&mut self, p: u8) -> Counts {
        self.queues[usize::from(p)].counts()
    }

    fn subscribe(&mut self, sig: u16) -> bool {
        let o = self.by;
        let word = &mut self.signals[usize::from(sig) - 4];
        let n = word.ops;
        if word.has(o) {
            self.book.add(Rec::same(o, sig, n));
            return false;
        }
        word.put(o);
        self.book.add(Rec::sub(o, sig, n));
        true
    }

    fn unsubscribe(&mut self, sig: u16) -> bool {
        let o = self.by;
        let word = &mut self.signals[usize::from(sig) - 4];
        let n = word.ops;
        if !word.has(o) {
            self.book.add(Rec::same(o, sig, n));
            return false;
        }
        word.take(o);
        self.book.add(Rec::unsub(o, sig, n));
        true
    }

    fn subscribers(&mut self, sig: u16) -> u32 {
        let word = self.signals[usize::from(sig) - 4];
        self.book
            .add(Rec::publish(self.by, sig, word.ops, word.set));
        word.set
    }

    fn arm<L: Ledger>(&mut self, t: u8, ticks: u16, interval: u16, steps: &mut Steps<L>) -> Arm {
        steps.step();
        let word = &mut self.timers[usize::from(t) - 1];
        let n = word.ops();
        let c = word.counter();
        if c > 0 {
            self.book.add(Rec::armed(self.by, t, n, c));
            return Arm::Armed { n, c };
        }
        word.arm(ticks, interval);
        self.book.add(Rec::arm(self.by, t, n, ticks, interval));
        Arm::Done
    }

    fn disarm<L: Ledger>(&mut self, t: u8, steps: &mut Steps<L>) -> u16 {
        steps.step();
        let word = &mut self.timers[usize::from(t) - 1];
        let n = word.ops();
        let former = word.counter();
        if former == 0 {
            self.book.add(Rec::idle(self.by, t, n));
            return 0;
        }
        word.set(0);
        self.book.add(Rec::disarm(self.by, t, n, former));
        former
    }

    fn rearm<L: Ledger>(&mut self, t: u8, ticks: u16, steps: &mut Steps<L>) -> u16 {
        steps.step();
        let word = &mut self.timers[usize::from(t) - 1];
        let n = word.ops();
        let former = word.counter();
        word.set(ticks);
        self.book.add(Rec::rearm(self.by, t, n, former, ticks));
        former
    }

    fn tick_one<L: Ledger>(&mut self, t: u8, steps: &mut Steps<L>) -> Tick {
        steps.step();
        let word = &mut self.timers[usize::from(t) - 1];
        let n = word.ops();
        match word.tick() {
            Tick::Idle => {
                self.book.add(Rec::idle(self.by, t, n));
                Tick::Idle
            }
            Tick::Down => {
                let counter = word.counter();
                self.book.add(Rec::tick(t, n, counter));
                Tick::Down
            }
            Tick::Fired => {
                let reload = word.counter();
                self.book.add(Rec::fire(t, n, reload));
                Tick::Fired
            }
        }
    }

    /// A code once set stays.
    fn stop(&mut self, code: u8)
        requires { MayStop code (world_view self.old) }
        ensures hands { Stops code (world_view self.old) (world_view self.new) }
        ensures word { self.new.stop ≡ word_after code self.old.stop }
    {
        self.book.hand(code);
        if self.stop == 0 {
            self.stop = code;
        }
    }

    fn stopped(&mut self) -> Option<u8> {
        self.book.answer(self.stop);
        code_of(self.stop)
    }

    fn leave(&mut self, _e: HeldEntry) {}

    fn leave_fresh(&mut self, _f: Fresh) {}

    ghost within = { λ w. keeps-limit w.sys.now w.book.others.items w.book.order.items w.book.at w.book.here w.by (purses_of w.book)
        w.book.within };

    ghost causes = { λ w. has-causes w.sys.now w.book.others.items w.book.order.items w.book.at w.book.here w.by (purses_of w.book)
        w.book.within };
}
