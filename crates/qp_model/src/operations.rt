//! The records of operations on numbered words, and of what a word showed.
#![tactic(auto, unfolding(crate::specs::Record::item_of))]

ghost use Rattle.std.specs.Prelude.{◌≡◌};
ghost use Rattle.qp_model.specs.Record.{item_of};
ghost use Rattle.qp_model.specs.declared.bodies.Body.TheVariants.{Arm, Armed, Back, Dec, Disarm, Fire, Full, Idle, Inc, Lifo, New, Nil, NoBlock, NoEntry, NoLifo, Post, Pub, Rearm, Same, Seen, Short, Sub, Tick, Took, Unsub};

use crate::bodies::Entry;
use crate::kinds;
use crate::record::{Rec, add_numbers, numbers};
use qp_base::Ev;

impl Rec {
    /// `entry` is taken from the queue of `o`; the counts are those after it.
    #[inline(always)]
    pub fn took(o: u8, f: u32, l: u32, m: u32, entry: Entry) -> Rec
        ensures { item_of result ≡ record { of = o; body = Took f l m entry } }
    {
        Rec {
            kind: kinds::TOOK,
            of: o,
            nums: numbers(&[
                u64::from(f),
                u64::from(l),
                u64::from(m),
                entry.pool,
                entry.block,
                entry.name,
            ]),
        }
    }

    /// The queue of `o` is empty at these counts.
    pub fn nil(o: u8, f: u32, l: u32, m: u32) -> Rec
        ensures { item_of result ≡ record { of = o; body = Nil f l m } }
    {
        Rec {
            kind: kinds::NIL,
            of: o,
            nums: numbers(&[u64::from(f), u64::from(l), u64::from(m)]),
        }
    }

    /// The queue of `p` is seen at these counts.
    pub fn seen(p: u8, f: u32, l: u32, m: u32) -> Rec
        ensures { item_of result ≡ record { of = 0; body = Seen p f l m } }
    {
        Rec {
            kind: kinds::SEEN,
            of: 0,
            nums: numbers(&[u64::from(p), u64::from(f), u64::from(l), u64::from(m)]),
        }
    }

    /// Operation `n` of pool `p` gives out block `b` for `ev`; the block's word has had `from` operations.
    pub fn new(o: u8, p: u8, n: u32, b: u8, from: u64, ev: &Ev) -> Rec
        ensures { item_of result ≡ record { of = o; body = New p n b from ev.now.sig ev.now.pars.items } }
    {
        let mut nums = numbers(&[
            u64::from(p),
            u64::from(n),
            u64::from(b),
            from,
            u64::from(ev.sig),
        ]);
        add_numbers(&mut nums, ev.pars.as_slice());
        Rec {
            kind: kinds::NEW,
            of: o,
            nums,
        }
    }

    /// After `n` operations of pool `p`, `free` blocks are free, at most the reserve.
    pub fn short(o: u8, p: u8, n: u32, free: u8, reserve: u8) -> Rec
        ensures { item_of result ≡ record { of = o; body = Short p n free reserve } }
    {
        Rec {
            kind: kinds::SHORT,
            of: o,
            nums: numbers(&[
                u64::from(p),
                u64::from(n),
                u64::from(free),
                u64::from(reserve),
            ]),
        }
    }

    /// Operation `r` of the block makes the reference of that name.
    pub fn inc(o: u8, p: u8, b: u8, r: u64) -> Rec
        ensures { item_of result ≡ record { of = o; body = Inc p b r } }
    {
        Rec {
            kind: kinds::INC,
            of: o,
            nums: numbers(&[u64::from(p), u64::from(b), r]),
        }
    }

    /// Operation `d` of the block drops reference `k`.
    pub fn dec(o: u8, p: u8, b: u8, d: u64, k: u64) -> Rec
        ensures { item_of result ≡ record { of = o; body = Dec p b d k } }
    {
        Rec {
            kind: kinds::DEC,
            of: o,
            nums: numbers(&[u64::from(p), u64::from(b), d, k]),
        }
    }

    /// Operation `n` of pool `p` gives block `b` back; the block's word has had `to` operations.
    pub fn back(o: u8, p: u8, n: u32, b: u8, to: u64) -> Rec
        ensures { item_of result ≡ record { of = o; body = Back p n b to } }
    {
        Rec {
            kind: kinds::BACK,
            of: o,
            nums: numbers(&[u64::from(p), u64::from(n), u64::from(b), to]),
        }
    }

    /// `entry` is posted to `a`; the counts are those after it.
    #[inline(always)]
    pub fn post(o: u8, a: u8, f: u32, l: u32, m: u32, entry: Entry) -> Rec
        ensures { item_of result ≡ record { of = o; body = Post a f l m entry } }
    {
        Rec {
            kind: kinds::POST,
            of: o,
            nums: numbers(&[
                u64::from(a),
                u64::from(f),
                u64::from(l),
                u64::from(m),
                entry.pool,
                entry.block,
                entry.name,
            ]),
        }
    }

    /// `entry` is posted last-in to `o`; the counts are those after it.
    pub fn lifo(o: u8, f: u32, l: u32, m: u32, entry: Entry) -> Rec
        ensures { item_of result ≡ record { of = o; body = Lifo f l m entry } }
    {
        Rec {
            kind: kinds::LIFO,
            of: o,
            nums: numbers(&[
                u64::from(f),
                u64::from(l),
                u64::from(m),
                entry.pool,
                entry.block,
                entry.name,
            ]),
        }
    }

    /// At these counts the queue of `a` has at most `margin` free entries.
    pub fn full(o: u8, a: u8, f: u32, l: u32, m: u32, margin: u8) -> Rec
        ensures { item_of result ≡ record { of = o; body = Full a f l m margin } }
    {
        Rec {
            kind: kinds::FULL,
            of: o,
            nums: numbers(&[
                u64::from(a),
                u64::from(f),
                u64::from(l),
                u64::from(m),
                u64::from(margin),
            ]),
        }
    }

    /// After `n` operations of the signal's word these objects subscribe, bit `p - 1` for object `p`.
    pub fn publish(o: u8, sig: u16, n: u32, set: u32) -> Rec
        ensures { item_of result ≡ record { of = o; body = Pub sig n set } }
    {
        Rec {
            kind: kinds::PUB,
            of: o,
            nums: numbers(&[u64::from(sig), u64::from(n), u64::from(set)]),
        }
    }

    /// Operation `n` of the signal's word subscribes `o`.
    pub fn sub(o: u8, sig: u16, n: u32) -> Rec
        ensures { item_of result ≡ record { of = o; body = Sub sig n } }
    {
        Rec {
            kind: kinds::SUB,
            of: o,
            nums: numbers(&[u64::from(sig), u64::from(n)]),
        }
    }

    /// Operation `n` of the signal's word unsubscribes `o`.
    pub fn unsub(o: u8, sig: u16, n: u32) -> Rec
        ensures { item_of result ≡ record { of = o; body = Unsub sig n } }
    {
        Rec {
            kind: kinds::UNSUB,
            of: o,
            nums: numbers(&[u64::from(sig), u64::from(n)]),
        }
    }

    /// After `n` operations of the signal's word, whether `o` subscribes is as asked.
    pub fn same(o: u8, sig: u16, n: u32) -> Rec
        ensures { item_of result ≡ record { of = o; body = Same sig n } }
    {
        Rec {
            kind: kinds::SAME,
            of: o,
            nums: numbers(&[u64::from(sig), u64::from(n)]),
        }
    }

    /// Operation `n` of timer `t` arms it.
    pub fn arm(o: u8, t: u8, n: u32, ticks: u16, interval: u16) -> Rec
        ensures { item_of result ≡ record { of = o; body = Arm t n ticks interval } }
    {
        Rec {
            kind: kinds::ARM,
            of: o,
            nums: numbers(&[
                u64::from(t),
                u64::from(n),
                u64::from(ticks),
                u64::from(interval),
            ]),
        }
    }

    /// Operation `n` of timer `t` disarms it; its counter was `former`.
    pub fn disarm(o: u8, t: u8, n: u32, former: u16) -> Rec
        ensures { item_of result ≡ record { of = o; body = Disarm t n former } }
    {
        Rec {
            kind: kinds::DISARM,
            of: o,
            nums: numbers(&[u64::from(t), u64::from(n), u64::from(former)]),
        }
    }

    /// Operation `n` of timer `t` sets its counter, which was `former`, to `ticks`.
    pub fn rearm(o: u8, t: u8, n: u32, former: u16, ticks: u16) -> Rec
        ensures { item_of result ≡ record { of = o; body = Rearm t n former ticks } }
    {
        Rec {
            kind: kinds::REARM,
            of: o,
            nums: numbers(&[
                u64::from(t),
                u64::from(n),
                u64::from(former),
                u64::from(ticks),
            ]),
        }
    }

    /// After `n` operations timer `t` is disarmed.
    pub fn idle(o: u8, t: u8, n: u32) -> Rec
        ensures { item_of result ≡ record { of = o; body = Idle t n } }
    {
        Rec {
            kind: kinds::IDLE,
            of: o,
            nums: numbers(&[u64::from(t), u64::from(n)]),
        }
    }

    /// Operation `n` of timer `t` leaves this counter.
    pub fn tick(t: u8, n: u32, counter: u16) -> Rec
        ensures { item_of result ≡ record { of = 0; body = Tick t n counter } }
    {
        Rec {
            kind: kinds::TICK,
            of: 0,
            nums: numbers(&[u64::from(t), u64::from(n), u64::from(counter)]),
        }
    }

    /// Operation `n` of timer `t` fires it and reloads its counter.
    pub fn fire(t: u8, n: u32, reload: u16) -> Rec
        ensures { item_of result ≡ record { of = 0; body = Fire t n reload } }
    {
        Rec {
            kind: kinds::FIRE,
            of: 0,
            nums: numbers(&[u64::from(t), u64::from(n), u64::from(reload)]),
        }
    }

    /// Assertion 1: at these counts the queue of `a` has no free entry.
    pub fn no_entry(o: u8, a: u8, f: u32, l: u32, m: u32) -> Rec
        ensures { item_of result ≡ record { of = o; body = NoEntry a f l m } }
    {
        Rec {
            kind: kinds::ASSERT,
            of: o,
            nums: numbers(&[1, u64::from(a), u64::from(f), u64::from(l), u64::from(m)]),
        }
    }

    /// Assertion 2: after `n` operations pool `p` has no free block.
    pub fn no_block(o: u8, p: u8, n: u32) -> Rec
        ensures { item_of result ≡ record { of = o; body = NoBlock p n 0 } }
    {
        Rec {
            kind: kinds::ASSERT,
            of: o,
            nums: numbers(&[2, u64::from(p), u64::from(n), 0]),
        }
    }

    /// Assertion 3: after `n` operations timer `t` has this counter.
    pub fn armed(o: u8, t: u8, n: u32, counter: u16) -> Rec
        ensures { item_of result ≡ record { of = o; body = Armed t n counter } }
    {
        Rec {
            kind: kinds::ASSERT,
            of: o,
            nums: numbers(&[3, u64::from(t), u64::from(n), u64::from(counter)]),
        }
    }

    /// Assertion 5: at these counts the queue of `a` has no free entry for a last-in post.
    pub fn no_lifo(o: u8, a: u8, f: u32, l: u32, m: u32) -> Rec
        ensures { item_of result ≡ record { of = o; body = NoLifo a f l m } }
    {
        Rec {
            kind: kinds::ASSERT,
            of: o,
            nums: numbers(&[5, u64::from(a), u64::from(f), u64::from(l), u64::from(m)]),
        }
    }
}
