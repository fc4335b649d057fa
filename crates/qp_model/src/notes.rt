//! The records that are notes: they draw no number and show none.
#![tactic(auto, unfolding(crate::specs::Record::item_of))]

ghost use Rattle.std.specs.Prelude.{◌≡◌};
ghost use Rattle.std.specs.Int.{w64, cast_unsigned};
ghost use Rattle.qp_model.specs.Record.{item_of};
ghost use Rattle.qp_model.specs.declared.bodies.Body.TheVariants.{BadTicks, Begin, Defer, Done, Enter, Exit, Flush, Init, Lock, Look, NoDefer, NoRecall, Recall, Rest, Run, Say, Settle, Spent, Spill, Stim, Unhandled, Unlock};

use crate::bodies::Entry;
use crate::kinds;
use crate::record::{Rec, numbers};
use arrayvec::ArrayVec;

impl Rec {
    /// A start of `o` begins.
    pub fn begin(o: u8) -> Rec
        ensures { item_of result ≡ record { of = o; body = Begin } }
    {
        Rec {
            kind: kinds::BEGIN,
            of: o,
            nums: ArrayVec::new(),
        }
    }

    /// Row `row` of `state` handles the event.
    pub fn run(o: u8, state: u8, row: u8) -> Rec
        ensures { item_of result ≡ record { of = o; body = Run state row } }
    {
        Rec {
            kind: kinds::RUN,
            of: o,
            nums: numbers(&[u64::from(state), u64::from(row)]),
        }
    }

    /// No state handles the event.
    pub fn none(o: u8) -> Rec
        ensures { item_of result ≡ record { of = o; body = Unhandled } }
    {
        Rec {
            kind: kinds::NONE,
            of: o,
            nums: ArrayVec::new(),
        }
    }

    /// `state` is exited.
    pub fn exit(o: u8, state: u8) -> Rec
        ensures { item_of result ≡ record { of = o; body = Exit state } }
    {
        Rec {
            kind: kinds::EXIT,
            of: o,
            nums: numbers(&[u64::from(state)]),
        }
    }

    /// `state` is entered.
    pub fn enter(o: u8, state: u8) -> Rec
        ensures { item_of result ≡ record { of = o; body = Enter state } }
    {
        Rec {
            kind: kinds::ENTER,
            of: o,
            nums: numbers(&[u64::from(state)]),
        }
    }

    /// The initial transition of `state` is taken.
    pub fn init(o: u8, state: u8) -> Rec
        ensures { item_of result ≡ record { of = o; body = Init state } }
    {
        Rec {
            kind: kinds::INIT,
            of: o,
            nums: numbers(&[u64::from(state)]),
        }
    }

    /// `value` is said.
    pub fn say(o: u8, value: i64) -> Rec
        ensures { item_of result ≡ record { of = o; body = Say (cast_unsigned w64 value) } }
    {
        Rec {
            kind: kinds::SAY,
            of: o,
            nums: numbers(&[value.cast_unsigned()]),
        }
    }

    /// The start or step of `o` has run to completion.
    pub fn done(o: u8) -> Rec
        ensures { item_of result ≡ record { of = o; body = Done } }
    {
        Rec {
            kind: kinds::DONE,
            of: o,
            nums: ArrayVec::new(),
        }
    }

    /// The ceiling rises to `ceiling`.
    pub fn lock(o: u8, ceiling: u8) -> Rec
        ensures { item_of result ≡ record { of = o; body = Lock ceiling } }
    {
        Rec {
            kind: kinds::LOCK,
            of: o,
            nums: numbers(&[u64::from(ceiling)]),
        }
    }

    /// The ceiling is `ceiling` again.
    pub fn unlock(o: u8, ceiling: u8) -> Rec
        ensures { item_of result ≡ record { of = o; body = Unlock ceiling } }
    {
        Rec {
            kind: kinds::UNLOCK,
            of: o,
            nums: numbers(&[u64::from(ceiling)]),
        }
    }

    /// `entry` is deferred.
    pub fn defer(o: u8, entry: Entry) -> Rec
        ensures { item_of result ≡ record { of = o; body = Defer entry } }
    {
        Rec {
            kind: kinds::DEFER,
            of: o,
            nums: numbers(&[entry.pool, entry.block, entry.name]),
        }
    }

    /// The deferred list of `o` is full.
    pub fn no_defer(o: u8) -> Rec
        ensures { item_of result ≡ record { of = o; body = NoDefer } }
    {
        Rec {
            kind: kinds::NODEFER,
            of: o,
            nums: ArrayVec::new(),
        }
    }

    /// `entry`, the oldest deferred one, is recalled.
    pub fn recall(o: u8, entry: Entry) -> Rec
        ensures { item_of result ≡ record { of = o; body = Recall entry } }
    {
        Rec {
            kind: kinds::RECALL,
            of: o,
            nums: numbers(&[entry.pool, entry.block, entry.name]),
        }
    }

    /// The deferred list of `o` is empty.
    pub fn no_recall(o: u8) -> Rec
        ensures { item_of result ≡ record { of = o; body = NoRecall } }
    {
        Rec {
            kind: kinds::NORECALL,
            of: o,
            nums: ArrayVec::new(),
        }
    }

    /// `entry`, the oldest deferred one, is flushed.
    pub fn flush(o: u8, entry: Entry) -> Rec
        ensures { item_of result ≡ record { of = o; body = Flush entry } }
    {
        Rec {
            kind: kinds::FLUSH,
            of: o,
            nums: numbers(&[entry.pool, entry.block, entry.name]),
        }
    }

    /// The stimulus at place `i` of its source, counted from 1, happens in look `k`; 0 where looks have no stimuli.
    pub fn stim(i: u32, k: u32) -> Rec
        ensures { item_of result ≡ record { of = 0; body = Stim i k } }
    {
        Rec {
            kind: kinds::STIM,
            of: 0,
            nums: numbers(&[u64::from(i), u64::from(k)]),
        }
    }

    /// A source settles.
    pub fn settle() -> Rec
        ensures { item_of result ≡ record { of = 0; body = Settle } }
    {
        Rec {
            kind: kinds::SETTLE,
            of: 0,
            nums: ArrayVec::new(),
        }
    }

    /// Assertion 4: timer `t` can't be armed with these values; `interval` is 0 for a `rearm`.
    pub fn bad_ticks(o: u8, t: u8, ticks: u64, interval: u64) -> Rec
        ensures { item_of result ≡ record { of = o; body = BadTicks t ticks interval } }
    {
        Rec {
            kind: kinds::ASSERT,
            of: o,
            nums: numbers(&[4, u64::from(t), ticks, interval]),
        }
    }

    /// `o` has taken its budget.
    pub fn spent(o: u8) -> Rec
        ensures { item_of result ≡ record { of = o; body = Spent } }
    {
        Rec {
            kind: kinds::SPENT,
            of: o,
            nums: ArrayVec::new(),
        }
    }

    /// The lane has no room after `len` records.
    pub fn spill(len: u32) -> Rec
        ensures { item_of result ≡ record { of = 0; body = Spill len } }
    {
        Rec {
            kind: kinds::SPILL,
            of: 0,
            nums: numbers(&[u64::from(len)]),
        }
    }

    /// Look `k` of the kernel, at the objects above `floor`.
    pub fn look(k: u32, floor: u8) -> Rec
        ensures { item_of result ≡ record { of = 0; body = Look k floor } }
    {
        Rec {
            kind: kinds::LOOK,
            of: 0,
            nums: numbers(&[u64::from(k), u64::from(floor)]),
        }
    }

    /// The cooperative kernel rests in look `k`.
    pub fn rest(k: u32) -> Rec
        ensures { item_of result ≡ record { of = 0; body = Rest k } }
    {
        Rec {
            kind: kinds::REST,
            of: 0,
            nums: numbers(&[u64::from(k)]),
        }
    }
}
