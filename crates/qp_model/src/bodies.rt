//! What records say.

use arrayvec::ArrayVec;
use std::marker::Model;

/// An entry of a queue or of a deferred list: its pool, its block, and its reference by the number of
/// the operation that made it. A static event has pool 0, its signal in the block's place, and name 0.
#[derive(Clone, Copy, PartialEq, Eq, Debug)]
pub struct Entry {
    pub pool: u64,
    pub block: u64,
    pub name: u64,
}

/// The parameters of a new event, in order. Contracts see the list.
#[derive(Drop)]
pub struct Params {
    pub items: ArrayVec<u64, 8>,
}

impl Model for Params {
    ghost use Rattle.std.specs.Prelude.{List, ℕ};

    ghost Value = { List ℕ };

    ghost view = { λ p. p.items.items };
}

/// What a record says, with its numbers under their names. The object that it is for stands beside it.
///
/// `p` and `b` are a pool and a block, `a` an object and its queue, `t` a timer. `n` is a number drawn
/// on the record's word, or the count of operations that it shows. `f`, `l` and `m` are a queue's counts
/// of first-in posts, last-in posts and takes.
#[derive(Drop)]
pub enum Body {
    /// A start begins.
    Begin,
    /// The front entry is taken from the object's queue.
    Took {
        f: u64,
        l: u64,
        m: u64,
        entry: Entry,
    },
    /// The object's queue was found empty.
    Nil {
        f: u64,
        l: u64,
        m: u64,
    },
    /// A look at the queue of `p`.
    Seen {
        p: u64,
        f: u64,
        l: u64,
        m: u64,
    },
    /// A row of a state handles the event.
    Run {
        state: u64,
        row: u64,
    },
    /// No state handles the event; the word of this record is `none`.
    Unhandled,
    Exit {
        state: u64,
    },
    Enter {
        state: u64,
    },
    /// The initial transition of a state.
    Init {
        state: u64,
    },
    /// A value's 64 bits.
    Say {
        value: u64,
    },
    /// A start or a step has run to completion.
    Done,
    /// A block is given out for an event; `from` is how many operations the block's word has had.
    New {
        p: u64,
        n: u64,
        b: u64,
        from: u64,
        sig: u64,
        pars: Params,
    },
    /// Too few blocks were free for the reserve.
    Short {
        p: u64,
        n: u64,
        free: u64,
        reserve: u64,
    },
    /// Reference `r` is made.
    Inc {
        p: u64,
        b: u64,
        r: u64,
    },
    /// Reference `k` is dropped by operation `d`.
    Dec {
        p: u64,
        b: u64,
        d: u64,
        k: u64,
    },
    /// A block comes back; `to` is how many operations the block's word has had.
    Back {
        p: u64,
        n: u64,
        b: u64,
        to: u64,
    },
    /// An entry is posted at the end of the queue of `a`.
    Post {
        a: u64,
        f: u64,
        l: u64,
        m: u64,
        entry: Entry,
    },
    /// An entry is posted at the front of the object's own queue.
    Lifo {
        f: u64,
        l: u64,
        m: u64,
        entry: Entry,
    },
    /// Too few entries of the queue of `a` were free for the margin.
    Full {
        a: u64,
        f: u64,
        l: u64,
        m: u64,
        margin: u64,
    },
    /// The subscribers of a signal, bit `p - 1` for object `p`.
    Pub {
        sig: u64,
        n: u64,
        set: u64,
    },
    /// The ceiling is raised to this one.
    Lock {
        ceiling: u64,
    },
    /// The ceiling is restored to this one.
    Unlock {
        ceiling: u64,
    },
    /// The entry is deferred.
    Defer {
        entry: Entry,
    },
    /// The deferred list is full.
    NoDefer,
    /// The oldest deferred entry is recalled.
    Recall {
        entry: Entry,
    },
    /// The deferred list is empty.
    NoRecall,
    /// The oldest deferred entry is flushed.
    Flush {
        entry: Entry,
    },
    /// The object subscribes to a signal.
    Sub {
        sig: u64,
        n: u64,
    },
    /// The object unsubscribes from a signal.
    Unsub {
        sig: u64,
        n: u64,
    },
    /// Whether the object subscribes stays as it is.
    Same {
        sig: u64,
        n: u64,
    },
    Arm {
        t: u64,
        n: u64,
        ticks: u64,
        interval: u64,
    },
    Disarm {
        t: u64,
        n: u64,
        former: u64,
    },
    Rearm {
        t: u64,
        n: u64,
        former: u64,
        ticks: u64,
    },
    /// The timer was found disarmed.
    Idle {
        t: u64,
        n: u64,
    },
    /// A tick leaves this counter.
    Tick {
        t: u64,
        n: u64,
        counter: u64,
    },
    /// The counter reaches 0 and is reloaded.
    Fire {
        t: u64,
        n: u64,
        reload: u64,
    },
    /// The stimulus at place `i` of its source happens, in look `k`.
    Stim {
        i: u64,
        k: u64,
    },
    Settle,
    /// Assertion 1: no entry of the queue of `a` was free.
    NoEntry {
        a: u64,
        f: u64,
        l: u64,
        m: u64,
    },
    /// Assertion 2: no block of the pool was free; it states how many were.
    NoBlock {
        p: u64,
        n: u64,
        free: u64,
    },
    /// Assertion 3: the timer was armed.
    Armed {
        t: u64,
        n: u64,
        counter: u64,
    },
    /// Assertion 4: the values are none for a timer.
    BadTicks {
        t: u64,
        ticks: u64,
        interval: u64,
    },
    /// Assertion 5: no entry of the queue of `a` was free for a last-in post.
    NoLifo {
        a: u64,
        f: u64,
        l: u64,
        m: u64,
    },
    /// The object has taken its budget.
    Spent,
    /// The lane has no room after so many records.
    Spill {
        len: u64,
    },
    /// Look `k` of the kernel, down to the objects above the floor.
    Look {
        k: u64,
        floor: u64,
    },
    /// The cooperative kernel rests in look `k`.
    Rest {
        k: u64,
    },
    /// The kind isn't that of a record, or the numbers aren't those of its kind.
    Malformed,
}
