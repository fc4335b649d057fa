//! Records as they are told, each as a line of a table, and a small system.

use crate::samples::{signal, with_pool};
use arrayvec::ArrayVec;
use qp_check_calls::{Known, Told};
use qp_model::{Body, Entry, Params, System, TimerDef};
use std::alloc::{AllocError, Global};

fn add_signal_and_timer(sys: &mut System) -> Result<(), AllocError> {
    let timer = TimerDef {
        object: 1,
        sig: 4,
        rate: 0,
    };
    sys.signals.items.push(signal("GO", 0, true))?;
    sys.timers.items.push(timer)?;
    Ok(())
}

/// A pool of two blocks, the static signal 4, the lamp, and a time event of rate 0.
pub fn system(alloc: Global) -> Result<System, AllocError> {
    let mut sys = with_pool(alloc)?;
    add_signal_and_timer(&mut sys)?;
    Ok(sys)
}

/// A record beside which nothing is known.
pub fn plain(body: Body) -> Told {
    beside(body, Known::Nothing)
}

fn beside(body: Body, known: Known) -> Told {
    Told { body, known }
}

pub fn no_pars() -> Params {
    Params {
        items: ArrayVec::new(),
    }
}

/// Reference 0 of block 0, and reference 7.
pub const POOLED: Entry = Entry {
    pool: 1,
    block: 0,
    name: 0,
};

pub const POOLED_7: Entry = Entry {
    pool: 1,
    block: 0,
    name: 7,
};

/// The static signal 4.
pub const STATIC: Entry = Entry {
    pool: 0,
    block: 4,
    name: 0,
};

/// A record of a table.
#[derive(Clone, Copy)]
pub enum Line {
    Begin,
    Done,
    Unhandled,
    Spent,
    /// States that are entered, or whose initial transition is taken.
    Enter(u64),
    Init(u64),
    /// A row of a state.
    Run(u64, u64),
    Say(u64),
    /// Assertion 4.
    BadTicks,
    /// The first look at an empty queue of the object, and at one of object 1 with an entry.
    Nil,
    Seen,
    /// The entry of the static signal 4 is taken, with its event or with nothing known of it, after so many takes.
    Taken(u64),
    TakenUnknown(u64),
    /// Block 0 is given out for signal 5, which isn't static; two were free.
    Given,
    /// This reference of block 0.
    Referred(u64),
    /// The first post to an object's queue.
    Posted(u64, Entry),
    /// The last-in post after it.
    Lifo(Entry),
    /// No entry is free beyond the margin 0 of object 1's queue.
    Full,
    /// An object's queue, which had so many posts, has no free entry.
    NoEntry(u64, u64),
    /// This reference of block 0 is dropped, and so many are left.
    Dropped(u64, u64),
    /// Block 0 comes back after so many operations.
    Back(u64),
    NoDefer,
    Recall(Entry),
    Flush(Entry),
    /// A signal is shown to a set of objects.
    Shown(u64, u64),
    /// The ceiling, which was 0, is raised.
    Raised(u64),
    /// It is 0 again.
    Restored,
}

/// The record of a line.
pub fn told(line: &Line) -> Told {
    match line {
        Line::Given => given(),
        Line::Dropped(k, n) => dropped(*k, *n),
        Line::Raised(ceiling) => raised(*ceiling),
        Line::Taken(m) => taken(*m, true),
        Line::TakenUnknown(m) => taken(*m, false),
        Line::Referred(_)
        | Line::Posted(..)
        | Line::Lifo(_)
        | Line::Full
        | Line::NoEntry(..)
        | Line::Back(_) => plain(on_word(line)),
        _ => plain(note(line)),
    }
}

/// Adds the records of lines.
pub fn put_told(all: &mut Vec<Told>, lines: &[Line]) -> Result<(), AllocError> {
    for line in lines {
        all.push(told(line))?;
    }
    Ok(())
}

/// The records of lines.
pub fn all_told(alloc: Global, lines: &[Line]) -> Result<Vec<Told>, AllocError> {
    let mut all = Vec::new(alloc);
    put_told(&mut all, lines)?;
    Ok(all)
}

fn given() -> Told {
    let body = Body::New {
        p: 1,
        n: 0,
        b: 0,
        from: 0,
        sig: 5,
        pars: no_pars(),
    };
    beside(body, Known::Free { n: 2 })
}

fn dropped(k: u64, n: u64) -> Told {
    let body = Body::Dec {
        p: 1,
        b: 0,
        d: 1,
        k,
    };
    beside(body, Known::Left { n })
}

fn raised(ceiling: u64) -> Told {
    beside(Body::Lock { ceiling }, Known::Former { ceiling: 0 })
}

fn taken(m: u64, is_known: bool) -> Told {
    let body = Body::Took {
        f: 1,
        l: 0,
        m,
        entry: STATIC,
    };
    if !is_known {
        return plain(body);
    }
    let event = Known::OfEvent {
        sig: 4,
        pars: no_pars(),
    };
    beside(body, event)
}

/// What a line says of a word.
fn on_word(line: &Line) -> Body {
    match line {
        Line::Referred(r) => Body::Inc { p: 1, b: 0, r: *r },
        Line::Posted(a, entry) => Body::Post {
            a: *a,
            f: 1,
            l: 0,
            m: 0,
            entry: *entry,
        },
        Line::Lifo(entry) => Body::Lifo {
            f: 0,
            l: 1,
            m: 0,
            entry: *entry,
        },
        Line::Full => Body::Full {
            a: 1,
            f: 2,
            l: 0,
            m: 0,
            margin: 0,
        },
        Line::NoEntry(a, f) => Body::NoEntry {
            a: *a,
            f: *f,
            l: 0,
            m: 0,
        },
        Line::Back(to) => Body::Back {
            p: 1,
            n: 1,
            b: 0,
            to: *to,
        },
        _ => Body::Malformed,
    }
}

/// What a line says of anything else.
fn note(line: &Line) -> Body {
    match line {
        Line::Begin => Body::Begin,
        Line::Done => Body::Done,
        Line::Unhandled => Body::Unhandled,
        Line::Spent => Body::Spent,
        Line::Enter(state) => Body::Enter { state: *state },
        Line::Init(state) => Body::Init { state: *state },
        Line::Run(state, row) => Body::Run {
            state: *state,
            row: *row,
        },
        Line::Say(value) => Body::Say { value: *value },
        Line::BadTicks => Body::BadTicks {
            t: 0,
            ticks: 5,
            interval: 0,
        },
        Line::Nil => Body::Nil { f: 1, l: 0, m: 1 },
        Line::Seen => Body::Seen {
            p: 1,
            f: 2,
            l: 0,
            m: 1,
        },
        Line::NoDefer => Body::NoDefer,
        Line::Recall(entry) => Body::Recall { entry: *entry },
        Line::Flush(entry) => Body::Flush { entry: *entry },
        Line::Shown(sig, set) => Body::Pub {
            sig: *sig,
            n: 0,
            set: *set,
        },
        Line::Restored => Body::Unlock { ceiling: 0 },
        _ => Body::Malformed,
    }
}
