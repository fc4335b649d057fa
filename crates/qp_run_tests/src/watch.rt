//! The gate of the calls.

use qp_base::Gate;
use std::sync::atomic::{AtomicU64, Ordering};
use std::thread::yield_now;

/// How often a lane looks for another one.
const TURNS: u32 = 10_000_000;

/// What a gate does.
#[derive(Clone, Copy)]
pub(crate) enum Watches {
    /// Nothing.
    Nothing,
    /// It holds the first call of each lane until another lane has made its first.
    Meetings,
    /// It counts its calls, and adds up a bit for each.
    Steps,
}

/// A gate that watches one of these. It is one type for all calls, so that the program is compiled for no second one.
#[derive(Drop)]
pub(crate) struct Watch {
    what: Watches,
    /// The lanes that have made their first call, which are bits; or how many calls there were.
    pub(crate) begun: AtomicU64,
    /// Those that then saw another that had; or the sum of the bits of the calls. A lane has sixteen, one for each step. Where the sum has
    /// as many bits as there were calls, each of these was told once.
    pub(crate) met: AtomicU64,
}

impl Watch {
    /// A gate that nobody has called.
    pub(crate) fn of(what: Watches) -> Watch {
        Watch {
            what,
            begun: AtomicU64::new(0),
            met: AtomicU64::new(0),
        }
    }

    /// Whether its two words are these.
    pub(crate) fn has(&self, begun: u64, met: u64) -> bool {
        self.begun.load(Ordering::SeqCst) == begun && self.met.load(Ordering::SeqCst) == met
    }

    /// Holds a lane's first call until another lane has made its first.
    fn meet(&self, lane: u32) {
        let mine = 1 << (lane % 64);
        if self.begun.fetch_or(mine, Ordering::SeqCst) & mine != 0 {
            return;
        }
        for _turn in 0..TURNS {
            if self.begun.load(Ordering::SeqCst) != mine {
                self.met.fetch_or(mine, Ordering::SeqCst);
                return;
            }
            // (the other may wait for this processor)
            yield_now();
        }
    }

    /// Counts a call, and adds its bit.
    fn count(&self, lane: u32, step: u64) {
        self.begun.fetch_add(1, Ordering::SeqCst);
        let bit = u64::from(lane) * 16 + step % 16;
        self.met.fetch_add(1 << (bit % 64), Ordering::SeqCst);
    }
}

impl Gate for Watch {
    fn at(&self, lane: u32, step: u64) {
        match self.what {
            Watches::Nothing => {}
            Watches::Meetings => self.meet(lane),
            Watches::Steps => self.count(lane, step),
        }
    }
}
