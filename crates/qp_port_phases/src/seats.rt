//! Where a lane waits for its next turn.

use std::hint::spin_loop;
use std::sync::Wait;
use std::sync::atomic::{AtomicU64, Ordering};
use std::time::Duration;

/// Whose entries a lane takes.
#[derive(Clone, Copy)]
pub enum Serves {
    /// Those of no object.
    Nobody,
    /// Those of the object with this priority.
    One(u8),
    /// Those of all objects.
    Everyone,
}

/// What a lane that waits asks for.
#[derive(Clone, Copy)]
pub(crate) enum Wish {
    /// Nothing.
    None,
    /// A turn.
    Turn,
    /// To pass the `settle` at which it stands.
    Settle,
}

/// How long a lane sleeps before it looks again, in milliseconds. A call wakes it before.
const NAP: u64 = 10;

/// How often a lane looks before it sleeps.
const SPINS: u32 = 500;

/// What stands for the objects of a lane that isn't one's alone.
const NOBODY: u64 = 256;

const EVERYONE: u64 = 257;

/// Sleeps a little, unless the word is another one already, or until it is woken.
pub(crate) fn nap<R: Wait>(rt: &R, word: &AtomicU64, was: u64) {
    let low = (was & 0xffff_ffff) as u32;
    word.park_timeout(rt, low, Duration::from_millis(NAP));
}

/// The seat of a lane: whose entries it takes, what it asks for, and how often it was called.
#[derive(Drop)]
pub(crate) struct Seat {
    serves: AtomicU64,
    wish: AtomicU64,
    calls: AtomicU64,
}

fn word_of(wish: Wish) -> u64 {
    match wish {
        Wish::None => 0,
        Wish::Turn => 1,
        Wish::Settle => 2,
    }
}

impl Seat {
    /// Of a lane that takes no entries, and asks for nothing.
    pub(crate) fn new() -> Seat {
        Seat {
            serves: AtomicU64::new(NOBODY),
            wish: AtomicU64::new(0),
            calls: AtomicU64::new(0),
        }
    }

    /// Its lane asks for nothing, and wasn't called.
    pub(crate) fn clear(&self) {
        self.set_wish(Wish::None);
        self.calls.store(0, Ordering::SeqCst);
    }

    /// A lane that takes these entries sits down.
    pub(crate) fn take(&self, serves: Serves) {
        let whose = match serves {
            Serves::Nobody => NOBODY,
            Serves::One(p) => u64::from(p),
            Serves::Everyone => EVERYONE,
        };
        self.serves.store(whose, Ordering::SeqCst);
    }

    /// Whether the lane takes the entries of object `p`.
    pub(crate) fn serves(&self, p: u8) -> bool {
        let whose = self.serves.load(Ordering::SeqCst);
        whose == u64::from(p) || whose == EVERYONE
    }

    /// Whether it takes those of any object.
    pub(crate) fn serves_any(&self) -> bool {
        self.serves.load(Ordering::SeqCst) != NOBODY
    }

    pub(crate) fn set_wish(&self, wish: Wish) {
        self.wish.store(word_of(wish), Ordering::SeqCst);
    }

    /// Whether the lane asks for this.
    pub(crate) fn wishes(&self, wish: Wish) -> bool {
        self.wish.load(Ordering::SeqCst) == word_of(wish)
    }

    /// How often the lane was called.
    pub(crate) fn calls(&self) -> u64 {
        self.calls.load(Ordering::SeqCst)
    }

    /// Calls the lane.
    pub(crate) fn call(&self) {
        self.calls.fetch_add(1, Ordering::SeqCst);
        self.calls.wake_all();
    }

    /// Waits until the lane is called, as it wasn't yet when it had been called so often. Answers how often it was.
    pub(crate) fn wait<R: Wait>(&self, rt: &R, was: u64) -> u64 {
        for _look in 0..SPINS {
            let calls = self.calls();
            if calls != was {
                return calls;
            }
            spin_loop();
        }
        for _ in rt.forever() {
            let calls = self.calls();
            if calls != was {
                return calls;
            }
            nap(rt, &self.calls, was);
        }
        unreachable!()
    }
}
