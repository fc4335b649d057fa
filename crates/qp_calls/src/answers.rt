//! The answers of the calls of a lane.

use crate::tokens::{Fresh, HeldEntry};

/// Why a lane has no room for eight more records.
#[derive(Drop)]
pub enum RoomFault {
    /// Memory was refused. The lane isn't full.
    Memory,
    /// The lane has this many records, and a lane has at most 1,000,000 besides a `spill`.
    LaneFull { len: u32 },
}

/// The counts of a queue: first-in posts, last-in posts, takes.
#[derive(Clone, Copy)]
pub struct Counts {
    pub f: u32,
    pub l: u32,
    pub m: u32,
}

/// Whether a block was given out.
#[derive(Drop)]
pub enum Give {
    Given(Fresh),
    /// After `n` operations the pool showed `free` blocks, no more than the reserve.
    Short { n: u32, free: u8 },
}

/// What a reference leaves that was dropped.
#[derive(Drop)]
pub enum Dec {
    /// Other references to the block.
    Kept,
    /// None: the block, which is to be given back.
    Last(Fresh),
}

/// Whether an entry was posted.
#[derive(Drop)]
pub enum Claim {
    Done,
    /// The entry comes back; the queue showed these counts, with too few free entries.
    Short {
        entry: HeldEntry,
        f: u32,
        l: u32,
        m: u32,
    },
}

/// The front entry of a queue.
#[derive(Drop)]
pub enum Take {
    Taken(HeldEntry),
    /// The queue was found empty at these counts.
    Empty { f: u32, l: u32, m: u32 },
}

/// Whether a time event was armed.
#[derive(Drop)]
pub enum Arm {
    Done,
    /// After `n` operations it was armed already, with the counter `c`.
    Armed { n: u32, c: u16 },
}

/// What a tick did to a time event.
#[derive(Drop)]
pub enum Tick {
    /// It is disarmed.
    Idle,
    /// Its counter fell.
    Down,
    /// Its counter reached 0, and is the interval now.
    Fired,
}
