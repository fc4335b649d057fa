//! What a lane of the event table knows, and the rule of the table over all lanes.

use qp_model::{Entry, Rec};
use std::collections::LinkedList;

/// The records of one lane, by its number.
pub struct SeatLog {
    pub number: u64,
    pub recs: LinkedList<Rec>,
}

/// A block of a pool, and how many operations it had where its life begins (fresh) or ends (used).
#[derive(Clone, Copy, Drop)]
pub struct Spot {
    pub pool: u64,
    pub block: u64,
    pub at: u64,
}

/// A fresh block whose give is under way: its event's signal and parameters, and whether the beginning of its life was read.
pub struct PendingGive {
    pub pool: u64,
    pub block: u64,
    pub event: LinkedList<u64>,
    pub read: bool,
}

/// An event word that is still to be written, and its value.
#[derive(Clone, Copy, Drop)]
pub struct Fill {
    pub pool: u64,
    pub block: u64,
    pub place: u64,
    pub value: u64,
}

/// An entry whose cell isn't laid yet, or one under way in a take: its queue, its cell, the entry, and how many operations the
/// queue had had when it was claimed.
#[derive(Clone, Copy, Drop)]
pub struct CellPlace {
    pub queue: u64,
    pub cell: u64,
    pub entry: Entry,
    pub number: u64,
}

/// A queue that a lane serves, with its last-in posts and its takes, which that lane alone makes.
#[derive(Clone, Copy, Drop)]
pub struct Serve {
    pub object: u64,
    pub lifos: u64,
    pub takes: u64,
}

/// What a word showed.
#[derive(Clone, Copy, Drop)]
pub struct Glance {
    pub word: u64,
    pub value: u64,
}

/// The event of an entry that a lane has read: its signal and its parameters.
pub struct Content {
    pub entry: Entry,
    pub event: LinkedList<u64>,
}

/// What a lane knows. It stands in proofs alone: no value of it is made.
pub struct View {
    /// Its own records first, then those of the lanes that it took over.
    pub logs: LinkedList<SeatLog>,
    /// The lane numbers that it may still hand out.
    pub lane_numbers: LinkedList<u64>,
    pub fresh: LinkedList<Spot>,
    pub used: LinkedList<Spot>,
    pub hands: LinkedList<Entry>,
    pub gives: LinkedList<PendingGive>,
    pub fills: LinkedList<Fill>,
    pub claims: LinkedList<CellPlace>,
    pub takes: LinkedList<CellPlace>,
    pub serves: LinkedList<Serve>,
    pub contents: LinkedList<Content>,
    pub seen: LinkedList<Glance>,
}
