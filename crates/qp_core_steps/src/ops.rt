//! Atomic steps.

use qp_base::Ev;
use qp_model::{Rec, Word};

/// An atomic step of one seat. Its row of docs/EVENT_TABLE.md says where it is allowed and what it does.
#[derive(Drop)]
pub enum Op {
    /// Takes the pool's lowest free block for an event.
    Give {
        pool: u8,
        ev: Ev,
    },
    /// Writes an event word of a give under way: the signal at place 0, then the parameters.
    Fill {
        pool: u8,
        block: u8,
        place: u8,
        value: u64,
    },
    /// Makes a reference.
    Make {
        pool: u8,
        block: u8,
    },
    /// Drops a reference.
    Drop {
        pool: u8,
        block: u8,
        name: u64,
    },
    /// Puts a used block back.
    Back {
        pool: u8,
        block: u8,
    },
    /// Reads a numbered word, and adds a record of what it shows.
    Look {
        word: Word,
        rec: Option<Rec>,
    },
    /// Reads an event word.
    Read {
        pool: u8,
        block: u8,
        place: u8,
    },
    /// Reads the cell of the front entry.
    Peek {
        object: u8,
    },
    /// Splits off a seat that never stood, which then serves the objects of a set: bit `a - 1` for object `a`.
    Split {
        into: u32,
        serves: u32,
    },
    /// Takes over another seat.
    Join {
        from: u32,
    },
    /// Draws a first-in place; pool 0 means the static signal `name`.
    Claim {
        to: u8,
        pool: u8,
        block: u8,
        name: u64,
    },
    /// Writes the cell of the seat's oldest claim on the queue.
    Lay {
        to: u8,
    },
    /// Empties the front cell.
    Empty {
        object: u8,
    },
    /// Frees the entry under way.
    Free {
        object: u8,
    },
    /// Draws a last-in place.
    Lifo {
        object: u8,
        pool: u8,
        block: u8,
        name: u64,
    },
}
