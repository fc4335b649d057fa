//! Worlds ended.

ghost use Rattle.std.specs.Prelude.{◌≡◌, ◌+◌, ◌++◌, ◌≤◌, [], length, map, IfOk};
ghost use Rattle.std.specs.Vec.{vec_capacity};
ghost use Rattle.qp_plain.specs.Books.{log_recs};

use crate::world::PlainWorld;
use qp_base::Memory;
use qp_calls_log::Log;
use qp_model::{Lane, Lanes};
use std::alloc::Global;

/// Room for the lanes of a world that ends, taken when it begins.
#[derive(Drop)]
pub(crate) struct Shelf {
    pub(crate) lanes: Vec<Lane>,
    ghost none: { lanes.items ≡ [] },
    ghost wide: { 49 ≤ vec_capacity lanes },
}

impl Shelf {
    /// Room for 49 lanes.
    pub(crate) fn new(alloc: Global) -> Result<Shelf, Memory> {
        let Ok(lanes) = Vec::with_capacity(alloc, 49) else {
            return Err(Memory);
        };
        Ok(Shelf { lanes })
    }
}

/// The records of the lanes, moved into the room.
pub(crate) fn shelve(logs: Vec<Log>, room: Vec<Lane>) -> Vec<Lane>
    requires { length room.items + length logs.items ≤ vec_capacity room }
    ensures { result.items ≡ room.items ++ map log_recs logs.items }
{
    let mut lanes = room;
    for log in logs {
        let Log {
            recs,
            spare: _,
            spilled: _,
            nils: _,
            stops: _,
            answered: _,
        } = log;
        lanes.push_reserved(Lane { items: recs });
    }
    lanes
}

impl PlainWorld<'_> {
    ghost use Rattle.qp_plain.specs.Ended.{IsEnded};

    /// The lanes. It takes no memory.
    pub fn finish(self) -> Lanes
        ensures { IsEnded self.entry result }
    {
        let PlainWorld {
            sys: _,
            book,
            by: _,
            stop: _,
            pools: _,
            blocks: _,
            cells: _,
            queues: _,
            signals: _,
            timers: _,
            shelf,
        } = self;
        let Shelf { lanes } = shelf;
        book.finish(lanes)
    }
}
