//! Worlds begun, and lanes chosen.

ghost use Rattle.std.specs.Prelude.{◌≡◌, ◌<◌, ◌≤◌, IfOk};
ghost use Rattle.qp_model.specs.Sound.{IsSound};

use crate::book::Book;
use crate::ending::Shelf;
use crate::tables;
use crate::world::PlainWorld;
use qp_base::Memory;
use qp_model::System;
use qp_plain_words::BlockWord;
use std::alloc::Global;

impl<'a> PlainWorld<'a> {
    ghost use Rattle.qp_plain.specs.NewWorld.{GoesTo, IsNewWorld, chosen, lanes_in};

    /// A world with so many lanes, in which nothing has happened: the stop word is 0, and no lane has handed in a code. Lane 0 is
    /// chosen.
    pub fn new(alloc: Global, sys: &'a System, lanes: u32) -> Result<PlainWorld<'a>, Memory>
        requires sound { IsSound sys.now }
        requires some { 0 < lanes }
        requires few { lanes ≤ 49 }
        ensures { IfOk result (λ w. IsNewWorld sys.now lanes w) }
    {
        let book = Book::new(alloc, lanes)?;
        let pools = tables::pools(alloc, sys)?;
        let none = BlockWord { ops: 0, refs: 0 };
        let Ok(blocks) = Vec::from_array(alloc, [none; 480]) else {
            return Err(Memory);
        };
        let cells = tables::cells(alloc)?;
        let queues = tables::queues(alloc, sys)?;
        let signals = tables::signals(alloc, sys)?;
        let timers = tables::timers(alloc, sys)?;
        let shelf = Shelf::new(alloc)?;
        Ok(PlainWorld {
            sys,
            book,
            by: 0,
            stop: 0,
            pools,
            blocks,
            cells,
            queues,
            signals,
            timers,
            shelf,
        })
    }

    /// Chooses a lane for the calls, and answers the one chosen before. The stop word stays.
    pub fn go(&mut self, lane: u32) -> u32
        requires { lane < lanes_in self.old }
        ensures former { result ≡ chosen self.old }
        ensures goes { GoesTo lane self.old self.new }
    {
        self.book.go(lane)
    }

    /// How many lanes there are.
    pub fn lanes(&self) -> u32
        ensures { result ≡ lanes_in self.now }
    {
        self.book.others.len() as u32
    }
}
