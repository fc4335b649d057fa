//! The world of one thread.

ghost use Rattle.qp_plain.specs.Book.{lists_of, logs_of};
ghost use Rattle.qp_plain.specs.World.{StopIs, WorldHolds};

use crate::book::Book;
use crate::ending::Shelf;
use qp_base::Ev;
use qp_model::System;
use qp_plain_words::{BlockWord, PoolWord, QueueWord, SignalWord, TimerWord};

/// The world of one thread: its lanes, its words in tables with fixed places, the events in the blocks, the object for
/// which records are added, the stop word, and room for the lanes at the end.
#[derive(Drop)]
pub struct PlainWorld<'a> {
    pub(crate) sys: &'a System,
    pub(crate) book: Book,
    pub(crate) by: u8,
    pub(crate) stop: u8,
    pub(crate) pools: Vec<PoolWord>,
    pub(crate) blocks: Vec<BlockWord>,
    pub(crate) cells: Vec<Ev>,
    pub(crate) queues: Vec<QueueWord>,
    pub(crate) signals: Vec<SignalWord>,
    pub(crate) timers: Vec<TimerWord>,
    pub(crate) shelf: Shelf,
    ghost holds: { WorldHolds sys.now (lists_of book) book.order.items pools.items blocks.items cells.items queues.items
        signals.items timers.items },
    ghost stops: { StopIs stop (logs_of book) },
}
