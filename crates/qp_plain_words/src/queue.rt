//! The word of a queue.

ghost use Rattle.std.specs.Prelude.{◌≡◌, ◌+◌, ◌-◌, ◌<◌, ◌≤◌, IfOk, IfSome, true, [], ◌∷◌, ◌++◌, length};
ghost use Rattle.qp_calls.specs.Clauses.{entry_of};
ghost use Rattle.qp_plain_words.specs.Queue.{TakesFront, empty_line, is_token};

use circular_buffer::HeapCircularBuffer;
use qp_base::Memory;
use qp_calls::{Counts, HeldEntry};
use std::alloc::Global;
use std::marker::Model;

/// The entries of a queue in order, and how many came at the end and in front and were taken.
///
/// Contracts see what the law book has of a queue, and the length of its ring.
#[derive(Drop)]
pub struct QueueWord {
    entries: HeapCircularBuffer<HeldEntry>,
    f: u32,
    l: u32,
    m: u32,
}

impl Model for QueueWord {
    ghost use Rattle.std.specs.Prelude.{◌-◌, ◌<◌, ◌≤◌, map, length};
    ghost use Rattle.qp_plain_words.specs.Queue.{Queue};

    ghost Value = { Queue };

    ghost use Rattle.qp_calls.specs.Clauses.{entry_of};
    ghost use Rattle.std.specs.Prelude.{◌≡◌, true};
    ghost use Rattle.std.specs.List.{list_all};
    ghost use Rattle.qp_plain_words.specs.Queue.{is_token};

    ghost view = { λ w. record {
      line = record { entries = map entry_of w.entries.items; f = w.f; l = w.l; m = w.m };
      ring =
          w.entries.capacity - 1;
    } };

    ghost invariant = { λ w. (0 < w.entries.capacity) × (w.entries.capacity ≤ 256) × (list_all is_token w.entries.items ≡ true) };
}

impl QueueWord {
    /// An empty queue with a ring of this length.
    pub fn new(alloc: Global, ring: u8) -> Result<QueueWord, Memory>
        ensures { IfOk result (λ w. w ≡ record { line = empty_line; ring = ring }) }
    {
        match HeapCircularBuffer::with_capacity(alloc, usize::from(ring) + 1) {
            Ok(entries) => Ok(QueueWord {
                entries,
                f: 0,
                l: 0,
                m: 0,
            }),
            Err(_) => Err(Memory),
        }
    }

    /// How many entries came and went.
    pub fn counts(&self) -> Counts
        ensures f { result.f ≡ self.now.line.f }
        ensures l { result.l ≡ self.now.line.l }
        ensures m { result.m ≡ self.now.line.m }
    {
        Counts {
            f: self.f,
            l: self.l,
            m: self.m,
        }
    }

    /// How many entries are free: the ring's, and the front's place.
    pub fn free(&self) -> u16
        ensures { result ≡ self.now.ring + 1 - length self.now.line.entries }
    {
        (self.entries.capacity() - self.entries.len()) as u16
    }

    /// Appends an entry, for which there is room.
    pub fn post(&mut self, e: HeldEntry)
        requires room { length self.old.line.entries ≤ self.old.ring }
        requires few { self.old.line.f < 4294967295 }
        requires token { is_token e ≡ true }
        ensures ring { self.new.ring ≡ self.old.ring }
        ensures line { self.new.line ≡ record self.old.line { entries = self.old.line.entries ++ entry_of e ∷ []; f = self.old.line.f + 1 } }
    {
        self.entries.push_back(e);
        self.f += 1;
    }

    /// Puts an entry in front, for which there is room.
    pub fn post_front(&mut self, e: HeldEntry)
        requires room { length self.old.line.entries ≤ self.old.ring }
        requires few { self.old.line.l < 4294967295 }
        requires token { is_token e ≡ true }
        ensures ring { self.new.ring ≡ self.old.ring }
        ensures line { self.new.line ≡ record self.old.line { entries = entry_of e ∷ self.old.line.entries; l = self.old.line.l + 1 } }
    {
        self.entries.push_front(e);
        self.l += 1;
    }

    /// Takes the front entry. None exactly where the queue is empty.
    pub fn take(&mut self) -> Option<HeldEntry>
        requires few { self.old.line.m < 4294967295 }
        ensures ring { self.new.ring ≡ self.old.ring }
        ensures takes { TakesFront self.old.line self.new.line result }
        ensures token { IfSome result (λ e. is_token e ≡ true) }
    {
        let e = self.entries.pop_front()?;
        self.m += 1;
        Some(e)
    }
}
