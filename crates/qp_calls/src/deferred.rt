//! The deferred list of an object.

ghost use Rattle.std.specs.Prelude.{◌≡◌, ◌≤◌, IfOk, [], length, nat_lt, not};

use crate::tokens::HeldEntry;
use circular_buffer::HeapCircularBuffer;
use qp_base::Memory;
use std::alloc::Global;

/// Entries that an object has deferred, the oldest first, and room for at most so many.
#[derive(Drop)]
pub struct Deferred {
    pub(crate) entries: HeapCircularBuffer<HeldEntry>,
    ghost few: { entries.capacity ≤ 255 },
}

impl Deferred {
    /// An empty list with room for `cap` entries.
    pub fn new(alloc: Global, cap: u8) -> Result<Deferred, Memory>
        ensures { IfOk result (λ d. (d.entries.items ≡ []) × (d.entries.capacity ≡ cap)) }
    {
        match HeapCircularBuffer::with_capacity(alloc, usize::from(cap)) {
            Ok(entries) => Ok(Deferred { entries }),
            Err(_) => Err(Memory),
        }
    }

    /// Whether there is no room for one more.
    pub(crate) fn is_full(&self) -> bool
        ensures { result ≡ not (nat_lt (length self.now.entries.items) self.now.entries.capacity) }
    {
        self.entries.len() >= self.entries.capacity()
    }

    /// The number of its entries.
    pub(crate) fn len(&self) -> u16
        ensures { result ≡ length self.now.entries.items }
    {
        self.entries.len() as u16
    }
}
