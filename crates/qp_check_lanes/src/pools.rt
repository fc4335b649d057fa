//! What the word of a pool holds.

ghost use Rattle.std.specs.Prelude.{◌≡◌, length, IfOk, OnOk};
ghost use Rattle.qp_chart.specs.StateTree.{has};
ghost use Rattle.qp_model.specs.FreeBlocks.{Pool, free_blocks};
ghost use Rattle.qp_model.specs.Lists.{count_up, is_first, with_number, without_all};

use crate::word_state::WordState;
use qp_model::Body;
use std::alloc::{AllocError, Global};
use std::collections::BTreeSet;

/// The free blocks of a pool after so many operations. Records may name any number as a block, so an operation takes logarithmic
/// time.
#[derive(Drop)]
pub struct FreeBlocks {
    blocks: u8,
    count: u64,
    pub free: BTreeSet<u64>,
}

impl FreeBlocks {
    /// All blocks are free.
    pub fn new(alloc: Global, blocks: u8) -> Result<Self, AllocError>
        ensures { IfOk result (λ s. (s.blocks ≡ blocks) × (s.count ≡ 0) × (s.free.keys ≡ count_up 0 blocks)) }
    {
        let mut free = BTreeSet::new(alloc);
        for b in 0..blocks {
            let _ = free.insert(u64::from(b))?;
        }
        Ok(FreeBlocks {
            blocks,
            count: 0,
            free,
        })
    }

    /// How many blocks are free.
    pub fn left(&self) -> u64
        ensures { result ≡ length self.now.free.keys }
    {
        self.free.len() as u64
    }

    /// Whether a block is free.
    pub fn has(&self, b: u64) -> bool
        ensures { result ≡ has self.now.free.keys b }
    {
        self.free.contains(&b)
    }

    /// Whether a block is the least free one.
    fn is_next(&self, b: u64) -> bool
        ensures { result ≡ is_first b self.now.free.keys }
    {
        match self.free.first() {
            Some(c) => *c == b,
            None => false,
        }
    }

    fn take_out(&mut self, b: u64)
        ensures blocks { self.new.blocks ≡ self.old.blocks }
        ensures count { self.new.count ≡ self.old.count }
        ensures free { self.new.free.keys ≡ without_all b self.old.free.keys }
    {
        if self.free.len() > 0 {
            let _ = self.free.remove(&b);
        }
    }

    fn put_in(&mut self, b: u64) -> Result<(), AllocError>
        ensures blocks { self.new.blocks ≡ self.old.blocks }
        ensures count { self.new.count ≡ self.old.count }
        ensures free { OnOk result (self.new.free.keys ≡ with_number b self.old.free.keys) }
    {
        let _ = self.free.insert(b)?;
        Ok(())
    }
}

impl WordState for FreeBlocks {
    ghost State = { Pool };

    ghost machine = { λ s. free_blocks s.blocks };

    ghost state = { λ s. record { count = s.count; free = s.free.keys } };

    fn allows(&self, _of: u8, body: &Body) -> bool {
        match body {
            Body::New { n, b, .. } => *n == self.count && self.is_next(*b),
            Body::Back { n, b, .. } => {
                *n == self.count && *b < u64::from(self.blocks) && !self.has(*b)
            }
            _ => false,
        }
    }

    fn apply(&mut self, _of: u8, body: &Body) -> Result<(), AllocError> {
        match body {
            Body::New { b, .. } => {
                self.take_out(*b);
                self.count += 1;
            }
            Body::Back { b, .. } => {
                self.put_in(*b)?;
                self.count += 1;
            }
            _ => {}
        }
        Ok(())
    }

    fn says(&self, body: &Body) -> bool {
        match body {
            Body::Short { free, reserve, .. } => {
                self.free.len() as u64 == *free && *free <= *reserve
            }
            Body::NoBlock { free, .. } => self.free.len() as u64 == *free && *free == 0,
            _ => false,
        }
    }
}
