//! The word of a pool.

ghost use Rattle.std.specs.Prelude.{◌≡◌, ◌+◌, ◌<◌, ◌≤◌, true, false, length};
ghost use Rattle.qp_chart.specs.StateTree.{has};
ghost use Rattle.qp_model.specs.Lists.{count_up, is_first, with_number, without_all};

use std::marker::Model;

/// How many operations a pool had, and its free blocks: a bit for each, and their count.
///
/// Contracts see what the law book has of a pool: the count of operations, and the free blocks ascending.
#[derive(Drop)]
pub struct PoolWord {
    ops: u32,
    bits: u32,
    left: u8,
}

impl Model for PoolWord {
    ghost use Rattle.qp_model.specs.FreeBlocks.{Pool};

    ghost Value = { Pool };

    ghost use Rattle.std.specs.Prelude.{◌≡◌, length};
    ghost use Rattle.qp_plain_words.specs.Places.{bit_places};

    ghost view = { λ w. record { count = w.ops; free = bit_places w.bits } };

    ghost invariant = { λ w. w.left ≡ length (bit_places w.bits) };
}

impl PoolWord {
    /// A pool whose blocks are all free.
    pub fn new(blocks: u8) -> PoolWord
        requires { blocks ≤ 32 }
        ensures { result ≡ record { count = 0; free = count_up 0 blocks } }
    {
        let bits = if blocks == 32 {
            u32::MAX
        } else {
            (1 << blocks) - 1
        };
        PoolWord {
            ops: 0,
            bits,
            left: blocks,
        }
    }

    /// The number of its operations.
    pub fn ops(&self) -> u32
        ensures { result ≡ self.now.count }
    {
        self.ops
    }

    /// How many blocks are free.
    pub fn left(&self) -> u8
        ensures { result ≡ length self.now.free }
    {
        self.left
    }

    /// Gives out the lowest free block.
    pub fn take(&mut self) -> u8
        requires some { 0 < length self.old.free }
        requires few { self.old.count < 4294967295 }
        ensures first { is_first result self.old.free ≡ true }
        ensures within { result < 32 }
        ensures new { self.new ≡ record { count = self.old.count + 1; free = without_all result self.old.free } }
    {
        let b = self.bits.trailing_zeros();
        self.bits &= !(1 << b);
        self.left -= 1;
        self.ops += 1;
        b as u8
    }

    /// Takes back a block that was given out.
    pub fn put(&mut self, b: u8)
        requires within { b < 32 }
        requires out { has self.old.free b ≡ false }
        requires few { self.old.count < 4294967295 }
        ensures { self.new ≡ record { count = self.old.count + 1; free = with_number b self.old.free } }
    {
        self.bits |= 1 << b;
        self.left += 1;
        self.ops += 1;
    }
}
