//! Tokens: references and blocks in the hands of a lane. None of them can be copied.

ghost use Rattle.std.specs.Prelude.{◌≡◌};

use std::marker::Model;

/// A block that no reference names.
#[derive(Drop)]
pub struct Fresh {
    pool: u8,
    block: u8,
    used: bool,
}

impl Fresh {
    /// The token of a block; `used` where a reference to it was made since it was given out. For those who implement
    /// `Ops`: a call takes only a token that stands in the hands.
    pub fn of(pool: u8, block: u8, used: bool) -> Fresh
        ensures { result ≡ record { pool = pool; block = block; used = used } }
    {
        Fresh { pool, block, used }
    }

    pub fn pool(&self) -> u8
        ensures { result ≡ self.now.pool }
    {
        self.pool
    }

    pub fn block(&self) -> u8
        ensures { result ≡ self.now.block }
    {
        self.block
    }
}

/// One reference to a block, named by the number of the operation that made it. Contracts see the pool, the block and the name.
// Pool and block are wider than their numbers, so that no gap stands before the name: one of six bytes, which no register has, would go
// by the stack each time an entry is moved.
#[derive(Drop)]
pub struct Hold {
    pool: u32,
    block: u32,
    name: u64,
}

impl Model for Hold {
    ghost use Rattle.std.specs.Prelude.{◌<◌};
    ghost use Rattle.qp_calls.specs.Tokens.{Hold as Reference};

    ghost Value = { Reference };

    ghost view = { λ h. record { pool = h.pool; block = h.block; name = h.name } };

    ghost invariant = { λ h. (h.pool < 256) × (h.block < 256) };
}

impl Hold {
    /// The token of a reference. For those who implement `Ops`: a call takes only a token that stands in the hands.
    pub fn of(pool: u8, block: u8, name: u64) -> Hold
        ensures { result ≡ record { pool = pool; block = block; name = name } }
    {
        Hold {
            pool: u32::from(pool),
            block: u32::from(block),
            name,
        }
    }

    pub fn pool(&self) -> u8
        ensures { result ≡ self.now.pool }
    {
        self.pool as u8
    }

    pub fn block(&self) -> u8
        ensures { result ≡ self.now.block }
    {
        self.block as u8
    }

    pub fn name(&self) -> u64
        ensures { result ≡ self.now.name }
    {
        self.name
    }
}

/// An entry of a queue: a static event by its signal, which has no reference, or a reference to a block.
#[derive(Drop)]
pub enum HeldEntry {
    Static(u16),
    Pool(Hold),
}
