//! After how many operations the lives of a lane's used blocks ended.

ghost use Rattle.std.specs.Prelude.{◌≡◌, ◌≢◌, ℕ, ◌+◌, ◌*◌, ◌<◌, slice_index};

/// After how many operations the lives of blocks ended that this lane used, by pool and block: the lane that drops the last reference
/// to a block remembers it until it gives the block back.
#[derive(Drop)]
pub struct Ends {
    pub at: [u64; 512],
}

impl Ends {
    /// Where nothing has ended.
    pub fn none() -> Ends
        ensures { (i : ℕ) → i < 512 → slice_index result.at i ≡ 0 }
    {
        Ends { at: [0; 512] }
    }

    /// After how many operations the block's life ended.
    pub fn of(&self, pool: u8, block: u8) -> u64
        requires pool { pool < 16 }
        requires block { block < 32 }
        ensures { result ≡ slice_index self.now.at (32 * pool + block) }
    {
        self.at[32 * usize::from(pool) + usize::from(block)]
    }

    /// The block's life ended after so many operations.
    pub fn set(&mut self, pool: u8, block: u8, end: u64)
        requires pool { pool < 16 }
        requires block { block < 32 }
        ensures here { slice_index self.new.at (32 * pool + block) ≡ end }
        ensures others { (i : ℕ) → i ≢ 32 * pool + block → slice_index self.new.at i ≡ slice_index self.old.at i }
    {
        self.at[32 * usize::from(pool) + usize::from(block)] = end;
    }
}
