//! Where each word stands.

ghost use Rattle.std.specs.Prelude.{◌≡◌};
ghost use Rattle.qp_table.specs.Rule.{pool_at, block_at, queue_at, cell_at, event_word_at};

/// The word of a pool.
pub fn pool_at(pool: u8) -> usize
    ensures { result ≡ pool_at pool }
{
    8 * pool as usize
}

/// The word of a block.
pub fn block_at(pool: u8, block: u8) -> usize
    ensures { result ≡ block_at pool block }
{
    128 + 8 * (32 * pool as usize + block as usize)
}

/// The word of a queue.
pub fn queue_at(object: u8) -> usize
    ensures { result ≡ queue_at object }
{
    4224 + 8 * object as usize
}

/// A cell of a queue.
pub fn cell_at(object: u8, cell: u16) -> usize
    ensures { result ≡ cell_at object cell }
{
    4488 + 256 * object as usize + cell as usize
}

/// An event word of a block.
pub fn event_at(pool: u8, block: u8, place: u8) -> usize
    ensures { result ≡ event_word_at pool block place }
{
    12936 + 16 * (32 * pool as usize + block as usize) + place as usize
}
