//! The unit of the numbers of words.

/// What one operation adds to the number of a pool's, a block's, a signal's or a time event's word.
pub const UNIT: u64 = 1 << 32;
