//! How a test ends.

/// Why a test ends.
#[derive(Drop)]
pub(crate) enum End {
    /// All is done.
    Whole,
    /// An assertion, by its code.
    Assert(u8),
    /// The system lacks what was named, or the lane has no room.
    Refused,
}
