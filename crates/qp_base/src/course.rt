//! How a sink that gathers has gone so far.

/// Whether all that left the room of a sink that gathers went on.
#[derive(Clone, Copy, PartialEq, Eq, Debug, Drop)]
pub enum Course {
    /// All of it did.
    Open,
    /// What is gathered didn't go on whole.
    Torn,
    /// A piece that was too large to be gathered didn't go on whole.
    Stopped,
}
