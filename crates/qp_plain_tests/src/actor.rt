//! An object under trial.

use qp_dispatch::Object;

/// Why a trial ended.
#[derive(Drop, Clone, Copy)]
pub(crate) enum End {
    /// The queue of the object is empty.
    Empty,
    /// It was ended at the scheduling point asked for.
    Left,
    /// Its lane has stopped.
    Stopped,
    /// Memory was refused.
    Memory,
    /// The system lacks what was named, the lane has no room, or the trial is too long.
    Refused,
}

/// An object with its priority, the ceiling of its lane, and how many scheduling points its steps have come to.
#[derive(Drop)]
pub(crate) struct Actor {
    pub(crate) me: u8,
    pub(crate) object: Object,
    pub(crate) ceiling: u8,
    pub(crate) points: u32,
}
