//! Parts of an agenda: a task, or a part of a publication.

use qp_calls::{Publication, RoomFault};

/// What became of a part.
#[derive(Drop)]
pub(crate) enum Part {
    /// It was done, and no scheduling point stands behind it.
    On,
    /// It was done, and a scheduling point stands behind it.
    Point,
    /// It ended in this assertion.
    Asserted(u8),
    /// There was no room, or no memory, for its records.
    Cut(RoomFault),
}

/// A handler's publication under way, and the ceiling that it restores.
#[derive(Drop)]
pub(crate) struct Under {
    pub(crate) publication: Publication,
    pub(crate) ceiling: u8,
}
