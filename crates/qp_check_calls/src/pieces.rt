//! An object's records with the points between them, and how its list may end.

use crate::told::Told;

/// A record, or a scheduling point, where a row of looks stands in a kernel's lane.
#[derive(Drop)]
pub enum Piece {
    Tell(Told),
    Point,
}

/// How the list of an object may end: it is whole; or it stopped at a scheduling point; or a `spill` cut it after any record.
#[derive(Clone, Copy, PartialEq, Eq, Debug)]
pub enum Cut {
    Whole,
    Stopped,
    Anywhere,
}
