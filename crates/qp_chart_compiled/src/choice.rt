//! The rows that may handle an event.

use crate::agenda::Plan;

/// A row that may handle an event at some leaf, and what is done where it does.
#[derive(Clone, Copy)]
pub(crate) struct Choice {
    pub state: u8,
    pub place: u8,
    pub plan: Plan,
}

/// The choices at one leaf for the signals of one rest, those of inner states first.
#[derive(Drop)]
pub(crate) struct Choices {
    pub items: Vec<Choice>,
}

/// The choices at one leaf, by the rest that a signal leaves.
#[derive(Drop)]
pub(crate) struct Leaf {
    pub classes: Vec<Choices>,
}
