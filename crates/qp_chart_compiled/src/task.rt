//! What a step or a start is to do, one by one.

use qp_chart::Plain;

/// A note, an action, or a mark of `locked`.
#[derive(Drop)]
pub enum Task<'a> {
    Begin,
    /// The row by its place in the state, from 1.
    Run { state: u8, place: u8 },
    /// No state handles the event.
    Unhandled,
    Exit { state: u8 },
    Enter { state: u8 },
    Init { state: u8 },
    Done,
    Do(&'a Plain),
    /// The ceiling is raised, and the former one comes back.
    Raise { ceiling: u8 },
    Restore,
}
