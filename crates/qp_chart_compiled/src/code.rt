//! Codes: the tasks of a chart by number.

/// A list of actions of a chart. A row stands by its state and its place there, from 1.
#[derive(Clone, Copy)]
pub(crate) enum ActionList {
    Start,
    Entry(u8),
    Exit(u8),
    Init(u8),
    Row { state: u8, place: u8 },
}

/// A task, where an action stands by its place.
#[derive(Clone, Copy)]
pub(crate) enum Code {
    Begin,
    Run {
        state: u8,
        place: u8,
    },
    Unhandled,
    Exit {
        state: u8,
    },
    Enter {
        state: u8,
    },
    Init {
        state: u8,
    },
    Done,
    /// An action of a list, by its place from 0.
    Do {
        list: ActionList,
        at: usize,
    },
    /// An action within the `locked` at that place.
    Within {
        list: ActionList,
        at: usize,
        place: usize,
    },
    Raise {
        ceiling: u8,
    },
    Restore,
}
