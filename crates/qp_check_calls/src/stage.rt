//! What is left to be read of a call's records.

use crate::call::{Answer, Call};
use crate::members::Members;
use qp_model::Entry;

/// What comes behind a part of a call.
#[derive(Drop)]
pub(crate) enum Behind {
    /// Nothing: the call ends.
    Ends(Answer),
    /// The rest of a flush of so many entries.
    FlushesOn {
        total: u64,
    },
    /// The posts of a publication to these members, and its end.
    PublishesOn {
        own: Entry,
        former: Option<u64>,
        others: Members,
    },
}

/// Where a call puts an entry.
#[derive(Drop)]
pub(crate) enum Goal {
    ToQueue {
        to: u8,
        margin: Option<u8>,
        behind: Behind,
    },
    /// Last-in; behind it a recall releases the entry that was deferred.
    ToFront {
        recalled: Option<Entry>,
    },
    ToDeferred,
    /// To each subscriber of the signal.
    ToSet {
        sig: u16,
    },
}

#[derive(Drop)]
pub(crate) enum CallStage {
    /// The first record of a call that is no flush.
    Begins {
        room: u8,
        call: Call,
    },
    /// A reference of a block, for an entry with this goal.
    Refers {
        p: u64,
        b: u64,
        goal: Goal,
    },
    Puts {
        goal: Goal,
        e: Entry,
    },
    /// The ceiling is raised before the posts to these members.
    Raises {
        own: Entry,
        a: u8,
        others: Members,
    },
    Restores {
        own: Entry,
        former: u64,
    },
    Drops {
        e: Entry,
        behind: Behind,
    },
    /// A block comes back behind operation `d`.
    Returns {
        p: u64,
        b: u64,
        d: u64,
        behind: Behind,
    },
    Flushes {
        total: u64,
    },
    Whole(Answer),
}
