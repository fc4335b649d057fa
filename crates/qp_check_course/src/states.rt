//! The states of an object's course.

ghost use Rattle.std.specs.Prelude.{◌≡◌};
ghost use Rattle.qp_check_course.specs.Goes.{moment_of};
ghost use Rattle.qp_check_course.specs.AsState.{as_way};

use crate::notes::Note;
use crate::tasks::CourseTask;
use qp_chart::Chart;
use qp_check_calls::{CallState, Kept};
use qp_model::{Entry, Params, System};
use std::collections::VecDeque;

/// The object whose course is read: its system, its chart, its priority and the capacity of its deferred list.
#[derive(Clone, Copy)]
pub(crate) struct Actor<'a> {
    pub sys: &'a System,
    pub chart: &'a Chart,
    pub o: u8,
    pub room: u8,
}

/// The event that a step works on, and its entry.
#[derive(Drop)]
pub(crate) struct Step {
    pub sig: u64,
    pub pars: Params,
    pub entry: Entry,
}

/// What is under way: a start, or a step.
#[derive(Drop)]
pub(crate) enum Way {
    Starting,
    Stepping(Step),
}

impl Way {
    /// The entry that a step works on; a start has none.
    pub(crate) fn entry(&self) -> Option<Entry>
        ensures { result ≡ (moment_of (as_way self.now)).entry }
    {
        match self {
            Way::Starting => None,
            Way::Stepping(step) => Some(step.entry),
        }
    }
}

/// What an object has from step to step, beside its deferred list.
#[derive(Drop)]
pub(crate) struct Own {
    pub leaf: u8,
    pub vars: Vec<i64>,
    pub ok: i64,
    pub former: u64,
}

/// The tasks left of a start or a step, and the leaf after it.
#[derive(Drop)]
pub(crate) struct Left<'a> {
    pub tasks: VecDeque<CourseTask<'a>>,
    pub leaf: u8,
}

/// What is to come next.
#[derive(Drop)]
pub(crate) enum State<'a> {
    /// A `took`, or nothing.
    Between {
        own: Own,
        kept: Kept,
    },
    /// A note, which may end an action.
    Telling {
        way: Way,
        note: Note,
        ends: bool,
        left: Left<'a>,
        own: Own,
        kept: Kept,
    },
    /// The ceiling raised.
    Raising {
        way: Way,
        ceiling: u8,
        left: Left<'a>,
        own: Own,
        kept: Kept,
    },
    /// The point of an action.
    AtPoint {
        step: Step,
        left: Left<'a>,
        own: Own,
        kept: Kept,
    },
    /// The rest of a call.
    InCall {
        way: Way,
        inner: bool,
        rest: CallState,
        left: Left<'a>,
        own: Own,
    },
    /// The point after a post of a publication.
    AtPost {
        way: Way,
        rest: CallState,
        left: Left<'a>,
        own: Own,
    },
    /// The release of the step's entry.
    Releasing {
        entry: Entry,
        own: Own,
        kept: Kept,
    },
    /// Its block coming back.
    Returning {
        p: u64,
        b: u64,
        d: u64,
        own: Own,
        kept: Kept,
    },
    /// Nothing more.
    Asserted,
}

/// Drops a state. Its many kinds make a long proof of a drop, so it stands here once for all.
pub(crate) fn discard(_state: State<'_>) {}
