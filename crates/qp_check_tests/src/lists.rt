//! Lists of object 1: an action or a call that ends in its assertion at their front, publications, and the shape of the whole list.

use crate::lines::Line::{
    Back, BadTicks, Begin, Done, Dropped, Flush, Full, Given, Lifo, Nil, NoDefer, NoEntry, Posted,
    Raised, Recall, Referred, Restored, Say, Seen, Shown, Spent, Taken, TakenUnknown, Unhandled,
};
use crate::lines::{Line, POOLED, STATIC, all_told, system};
use qp_check_calls::{Cut, Told};
use qp_check_shapes::{
    Scene, asserts, behind_action, behind_assertion, behind_unit, has_shape, is_front,
    stops_in_publication,
};
use qp_model::{Entry, System};
use std::alloc::{AllocError, Global};

/// An entry of signal 5 without a block, which none has.
const UNPOOLED: Entry = Entry {
    pool: 0,
    block: 5,
    name: 0,
};

/// Another reference of the block.
const OTHER: Entry = Entry {
    pool: 1,
    block: 0,
    name: 1,
};

/// The static signal 4 is shown to objects 1 and 2.
const SHOWN: Line = Shown(4, 3);

const POSTED: [Line; 3] = [SHOWN, Raised(2), Posted(2, STATIC)];

const REFUSED: [Line; 4] = [SHOWN, Raised(2), Posted(2, STATIC), NoEntry(1, 1)];

/// What is asked of a list, and what is answered.
#[derive(Clone, Copy)]
enum Asked {
    /// How many records stand behind the first action; None where there is none.
    Unit(Option<usize>),
    /// How many stand behind a call that ends in its assertion.
    Assertion(Option<usize>),
    /// How many stand behind an action, which may be a publication.
    Action(Option<usize>),
    /// Whether it ends in an assertion.
    Asserts(bool),
    /// Whether it stops in a publication.
    Stops(bool),
    /// Whether it is a front of an action.
    Begins(bool),
    /// Whether it has the shape of an object's list that is cut so.
    Shape(Cut, bool),
}

const LISTS: &[(Asked, &[Line])] = &[
    // One action at the front.
    // Signal 4 is static and signal 5 is not, so it has no entry without a block.
    (Asked::Unit(Some(1)), &[Posted(1, STATIC), Done]),
    (Asked::Unit(None), &[Posted(1, UNPOOLED)]),
    (Asked::Unit(Some(1)), &[Full, NoDefer]),
    (Asked::Unit(None), &[NoEntry(1, 2)]),
    (Asked::Assertion(Some(0)), &[NoEntry(1, 2)]),
    // A pooled post draws a block, refers to it and posts that reference; a refusal drops it, and the block comes back.
    (
        Asked::Unit(Some(0)),
        &[Given, Referred(0), Posted(1, POOLED)],
    ),
    (Asked::Unit(None), &[Given, Referred(0), Posted(1, OTHER)]),
    (
        Asked::Unit(Some(0)),
        &[Given, Referred(0), Full, Dropped(0, 0), Back(2)],
    ),
    (
        Asked::Unit(None),
        &[Given, Referred(0), Full, Dropped(0, 0)],
    ),
    (
        Asked::Assertion(Some(0)),
        &[Given, Referred(0), NoEntry(1, 2)],
    ),
    // One flushed entry at a time, and a recalled entry with its last-in post.
    (Asked::Unit(Some(1)), &[Flush(STATIC), Flush(STATIC)]),
    (Asked::Unit(Some(0)), &[Recall(STATIC), Lifo(STATIC)]),
    (Asked::Unit(None), &[Recall(STATIC)]),
    // Publications: the highest member comes first, under a ceiling that is restored.
    (
        Asked::Action(Some(0)),
        &[
            SHOWN,
            Raised(2),
            Posted(2, STATIC),
            Posted(1, STATIC),
            Restored,
        ],
    ),
    (
        Asked::Action(None),
        &[
            SHOWN,
            Raised(1),
            Posted(1, STATIC),
            Posted(2, STATIC),
            Restored,
        ],
    ),
    (
        Asked::Action(Some(1)),
        &[
            Given,
            Referred(0),
            Shown(5, 0),
            Dropped(0, 0),
            Back(2),
            Done,
        ],
    ),
    (Asked::Action(Some(0)), &[Posted(1, STATIC)]),
    // A queue with no entry cuts a publication, and a lane may stop in one.
    (Asked::Asserts(true), &REFUSED),
    (Asked::Stops(false), &REFUSED),
    (Asked::Asserts(false), &POSTED),
    (Asked::Stops(true), &POSTED),
    (Asked::Begins(true), &POSTED),
    (Asked::Begins(true), &[Recall(POOLED), Referred(0)]),
    (
        Asked::Begins(false),
        &[Posted(2, STATIC), Posted(1, STATIC)],
    ),
    // A start is whole with its `done`; a list that was cut may end before it, also with its assertion.
    (Asked::Shape(Cut::Whole, false), &[]),
    (Asked::Shape(Cut::Stopped, true), &[]),
    (
        Asked::Shape(Cut::Stopped, false),
        &[Begin, Raised(1), Say(7)],
    ),
    (
        Asked::Shape(Cut::Anywhere, true),
        &[Begin, Raised(1), Say(7)],
    ),
    (Asked::Shape(Cut::Whole, false), &[Begin, BadTicks]),
    (Asked::Shape(Cut::Stopped, true), &[Begin, BadTicks]),
    (Asked::Shape(Cut::Whole, true), &[Begin, Done]),
    // Behind a start a step takes an entry, with an event or without; queues are looked at between steps, and what is left may be a
    // step that stops, or `spent`.
    (Asked::Shape(Cut::Stopped, false), &[Begin, Done, Taken(1)]),
    (Asked::Shape(Cut::Anywhere, true), &[Begin, Done, Taken(1)]),
    (
        Asked::Shape(Cut::Whole, false),
        &[Begin, Done, TakenUnknown(1), Unhandled],
    ),
    (
        Asked::Shape(Cut::Stopped, true),
        &[Begin, Done, TakenUnknown(1), Unhandled],
    ),
    (
        Asked::Shape(Cut::Whole, true),
        &[
            Begin,
            Done,
            TakenUnknown(1),
            Unhandled,
            Done,
            Nil,
            Seen,
            Spent,
        ],
    ),
    (
        Asked::Shape(Cut::Anywhere, false),
        &[
            Begin,
            Done,
            TakenUnknown(1),
            Unhandled,
            Done,
            Nil,
            Seen,
            Spent,
            Spent,
        ],
    ),
];

/// How many records are left, if any list is.
fn count(rest: Option<&[Told]>) -> Option<usize> {
    match rest {
        Some(rest) => Some(rest.len()),
        None => None,
    }
}

fn is_answered(sys: &System, asked: Asked, told: &[Told]) -> bool {
    let scene = Scene::of(sys, 1);
    match asked {
        Asked::Unit(left) => count(behind_unit(&scene, None, told)) == left,
        Asked::Assertion(left) => count(behind_assertion(&scene, None, told)) == left,
        Asked::Action(left) => count(behind_action(&scene, None, told)) == left,
        Asked::Asserts(is_so) => asserts(&scene, None, told) == is_so,
        Asked::Stops(is_so) => stops_in_publication(&scene, told) == is_so,
        Asked::Begins(is_so) => is_front(&scene, None, told) == is_so,
        Asked::Shape(cut, is_so) => has_shape(&scene, true, cut, told) == is_so,
    }
}

/// Whether it is answered so of the records of these lines.
fn is_answered_of(alloc: Global, asked: Asked, lines: &[Line]) -> Result<bool, AllocError> {
    let told = all_told(alloc, lines)?;
    let sys = system(alloc)?;
    Ok(is_answered(&sys, asked, told.as_slice()))
}

/// The first list of which something else is answered.
fn first_wrong(alloc: Global) -> Option<usize> {
    for (i, (asked, lines)) in LISTS.iter().enumerate() {
        if is_answered_of(alloc, *asked, lines) != Ok(true) {
            return Some(i);
        }
    }
    None
}

#[test]
fn lists(rt: HostRuntime) {
    let wrong = first_wrong(rt.alloc());
    assert!(rt; wrong.is_none(), "list {wrong:?}");
}
