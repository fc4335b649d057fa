//! What every course of an object promises. Each function here does nothing: its contract is the promise.

ghost use Rattle.qp_model.specs.CourseLaws.{StepsLeaveTheirNotes, NothingFollowsAnAssertion, WholeListsAssertNothing, CoursesHaveTheirShape, CoursesKeepTheirList, AssertionShowsTicks};

/// A step that runs to completion leaves just the notes of its agenda: its handler, its exits, entries and initial
/// transitions, and `done`, in this order.
pub fn steps_leave_their_notes()
    ensures { StepsLeaveTheirNotes }
{}

/// No record of an object stands behind its assertion.
pub fn nothing_follows_an_assertion()
    ensures { NothingFollowsAnAssertion }
{}

/// The list of an object is whole exactly where it follows the chart and nothing was asserted in it.
pub fn whole_lists_assert_nothing()
    ensures { WholeListsAssertNothing }
{}

/// What follows an object's chart has the shape of an object's records: each call leaves the records of its answer,
/// also where the run stopped early.
pub fn courses_have_their_shape()
    ensures { CoursesHaveTheirShape }
{}

/// What follows an object's chart defers, recalls and flushes as its deferred list allows.
pub fn courses_keep_their_list()
    ensures { CoursesKeepTheirList }
{}

/// Assertion 4 shows the values that were refused: an action of a start or a step of the object's chart arms a timer, or arms it
/// anew, with just these values, evaluated where the actions before it have left the object; and no timer takes them.
pub fn assertions_show_refused_ticks()
    ensures { AssertionShowsTicks }
{}
