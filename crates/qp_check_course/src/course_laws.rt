//! What the states of an object's course promise. Each function here does nothing: its contract is the promise.

ghost use Rattle.qp_check_course.specs.CourseLaws.{PiecesAreDecided, RecordsAreDecided};

/// The states that an object's pieces lead to tell whether the pieces follow its chart.
pub fn pieces_are_decided()
    ensures { PiecesAreDecided }
{}

/// The states that an object's records lead to tell whether the records follow its chart, with some points between them.
pub fn records_are_decided()
    ensures { RecordsAreDecided }
{}
