//! How far an object has come.

use qp_check_course::CourseReading;

/// How many events an object has taken, and its course, as far as its lane was read.
#[derive(Drop)]
pub(crate) struct Came<'a> {
    pub(crate) taken: usize,
    pub(crate) course: CourseReading<'a>,
}
