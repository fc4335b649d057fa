//! Where an object stands behind its records.

ghost use Rattle.std.specs.Prelude.{◌≡◌};
ghost use Rattle.qp_check_course.specs.AsState.{as_state};
ghost use Rattle.qp_check_course.specs.Standing.{ShowsLeft, config_left_in};

use crate::states::{Own, State, discard};

/// The state of an object between two steps, with its variables in the order of its chart.
#[derive(Drop)]
pub struct Standing {
    pub leaf: u8,
    pub vars: Vec<i64>,
}

impl Own {
    fn shown(self) -> Standing
        ensures leaf { result.leaf ≡ self.leaf }
        ensures vars { result.vars ≡ self.vars }
    {
        Standing {
            leaf: self.leaf,
            vars: self.vars,
        }
    }
}

impl<'a> State<'a> {
    /// Where the object stands, if neither a start nor a step is under way.
    pub(crate) fn standing(self) -> Option<Standing>
        ensures { ShowsLeft (config_left_in (as_state self.entry)) result }
    {
        match self {
            State::Between { own, kept: _kept } => Some(own.shown()),
            State::Releasing {
                own,
                kept: _kept,
                ..
            } => Some(own.shown()),
            State::Returning {
                own,
                kept: _kept,
                ..
            } => Some(own.shown()),
            other => {
                discard(other);
                None
            }
        }
    }
}
