//! Tokens that are given up without a record.

ghost use Rattle.std.specs.Prelude.{◌≡◌};
ghost use Rattle.qp_calls.specs.Clauses.{EntryStands, StandsFresh};
ghost use Rattle.qp_shared_lane.specs.Lane.{state_view};

use qp_calls::{Fresh, HeldEntry};
use qp_shared_lane::LaneState;

/// Gives an entry up: its reference stays in the hands.
pub fn leave(_lane: &mut LaneState<'_>, _e: HeldEntry)
    requires { EntryStands _e (state_view _lane.old) }
    ensures { state_view _lane.new ≡ state_view _lane.old }
{}

/// Gives a block up: it stays in the hands.
pub fn leave_fresh(_lane: &mut LaneState<'_>, _f: Fresh)
    requires { StandsFresh _f (state_view _lane.old) }
    ensures { state_view _lane.new ≡ state_view _lane.old }
{}
