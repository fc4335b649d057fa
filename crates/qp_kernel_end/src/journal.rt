//! The outcome of a run by its journal.

ghost use Rattle.std.specs.Prelude.{◌≡◌, ◌<◌, ◌≤◌, length, position, true, IfSome};
ghost use Rattle.std.specs.List.{list_all};
ghost use Rattle.qp_model.specs.Ends.{ends_last};
ghost use Rattle.qp_model.specs.History.{lane_items};
ghost use Rattle.qp_kernel_end.specs.Outcome.{asserts, outcome_of, runs_out};
ghost use Rattle.qp_kernel_end.specs.LastRecords.{last_rec_is, last_outcome};

use crate::records::{ends_asserted, ends_spent, last_code};
use qp_model::{Journal, Lane};

/// How a run came to its end.
#[derive(Clone, Copy, PartialEq, Eq, Debug)]
pub enum Outcome {
    /// Nothing was left to be done.
    Quiet,
    /// An assertion with this code stands in this lane, and in no lower one.
    Asserted { code: u8, lane: u32 },
    /// An object at its budget, or a lane without room, is recorded in this lane, and in no lower one; no assertion stands.
    Spent { lane: u32 },
}

/// The lowest lane whose last record is an assertion.
fn asserted_lane(lanes: &[Lane]) -> Option<usize>
    ensures place { result ≡ position (last_rec_is asserts) lanes.now }
    ensures within { IfSome result (λ i. i < length lanes.now) }
{
    lanes.iter().position(|lane| ends_asserted(lane))
}

/// The lowest lane whose last record is a `spent` or a `spill`.
fn spent_lane(lanes: &[Lane]) -> Option<usize>
    ensures place { result ≡ position (last_rec_is runs_out) lanes.now }
    ensures within { IfSome result (λ i. i < length lanes.now) }
{
    lanes.iter().position(|lane| ends_spent(lane))
}

/// What the last records of the lanes say.
#[tactic(auto, unfolding(crate::specs::LastRecords::last_outcome))]
fn last_outcome(j: &Journal) -> Outcome
    requires { length j.now.lanes ≤ 49 }
    ensures { result ≡ last_outcome j.now }
{
    let lanes = j.lanes.items.as_slice();
    if let Some(n) = asserted_lane(lanes) {
        let code = last_code(&lanes[n]);
        return Outcome::Asserted {
            code,
            lane: n as u32,
        };
    }
    match spent_lane(lanes) {
        Some(n) => Outcome::Spent { lane: n as u32 },
        None => Outcome::Quiet,
    }
}

/// The outcome of a run that left this journal. Nothing follows a record that ends its lane, so only the last ones are looked at.
pub fn outcome_of(j: &Journal) -> Outcome
    requires few { length j.now.lanes ≤ 49 }
    requires last { list_all (λ lane. ends_last (lane_items lane)) j.now.lanes ≡ true }
    ensures { result ≡ outcome_of j.now }
{
    last_outcome(j)
}
