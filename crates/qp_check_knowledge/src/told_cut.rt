//! How the list of an object may be cut.

ghost use Rattle.std.specs.Prelude.{◌≡◌, ◌==◌};
ghost use Rattle.qp_model.specs.History.{lane_items};
ghost use Rattle.qp_model.specs.Lawful.{cut_of, spill_cuts};
ghost use Rattle.qp_model.specs.Record.{item_of};
ghost use Rattle.qp_check_calls.specs.AsPiece.{as_cut};
ghost use Rattle.qp_check_knowledge.specs.SpillCuts.{ends_with};

use qp_check_calls::Cut;
use qp_check_lanes::lane_parts::{home_lane, lane_at};
use qp_check_lanes::record_tests::is_spill;
use qp_model::ends::may_cut;
use qp_model::{Journal, Rec, System};

#[tactic(auto, unfolding(qp_model::specs::Record::item_of))]
fn is_own(o: u8, r: &Rec) -> bool
    ensures { result ≡ ((item_of r.now).of == o) }
{
    r.of == o
}

/// Whether the lane's last record is a `spill`, right behind a record of `o`.
fn spill_cuts(o: u8, lane: &[Rec]) -> bool
    ensures { result ≡ spill_cuts o (lane_items lane.now) }
{
    match lane.split_last() {
        Some((last, front)) => is_spill(last) && ends_with(o, front),
        None => false,
    }
}

/// Whether the last of these records is one of `o`.
fn ends_with(o: u8, front: &[Rec]) -> bool
    ensures { result ≡ ends_with o (lane_items front.now) }
{
    match front.split_last() {
        Some((last, _)) => is_own(o, last),
        None => false,
    }
}

/// How the list of an object may be cut.
#[tactic(auto, unfolding(qp_model::specs::Lawful::cut_of))]
pub fn cut_of(sys: &System, j: &Journal, o: u8) -> Cut
    ensures { as_cut result ≡ cut_of sys.now j.now o }
{
    if !may_cut(j.end) {
        Cut::Whole
    } else if spill_cuts(o, lane_at(j, home_lane(sys, j, o))) {
        Cut::Anywhere
    } else {
        Cut::Stopped
    }
}
