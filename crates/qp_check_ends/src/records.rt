//! Tests of the records of a lane.

ghost use Rattle.std.specs.Prelude.{◌≡◌, ◌==◌};
ghost use Rattle.std.specs.List.{list_all};
ghost use Rattle.qp_model.specs.History.{lane_items};
ghost use Rattle.qp_model.specs.Record.{item_of};

use qp_model::Rec;

/// Whether no record of a lane is for an object.
#[tactic(auto, unfolding(qp_model::specs::Record::item_of))]
pub fn are_of_none(lane: &[Rec]) -> bool
    ensures { result ≡ list_all (λ i. i.of == 0) (lane_items lane.now) }
{
    for r in lane {
        if r.of != 0 {
            return false;
        }
    }
    true
}
