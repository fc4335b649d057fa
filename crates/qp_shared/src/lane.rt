//! One lane of the tables that threads share.

ghost use Rattle.std.specs.Prelude.{◌≡◌};
ghost use Rattle.qp_model.specs.History.{lane_items};
ghost use Rattle.qp_model_order.specs.SourceRun.{untold_all};

use qp_model::Rec;
use qp_shared_lane::LaneState;

/// One lane of the tables that threads share. It can go to another thread.
#[derive(Drop)]
pub struct SharedLane<'a> {
    pub(crate) state: LaneState<'a>,
}

impl SharedLane<'_> {
    ghost use Rattle.qp_shared.specs.Lane.{lane_view, shared_records};

    /// The records of the lane so far.
    pub fn records(&self) -> &[Rec]
        ensures items { lane_items result.now ≡ untold_all (lane_view self.now).told }
        ensures records { result.now ≡ shared_records self.now }
    {
        self.state.log.recs.as_slice()
    }
}
