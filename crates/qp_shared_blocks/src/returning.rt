//! A used block comes back to its pool.

ghost use Rattle.std.specs.Prelude.{◌<◌, IsTrue};
ghost use Rattle.qp_calls.specs.Clauses.{GoesBack, StandsFresh};
ghost use Rattle.qp_shared_lane.specs.Lane.{state_view};

use crate::steps::put_back;
use qp_calls::Fresh;
use qp_model::Rec;
use qp_shared_lane::{LaneState, put};
use qp_table::UNIT;

/// Gives the block back. Its record states after how many operations its life ended, which the lane remembers since it dropped the last
/// reference.
pub fn back(lane: &mut LaneState<'_>, f: Fresh)
    requires room { 0 < (state_view lane.old).spare }
    requires stands { StandsFresh f (state_view lane.old) }
    requires used { IsTrue f.used }
    ensures { GoesBack f (state_view lane.old) (state_view lane.new) }
{
    let (pool, block) = (f.pool(), f.block());
    let end = lane.ends.of(pool, block);
    let found = put_back(lane.words, &mut lane.seat, lane.by, pool, block, end);
    let rec = Rec::back(lane.by, pool, (found / UNIT) as u32, block, end);
    put(&mut lane.log, &mut lane.numbers, rec, 0);
}
