//! References: the first one to a block, another one, and one that is dropped.

ghost use Rattle.std.specs.Prelude.{◌<◌, IsFalse};
ghost use Rattle.qp_calls.specs.Clauses.{LetsGo, Makes, MakesMore, StandsFresh, StandsHold};
ghost use Rattle.qp_shared_lane.specs.Lane.{state_view};

use crate::steps::another;
use qp_calls::{Dec, Fresh, Hold};
use qp_model::Rec;
use qp_shared_lane::{LaneState, put};
use qp_shared_words::blocks::{drop_reference, first_reference};
use qp_table::UNIT;

/// Makes the first reference to a block.
pub fn first(lane: &mut LaneState<'_>, f: Fresh) -> Hold
    requires room { 0 < (state_view lane.old).spare }
    requires stands { StandsFresh f (state_view lane.old) }
    requires unused { IsFalse f.used }
    ensures { Makes f.pool f.block 1 (state_view lane.old) (state_view lane.new) result }
{
    let (pool, block) = (f.pool(), f.block());
    let found = first_reference(lane.words, &mut lane.seat, lane.by, pool, block);
    let rec = Rec::inc(lane.by, pool, block, found / UNIT);
    put(&mut lane.log, &mut lane.numbers, rec, 0);
    Hold::of(pool, block, found / UNIT)
}

/// Makes another reference to the block.
pub fn inc(lane: &mut LaneState<'_>, h: &Hold) -> Hold
    requires room { 0 < (state_view lane.old).spare }
    requires stands { StandsHold h.now (state_view lane.old) }
    ensures { MakesMore h.now (state_view lane.old) (state_view lane.new) result }
{
    let (pool, block, name) = (h.pool(), h.block(), h.name());
    let found = another(lane.words, &mut lane.seat, lane.by, pool, block, name);
    let rec = Rec::inc(lane.by, pool, block, found / UNIT);
    put(&mut lane.log, &mut lane.numbers, rec, 0);
    Hold::of(pool, block, found / UNIT)
}

/// Drops the reference. `Last` exactly where no other was left: then the lane remembers after how many operations the block's life
/// ended. Beside the record stands how many were left.
pub fn dec(lane: &mut LaneState<'_>, h: Hold) -> Dec
    requires room { 0 < (state_view lane.old).spare }
    requires stands { StandsHold h (state_view lane.old) }
    ensures { LetsGo h (state_view lane.old) (state_view lane.new) result }
{
    let (pool, block, name) = (h.pool(), h.block(), h.name());
    let found = drop_reference(lane.words, &mut lane.seat, lane.by, pool, block, name);
    let left = found % UNIT - 1;
    let rec = Rec::dec(lane.by, pool, block, found / UNIT, name);
    put(&mut lane.log, &mut lane.numbers, rec, left);
    if left == 0 {
        lane.ends.set(pool, block, found / UNIT + 1);
        Dec::Last(Fresh::of(pool, block, true))
    } else {
        Dec::Kept
    }
}
