//! The order of all records, as far as there is one.

ghost use Rattle.std.specs.Prelude.{◌↔◌, IfOk, IsTrue};
ghost use Rattle.qp_replay.specs.Replaying.{IsReplayAnswer};
ghost use Rattle.qp_replay.specs.Remaining.{IsSmall};

use crate::cycle::cycle;
use crate::places::{Places, Replayed};
use crate::remaining::Remaining;
use qp_model::Lanes;
use std::alloc::{AllocError, Global};

/// More lanes than a journal can have, and more records than a lane can.
const TOO_MANY: usize = 4_294_967_296;

/// Whether places can be told of all records: exactly where there are fewer than 2^32 lanes, and of each fewer than 2^32 records.
pub fn is_small(lanes: &Lanes) -> bool
    ensures { IsTrue result ↔ IsSmall lanes.now }
{
    for lane in &lanes.items {
        if lane.items.len() >= TOO_MANY {
            return false;
        }
    }
    lanes.items.len() < TOO_MANY
}

/// The order of all records of any lanes, lawful or not, or a cycle among them. It takes about the logarithm of the number of records
/// for each record and each lane.
pub fn ordered(alloc: Global, lanes: &Lanes) -> Result<Replayed, AllocError>
    requires { IsSmall lanes.now }
    ensures { IfOk result (λ r. IsReplayAnswer lanes.now r) }
{
    let mut remaining = Remaining::of(alloc, lanes)?;
    let mut order = Places::none(alloc);
    'order: while let Some(lane) = remaining.lowest() {
        order.push(remaining.head(lane))?;
        remaining.pass(lane);
    }
    match remaining.unfinished() {
        None => Ok(Replayed::Order(order)),
        Some(lane) => Ok(Replayed::Cycle(cycle(alloc, &remaining, lane)?)),
    }
}
