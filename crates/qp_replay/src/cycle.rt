//! A cycle among the records that are left where none of them may come next.

ghost use Rattle.std.specs.Prelude.{◌≡◌, ℕ, false, IfOk};
ghost use Rattle.std.proofs.Common.{replicate};
ghost use Rattle.qp_replay.specs.Orders.{IsCycle};
ghost use Rattle.qp_replay.specs.Remaining.{HasNext, MayGo};

use crate::places::Places;
use crate::remaining::Remaining;
use std::alloc::{AllocError, Global};

/// So many lanes, none of which was met.
fn none_met(alloc: Global, size: usize) -> Result<Vec<bool>, AllocError>
    ensures { IfOk result (λ v. v.items ≡ replicate size false) }
{
    let mut met = Vec::new(alloc);
    for _ in 0..size {
        met.push(false)?;
    }
    Ok(met)
}

/// The walk from a lane's next record to one that must stand before it, to the next record of that one's lane, and so on, until it
/// comes to a lane for the second time. The walk is kept with its last place first.
pub(crate) fn cycle(
    alloc: Global,
    remaining: &Remaining,
    start: usize,
) -> Result<Places, AllocError>
    requires next { HasNext remaining.now start }
    requires stuck { (n : ℕ) → MayGo remaining.now n → ⊥ }
    ensures { IfOk result (λ c. IsCycle remaining.now.lanes c) }
{
    let mut met = none_met(alloc, remaining.count())?;
    let mut walk = Places::none(alloc);
    let mut lane = start;
    'walk: while !met[lane] {
        met[lane] = true;
        walk.put_first(remaining.head(lane))?;
        let first = remaining.before(lane);
        lane = first.lane as usize;
        if remaining.head(lane).place != first.place {
            walk.put_first(first)?;
        }
    }
    let turn = walk.position(remaining.head(lane));
    walk.cut_behind(turn);
    Ok(walk)
}
