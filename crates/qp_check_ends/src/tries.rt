//! Tries of a `settle`, of which no two end with the same `seen`.

ghost use Rattle.std.specs.Prelude.{◌≡◌, not, List, ℕ, IfOk};
ghost use Rattle.qp_model.specs.History.{lane_items};
ghost use Rattle.qp_model.specs.Record.{item_of};
ghost use Rattle.qp_model.specs.Sources.{entry_seen, none_twice};
ghost use Rattle.qp_check_ends.specs.Tries.{SetHolds, entries_seen, with_seen, repeats};

use qp_model::{Body, Rec};
use std::alloc::{AllocError, Global};
use std::collections::BTreeSet;

/// What a `seen` of a queue with an entry shows.
#[tactic(auto, unfolding(qp_model::specs::Record::item_of))]
fn entry_seen(r: &Rec) -> Option<[u64; 4]>
    ensures { result ≡ entry_seen (item_of r.now).body }
{
    match r.body() {
        Body::Seen { p, f, l, m } => {
            if u128::from(m) < u128::from(f) + u128::from(l) {
                Some([p, f, l, m])
            } else {
                None
            }
        }
        _ => None,
    }
}

/// Whether what was seen is new, which it isn't from then on.
fn is_new(seen: &mut BTreeSet<[u64; 4]>, key: Option<[u64; 4]>) -> Result<bool, AllocError>
    ensures { IfOk result (λ new. (xs : List (List ℕ)) → SetHolds seen.old xs → (new ≡ not (repeats xs key)) × SetHolds seen.new
        (with_seen xs key)) }
{
    match key {
        Some(key) => Ok(seen.insert(key)?),
        None => Ok(true),
    }
}

/// Whether no two tries of a lane end with the same `seen`.
pub fn tries_differ(alloc: Global, lane: &[Rec]) -> Result<bool, AllocError>
    ensures { IfOk result (λ differ. differ ≡ none_twice (entries_seen (lane_items lane.now))) }
{
    let mut seen = BTreeSet::new(alloc);
    for r in lane {
        if !is_new(&mut seen, entry_seen(r))? {
            return Ok(false);
        }
    }
    Ok(true)
}
