//! What the end asks of each lane.

ghost use Rattle.std.specs.Prelude.{◌≡◌, ◌<◌, ◌≤◌, ◌||◌, not, None};
ghost use Rattle.qp_model.specs.History.{lane_items};
ghost use Rattle.qp_model.specs.Record.{item_of};
ghost use Rattle.qp_model.specs.Ends.{ends_last, is_spent as spends};
ghost use Rattle.qp_model.specs.End.{spill_states, spills_state, has_room, shown_entry, spents_follow, is_its_object};

use qp_check_lanes::record_tests::{is_end, is_spent, is_spill, shows_entry};
use qp_model::{Body, Rec};

/// How many records a lane may have besides a `spill`.
const MOST_RECORDS: usize = 1_000_000;

/// A lane has no room after more records than this.
const FULL: u64 = 999_992;

/// Whether nothing follows a record that ends the lane.
pub fn nothing_follows(lane: &[Rec]) -> bool
    ensures { result ≡ ends_last (lane_items lane.now) }
{
    match lane.split_last() {
        Some((_, front)) => front.iter().all(|r| !is_end(r)),
        None => true,
    }
}

#[tactic(auto, unfolding(qp_model::specs::Record::item_of))]
fn states(r: &Rec, n: u64) -> bool
    ensures { result ≡ spill_states n (item_of r.now).body }
{
    match r.body() {
        Body::Spill { len } => len == n && n > FULL,
        _ => true,
    }
}

/// Whether each `spill` states the number of records before it, and the lane had no room then.
pub fn spills_stand(lane: &[Rec]) -> bool
    ensures { result ≡ spills_state 0 (lane_items lane.now) }
{
    for (n, r) in lane.iter().enumerate() {
        if !states(r, n as u64) {
            return false;
        }
    }
    true
}

/// Whether the lane has no more records than it has room for.
pub fn fits(lane: &[Rec]) -> bool
    ensures { result ≡ has_room (lane_items lane.now) }
{
    lane.iter().filter(|r| !is_spill(r)).count() <= MOST_RECORDS
}

/// The object whose queue the record shows with an entry.
#[tactic(auto, unfolding(qp_model::specs::Record::item_of))]
fn shown(r: &Rec) -> Option<u64>
    ensures { result ≡ shown_entry (item_of r.now) }
{
    match r.body() {
        Body::Seen { p, f, l, m } if r.of == 0 && shows_entry(f, l, m) => Some(p),
        _ => None,
    }
}

/// Whether the record is no `spent`, or one of the object that was seen with an entry.
fn follows(r: &Rec, seen: Option<u64>) -> bool
    ensures { result ≡ (not (spends (item_of r.now).body) || is_its_object (item_of r.now).of seen) }
{
    !is_spent(r) || is_of(r, seen)
}

#[tactic(auto, unfolding(qp_model::specs::Record::item_of))]
fn is_of(r: &Rec, seen: Option<u64>) -> bool
    ensures { result ≡ is_its_object (item_of r.now).of seen }
{
    match seen {
        Some(o) => o == u64::from(r.of),
        None => false,
    }
}

/// Whether each `spent` comes right after a look that saw an entry of its object's queue.
pub fn spents_are_seen(lane: &[Rec]) -> bool
    ensures { result ≡ spents_follow None (lane_items lane.now) }
{
    let mut seen = None;
    for r in lane {
        if !follows(r, seen) {
            return false;
        }
        seen = shown(r);
    }
    true
}
