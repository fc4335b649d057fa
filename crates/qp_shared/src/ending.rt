//! All lanes are taken in, and the end is that of their records.

ghost use Rattle.std.specs.Prelude.{◌≡◌, ◌+◌, ◌≤◌, ◌++◌, map, length};
ghost use Rattle.std.specs.List.{list_any};
ghost use Rattle.std.specs.Vec.{vec_capacity};
ghost use Rattle.qp_model.specs.Record.{item_of};
ghost use Rattle.qp_model.specs.History.{lane_items, all_items};
ghost use Rattle.qp_model.specs.Ends.{is_assert, is_end};
ghost use Rattle.qp_model.specs.End.{end_of};
ghost use Rattle.qp_table.specs.Counting.{Each};
ghost use Rattle.qp_table.specs.After.{views_joined};
ghost use Rattle.qp_table.specs.Rule.{table_words};
ghost use Rattle.qp_side.specs.Told.{both_of};
ghost use Rattle.qp_shared_ends.specs.Joining.{all_both, all_joined, recs_in, side_of, table_of};
ghost use Rattle.qp_shared.specs.Ending.{IsOn, lane_states};

use crate::lane::SharedLane;
use atomic_table::Seat;
use qp_calls_log::Log;
use qp_model::ends::{ASSERTED, QUIET, SPENT};
use qp_model::{Lane, Lanes, Rec};
use qp_shared_ends::table;
use qp_shared_lane::{LaneState, SideSeat};
use qp_shared_words::Words;
use qp_side::SideView;
use qp_table::View;

/// Whether the record is an assertion.
#[tactic(auto, unfolding(qp_model::specs::Record::item_of))]
fn asserted(r: &Rec) -> bool
    ensures { result ≡ is_assert (item_of r.now).body }
{
    qp_model::is_assert(r)
}

/// Whether the record ends its lane.
#[tactic(auto, unfolding(qp_model::specs::Record::item_of))]
fn ended(r: &Rec) -> bool
    ensures { result ≡ is_end (item_of r.now).body }
{
    qp_model::is_assert(r) || qp_model::is_spent(r) || qp_model::is_spill(r)
}

/// Whether an assertion stands in the lane.
fn asserts(lane: &[Rec]) -> bool
    ensures { result ≡ list_any (λ i. is_assert i.body) (lane_items lane.now) }
{
    lane.iter().any(|r| asserted(r))
}

/// Whether a record stands in the lane that ends it.
fn ends(lane: &[Rec]) -> bool
    ensures { result ≡ list_any (λ i. is_end i.body) (lane_items lane.now) }
{
    lane.iter().any(|r| ended(r))
}

fn some_asserts(lanes: &Lanes) -> bool
    ensures { result ≡ list_any (λ lane. list_any (λ i. is_assert i.body) (lane_items lane)) lanes.now }
{
    lanes.items.iter().any(|lane| asserts(&lane.items))
}

fn some_ends(lanes: &Lanes) -> bool
    ensures { result ≡ list_any (λ lane. list_any (λ i. is_end i.body) (lane_items lane)) lanes.now }
{
    lanes.items.iter().any(|lane| ends(&lane.items))
}

/// The end that the records of all lanes have.
pub(crate) fn end_of(lanes: &Lanes) -> u8
    ensures { result ≡ end_of (all_items lanes.now) }
{
    if some_asserts(lanes) {
        ASSERTED
    } else if some_ends(lanes) {
        SPENT
    } else {
        QUIET
    }
}

/// Seats on both tables, of the same views, and the records of a lane that ends.
fn take_in(
    words: &Words,
    side: &qp_side::Words,
    seat: &mut Seat<(), View>,
    beside: &mut Seat<(), SideView>,
    lane: SharedLane<'_>,
) -> Lane
    requires own { (seat.old.table_id ≡ words.now.shared.table_id) × (words.now.shared.table_id.words ≡ table_words) }
    requires beside { (beside.old.table_id ≡ side.now.shared.table_id) × (side.now.shared.table_id.words ≡ 4489) }
    requires on { IsOn words.now.shared.table_id side.now.shared.table_id lane.state }
    ensures own { seat.new.table_id ≡ seat.old.table_id }
    ensures beside { beside.new.table_id ≡ beside.old.table_id }
    ensures table { seat.new.me.0 ≡ views_joined seat.old.me.0 (table_of lane.entry.state) }
    ensures side { beside.new.me.0 ≡ both_of beside.old.me.0 (side_of lane.entry.state) }
    ensures records { result ≡ recs_in lane.entry.state }
{
    let SharedLane { state } = lane;
    let LaneState {
        seat: mut own,
        side: other,
        log,
        ..
    } = state;
    let SideSeat { seat: its, .. } = other;
    let Log { recs, .. } = log;
    let all = table::move_all(words, &mut own);
    table::join_seats(words, seat, all);
    qp_side::words::join_seats(side, beside, its);
    Lane { items: recs }
}

/// Lanes are taken in, one after another, and their records moved into the room.
pub(crate) fn gather(
    words: &Words,
    side: &qp_side::Words,
    seat: &mut Seat<(), View>,
    beside: &mut Seat<(), SideView>,
    lanes: Vec<SharedLane<'_>>,
    room: Vec<Lane>,
) -> Vec<Lane>
    requires own { (seat.old.table_id ≡ words.now.shared.table_id) × (words.now.shared.table_id.words ≡ table_words) }
    requires beside { (beside.old.table_id ≡ side.now.shared.table_id) × (side.now.shared.table_id.words ≡ 4489) }
    requires on { Each (IsOn words.now.shared.table_id side.now.shared.table_id) (lane_states lanes.items) }
    requires room { length room.items + length lanes.items ≤ vec_capacity room }
    ensures own { seat.new.table_id ≡ seat.old.table_id }
    ensures beside { beside.new.table_id ≡ beside.old.table_id }
    ensures table { seat.new.me.0 ≡ all_joined seat.old.me.0 (map table_of (lane_states lanes.entry.items)) }
    ensures side { beside.new.me.0 ≡ all_both beside.old.me.0 (map side_of (lane_states lanes.entry.items)) }
    ensures records { result.items ≡ room.items ++ map recs_in (lane_states lanes.entry.items) }
{
    let mut records = room;
    for lane in lanes {
        let its = take_in(words, side, seat, beside, lane);
        records.push_reserved(its);
    }
    records
}
