//! The end of a journal.

ghost use Rattle.std.specs.Prelude.{◌≡◌, ◌+◌, ◌==◌, ◌&&◌, nat_le, None};
ghost use Rattle.std.specs.List.{list_all, list_any};
ghost use Rattle.qp_model.specs.History.{lane_items, all_items};
ghost use Rattle.qp_model.specs.Record.{item_of};
ghost use Rattle.qp_model.specs.Ends.{ends_last, is_assert, is_end};
ghost use Rattle.qp_model.specs.End.{end_of, spills_state, has_room, spent_right, spents_follow, spents_hold, took_count};
ghost use Rattle.qp_check_ends.specs.JournalEnd.{end_stands};
ghost use Rattle.qp_check_ends.specs.Takes.{AreTakesOf};

use crate::lane_ends::{fits, nothing_follows, spents_are_seen, spills_stand};
use crate::takes::Takes;
use qp_check_lanes::lane_parts::{asserts, home_lane};
use qp_check_lanes::record_tests;
use qp_model::ends::{ASSERTED, QUIET, SPENT};
use qp_model::{Journal, Rec, System};

/// No run stopped early.
fn ends(lane: &[Rec]) -> bool
    ensures { result ≡ list_any (λ i. is_end i.body) (lane_items lane.now) }
{
    lane.iter().any(|r| record_tests::is_end(r))
}

fn some_lane_asserts(j: &Journal) -> bool
    ensures { result ≡ list_any (λ lane. list_any (λ i. is_assert i.body) (lane_items lane)) j.now.lanes }
{
    j.lanes.items.iter().any(|lane| asserts(&lane.items))
}

fn some_lane_ends(j: &Journal) -> bool
    ensures { result ≡ list_any (λ lane. list_any (λ i. is_end i.body) (lane_items lane)) j.now.lanes }
{
    j.lanes.items.iter().any(|lane| ends(&lane.items))
}

/// The end that the records have.
fn end_of_records(j: &Journal) -> u8
    ensures { result ≡ end_of (all_items j.now.lanes) }
{
    if some_lane_asserts(j) {
        ASSERTED
    } else if some_lane_ends(j) {
        SPENT
    } else {
        QUIET
    }
}

/// Whether nothing follows a record that ends its lane.
fn lanes_end(j: &Journal) -> bool
    ensures { result ≡ list_all (λ lane. ends_last (lane_items lane)) j.now.lanes }
{
    j.lanes
        .items
        .iter()
        .all(|lane| nothing_follows(&lane.items))
}

fn lanes_spill(j: &Journal) -> bool
    ensures { result ≡ list_all (λ lane. spills_state 0 (lane_items lane)) j.now.lanes }
{
    j.lanes.items.iter().all(|lane| spills_stand(&lane.items))
}

fn lanes_fit(j: &Journal) -> bool
    ensures { result ≡ list_all (λ lane. has_room (lane_items lane)) j.now.lanes }
{
    j.lanes.items.iter().all(|lane| fits(&lane.items))
}

/// Whether a record is no `spent`, or stands in the home lane of an object that has taken just its budget.
#[tactic(auto, unfolding(qp_model::specs::Record::item_of))]
fn spent_stands(sys: &System, j: &Journal, takes: &Takes, n: usize, r: &Rec) -> bool
    requires { AreTakesOf j.now.lanes takes.now }
    ensures { result ≡ spent_right sys.now j.now n (item_of r.now) }
{
    !record_tests::is_spent(r) || (home_lane(sys, j, r.of) == n && takes.has_spent(j, r.of))
}

/// The same of each record of lane n.
fn all_stand(sys: &System, j: &Journal, takes: &Takes, n: usize, lane: &[Rec]) -> bool
    requires { AreTakesOf j.now.lanes takes.now }
    ensures { result ≡ list_all (spent_right sys.now j.now n) (lane_items lane.now) }
{
    for r in lane {
        if !spent_stands(sys, j, takes, n, r) {
            return false;
        }
    }
    true
}

fn lane_spents_stand(sys: &System, j: &Journal, takes: &Takes, n: usize, lane: &[Rec]) -> bool
    requires { AreTakesOf j.now.lanes takes.now }
    ensures { result ≡ (list_all (spent_right sys.now j.now n) (lane_items lane.now) && spents_follow None (lane_items lane.now)) }
{
    all_stand(sys, j, takes, n, lane) && spents_are_seen(lane)
}

/// Whether each `spent` stands where it may.
fn spents_stand(sys: &System, j: &Journal, takes: &Takes) -> bool
    requires { AreTakesOf j.now.lanes takes.now }
    ensures { result ≡ spents_hold sys.now j.now 0 j.now.lanes }
{
    for (n, lane) in j.lanes.items.iter().enumerate() {
        if !lane_spents_stand(sys, j, takes, n, &lane.items) {
            return false;
        }
    }
    true
}

/// Whether no object has taken more than its budget.
fn budgets_are_kept(sys: &System, j: &Journal, takes: &Takes) -> bool
    requires { AreTakesOf j.now.lanes takes.now }
    ensures { result ≡ list_all (λ d. nat_le (took_count (all_items j.now.lanes) d.priority) j.now.budget) sys.now.objects }
{
    for d in &sys.objects.items {
        if !takes.keeps_budget(j, d.priority) {
            return false;
        }
    }
    true
}

/// Whether the end is as stated, nothing follows the records that end a lane, each of these stands where it may, and lanes and budgets are
/// kept.
#[tactic(auto, unfolding(crate::specs::JournalEnd::end_stands))]
pub fn end_is_right(sys: &System, j: &Journal) -> bool
    ensures { result ≡ end_stands sys.now j.now }
{
    let takes = Takes::of_journal(j);
    j.end == end_of_records(j)
        && lanes_end(j)
        && spents_stand(sys, j, &takes)
        && lanes_spill(j)
        && lanes_fit(j)
        && budgets_are_kept(sys, j, &takes)
}
