//! The lane of an object that takes in a thread of its own.

ghost use Rattle.std.specs.Prelude.{◌≡◌, ◌+◌, ◌^◌, ◌<◌, ◌≤◌, ◌==◌, ◌&&◌, length, IfOk};
ghost use Rattle.std.specs.List.{filter_map};
ghost use Rattle.qp_model.specs.History.{lane_items};
ghost use Rattle.qp_model.specs.HomeLane.{all_differ, are_at_home, is_at_home, is_home_lane, nil_counts, seen_counts, count_taken};
ghost use Rattle.qp_model.specs.Record.{item_of};
ghost use Rattle.qp_check_knowledge.specs.HomeCounts.{counts_by};

use qp_model::{Body, Rec};
use std::alloc::{AllocError, Global};
use std::collections::BTreeSet;

/// The counts of a queue that a record shows.
type Counts = (u64, u64, u64);

/// Whether a record is one of `o`, `seen` of its queue where it has taken just its budget, or a `spill` that cuts the lane.
#[tactic(auto, unfolding(qp_model::specs::Record::item_of))]
fn is_at_home(o: u8, spent: bool, cut: bool, r: &Rec) -> bool
    ensures { result ≡ is_at_home o spent cut (item_of r.now).of (item_of r.now).body }
{
    match r.body() {
        Body::Seen { p, .. } => r.of == 0 && p == u64::from(o) && spent,
        Body::Spill { .. } => r.of == 0 && cut,
        _ => r.of == o,
    }
}

/// How many events have been taken after a record of a lane with so many.
#[tactic(auto, unfolding(qp_model::specs::Record::item_of))]
fn taken_by(taken: usize, length: usize, r: &Rec) -> usize
    requires { taken < length }
    ensures exact { result ≡ count_taken taken (item_of r.now).body }
    ensures few { result ≤ taken + 1 }
{
    match r.body() {
        Body::Took { .. } => length.min(taken + 1),
        _ => taken,
    }
}

/// Whether just the budget has been taken.
fn has_spent(budget: u32, taken: usize) -> bool
    ensures { result ≡ (taken == budget) }
{
    taken == budget as usize
}

/// Whether a `spill` before these records cuts a lane that may be cut or not: it is the last one.
fn cuts_before(cuts: bool, rest: &[Rec]) -> bool
    ensures { result ≡ (cuts && (length rest.now == 0)) }
{
    cuts && rest.is_empty()
}

/// Whether each record of the lane is one of these, where it may be cut or not.
fn are_at_home(o: u8, budget: u32, cuts: bool, lane: &[Rec]) -> bool
    ensures { result ≡ are_at_home o budget cuts 0 (lane_items lane.now) }
{
    let length = lane.len();
    let mut taken = 0;
    let mut left = lane;
    loop {
        match left.split_first() {
            Some((r, rest)) => {
                let spent = has_spent(budget, taken);
                if !is_at_home(o, spent, cuts_before(cuts, rest), r) {
                    return false;
                }
                taken = taken_by(taken, length, r);
                left = rest;
            }
            None => return true,
        }
    }
}

#[tactic(auto, unfolding(qp_model::specs::Record::item_of))]
fn nil_counts(r: &Rec) -> Option<Counts>
    ensures { result ≡ nil_counts (item_of r.now).body }
{
    match r.body() {
        Body::Nil { f, l, m } => Some((f, l, m)),
        _ => None,
    }
}

#[tactic(auto, unfolding(qp_model::specs::Record::item_of))]
fn seen_counts(r: &Rec) -> Option<Counts>
    ensures { result ≡ seen_counts (item_of r.now).body }
{
    match r.body() {
        Body::Seen { f, l, m, .. } => Some((f, l, m)),
        _ => None,
    }
}

/// Which records show counts.
#[derive(Clone, Copy)]
enum Showing {
    Nil,
    Seen,
}

impl Showing {
    fn counts(self, r: &Rec) -> Option<Counts>
        ensures { result ≡ counts_by self (item_of r.now).body }
    {
        match self {
            Showing::Nil => nil_counts(r),
            Showing::Seen => seen_counts(r),
        }
    }
}

/// The counts that these records of the lane show.
fn all_counts(alloc: Global, lane: &[Rec], by: Showing) -> Result<Vec<Counts>, AllocError>
    ensures { IfOk result (λ v. v.items ≡ filter_map (λ i. counts_by by i.body) (lane_items lane.now)) }
{
    let mut all = Vec::new(alloc);
    for r in lane {
        match by.counts(r) {
            Some(counts) => all.push(counts)?,
            None => {}
        }
    }
    Ok(all)
}

/// Whether no two of these are the same.
fn all_differ(alloc: Global, all: &[Counts]) -> Result<bool, AllocError>
    ensures { IfOk result (λ b. b ≡ all_differ all.now) }
{
    let mut seen = BTreeSet::new(alloc);
    for counts in all {
        if !seen.insert(*counts)? {
            return Ok(false);
        }
    }
    Ok(true)
}

/// Whether the records of a lane are those of the home lane of `o`: its own, `seen` of its queue where it has taken just its
/// budget, and a `spill` that cuts it, where it may be cut; and no two `nil` show the same counts, and no two `seen` do.
#[tactic(auto, unfolding(qp_model::specs::HomeLane::is_home_lane))]
pub fn is_home_lane(
    alloc: Global,
    o: u8,
    budget: u32,
    cuts: bool,
    lane: &[Rec],
) -> Result<bool, AllocError>
    ensures { IfOk result (λ b. b ≡ is_home_lane o budget cuts (lane_items lane.now)) }
{
    let nils = all_counts(alloc, lane, Showing::Nil)?;
    let nils_differ = all_differ(alloc, &nils)?;
    let seens = all_counts(alloc, lane, Showing::Seen)?;
    let seens_differ = all_differ(alloc, &seens)?;
    Ok(are_at_home(o, budget, cuts, lane) && nils_differ && seens_differ)
}
