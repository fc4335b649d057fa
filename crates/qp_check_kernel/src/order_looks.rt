//! The looks of lane 0, as stimuli stand in them.

ghost use Rattle.std.specs.Prelude.{◌≡◌, ℕ, true, IfOk};
ghost use Rattle.std.specs.List.{list_all};
ghost use Rattle.std.specs.Option.{option_map_or, option_or};
ghost use Rattle.std.specs.BTreeSet.{contains};
ghost use Rattle.std.specs.Ordering.{nat_cmp};
ghost use Rattle.qp_chart.specs.StateTree.{has};
ghost use Rattle.qp_model.specs.History.{lane_items};
ghost use Rattle.qp_model.specs.Record.{item_of};
ghost use Rattle.qp_model.specs.OneOrder.{look_numbers, stim_of};
ghost use Rattle.qp_check_kernel.specs.OneOrder.{last_of, has_no_turn};
ghost use Rattle.qp_check_kernel.specs.StimulusIndex.{parts_at};

use crate::one_order::look_number;
use crate::stimulated::add;
use crate::stimulus_index::Index;
use qp_model::{Body, Lane, Rec};
use std::alloc::{AllocError, Global};
use std::collections::BTreeSet;

/// The numbers of the looks.
pub fn looks(alloc: Global, lane0: &[Rec]) -> Result<BTreeSet<u64>, AllocError>
    ensures { IfOk result (λ s. (k : ℕ) → contains nat_cmp s k ≡ has (look_numbers (lane_items lane0.now)) k) }
{
    let mut looks = BTreeSet::new(alloc);
    for r in lane0 {
        add(&mut looks, look_number(r))?;
    }
    Ok(looks)
}

/// The number of the last look.
fn last_look(lane0: &[Rec]) -> Option<u64>
    ensures { result ≡ last_of (look_numbers (lane_items lane0.now)) }
{
    let mut last = None;
    for r in lane0 {
        last = later(last, look_number(r));
    }
    last
}

/// The second, if it is there, else the first.
fn later(first: Option<u64>, second: Option<u64>) -> Option<u64>
    ensures { result ≡ option_or second first }
{
    match second {
        Some(k) => Some(k),
        None => first,
    }
}

/// Whether no stimulus stands in the last look.
pub fn last_look_is_free(index: &Index, lane0: &[Rec]) -> bool
    ensures { result ≡ option_map_or (has_no_turn (parts_at index.now)) (last_of (look_numbers (lane_items lane0.now))) true }
{
    match last_look(lane0) {
        Some(k) => index.has(k, None),
        None => true,
    }
}

/// Whether a record is no `stim`, or stands in one of these looks.
#[tactic(auto, unfolding(qp_model::specs::Record::item_of))]
fn stim_stands(looks: &BTreeSet<u64>, r: &Rec) -> bool
    ensures { result ≡ option_map_or (λ s. contains nat_cmp looks.now s.1) (stim_of (item_of r.now).body) true }
{
    match r.body() {
        Body::Stim { k, .. } => looks.contains(&k),
        _ => true,
    }
}

fn lane_stands(looks: &BTreeSet<u64>, lane: &[Rec]) -> bool
    ensures { result ≡ list_all (λ r. option_map_or (λ s. contains nat_cmp looks.now s.1) (stim_of (item_of r).body) true) lane.now }
{
    lane.iter().all(|r| stim_stands(looks, r))
}

/// Whether each `stim` stands in one of these looks.
pub fn stims_stand(looks: &BTreeSet<u64>, sources: &[Lane]) -> bool
    ensures { result ≡ list_all (λ lane. list_all (λ r. option_map_or (λ s. contains nat_cmp looks.now s.1) (stim_of (item_of r).body) true)
        lane) sources.now }
{
    sources.iter().all(|lane| lane_stands(looks, &lane.items))
}
