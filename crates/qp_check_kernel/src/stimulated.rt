//! The looks in which a stimulus stands.

ghost use Rattle.std.specs.Prelude.{◌≡◌, ℕ, ◌||◌, map, IfOk, OnOk};
ghost use Rattle.std.specs.List.{list_any};
ghost use Rattle.std.specs.BTreeSet.{contains};
ghost use Rattle.std.specs.Ordering.{nat_cmp};
ghost use Rattle.qp_model.specs.History.{lane_items};
ghost use Rattle.qp_model.specs.OneOrder.{is_stim_at};
ghost use Rattle.qp_model.specs.Record.{item_of};
ghost use Rattle.qp_check_lanes.specs.Options.{is_this_number};

use qp_model::{Body, Lane, Rec};
use std::alloc::{AllocError, Global};
use std::collections::BTreeSet;

/// The look of a `stim`.
#[tactic(auto, unfolding(qp_model::specs::Record::item_of))]
fn stim_look(r: &Rec) -> Option<u64>
    ensures { (k : ℕ) → is_stim_at k (item_of r.now).body ≡ is_this_number k result }
{
    match r.body() {
        Body::Stim { k, .. } => Some(k),
        _ => None,
    }
}

pub fn add(looks: &mut BTreeSet<u64>, look: Option<u64>) -> Result<(), AllocError>
    ensures { OnOk result ((k : ℕ) → contains nat_cmp looks.new k ≡ (contains nat_cmp looks.old k || is_this_number k look)) }
{
    if let Some(k) = look {
        looks.insert(k)?;
    }
    Ok(())
}

/// Adds the looks of a lane's `stim` records.
fn add_lane(looks: &mut BTreeSet<u64>, lane: &[Rec]) -> Result<(), AllocError>
    ensures { OnOk result ((k : ℕ) → contains nat_cmp looks.new k ≡ (contains nat_cmp looks.old k || list_any (λ i. is_stim_at k i.body)
        (lane_items lane.now))) }
{
    for r in lane {
        add(looks, stim_look(r))?;
    }
    Ok(())
}

/// The looks in which a stimulus of one of these lanes stands.
pub fn stimulated(alloc: Global, lanes: &[Lane]) -> Result<BTreeSet<u64>, AllocError>
    ensures { IfOk result (λ looks. (k : ℕ) → contains nat_cmp looks k ≡ list_any (λ lane. list_any (λ i. is_stim_at k i.body) lane)
        (map (λ lane. lane_items lane) lanes.now)) }
{
    let mut looks = BTreeSet::new(alloc);
    for lane in lanes {
        add_lane(&mut looks, &lane.items)?;
    }
    Ok(looks)
}
