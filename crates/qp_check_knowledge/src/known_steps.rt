//! The events of blocks that are given out.

ghost use Rattle.std.specs.Prelude.{◌≡◌, ◌-◌, ◌++◌, ◌∷◌, [], nat_lt, if◌then◌else◌, None, List, length, IfOk, OnOk};
ghost use Rattle.std.specs.List.Sorted.{IsNonDecreasingBy};
ghost use Rattle.qp_model.specs.Knowing.{event_known};
ghost use Rattle.qp_model.specs.Record.{Item, item_of};
ghost use Rattle.qp_check_calls.specs.AsKnown.{as_known};
ghost use Rattle.qp_check_knowledge.specs.KnownSteps.{AreSteps, from_of, given_event, last_from};

use crate::known_words::KnownBlock;
use qp_check_calls::Known;
use qp_check_lanes::groups::Group;
use qp_model::{Body, Rec};
use std::alloc::{AllocError, Global};

/// How many operations a block had when it was given out or back.
#[tactic(auto, unfolding(qp_model::specs::Record::item_of))]
fn from_of(r: &Rec) -> u64
    ensures { result ≡ from_of (item_of r.now).body }
{
    match r.body() {
        Body::New { from, .. } => from,
        Body::Back { to, .. } => to,
        _ => 0,
    }
}

/// The event of a block that is given out; one that is given back has none.
#[tactic(auto, unfolding(qp_model::specs::Record::item_of))]
fn event_in(r: &Rec) -> Known
    ensures { as_known result ≡ event_known (given_event (item_of r.now).body) }
{
    match r.body() {
        Body::New { sig, pars, .. } => Known::OfEvent { sig, pars },
        _ => Known::Nothing,
    }
}

/// Puts a step at the end, in place of those that don't lie below it.
fn put_step<'a>(steps: &mut Group<'a>, r: &'a Rec) -> Result<(), AllocError>
    requires { IsNonDecreasingBy (λ i. from_of i.body) steps.old }
    ensures steps { OnOk result ((given : List Item) → AreSteps given steps.old → AreSteps (given ++ item_of r.now ∷ []) steps.new) }
    ensures rise { OnOk result (IsNonDecreasingBy (λ i. from_of i.body) steps.new) }
{
    let from = from_of(r);
    let kept = steps.items.partition_point(|x| from_of(x) < from);
    steps.items.truncate(kept);
    steps.items.push(r)?;
    Ok(())
}

/// Of operations that give a block out or back, those that are the last at or before some number of its own operations. These numbers
/// rise, whatever the records state.
pub(crate) fn steps_of<'a>(alloc: Global, given: &Group<'a>) -> Result<Group<'a>, AllocError>
    ensures { IfOk result (λ s. AreSteps given.now s) }
{
    let mut steps = Group::new(alloc);
    for r in &given.items {
        put_step(&mut steps, r)?;
    }
    Ok(steps)
}

/// The event by the last step at or before this number of the block's own operations.
fn event_given(steps: &Group, name: u64) -> Known
    requires { IsNonDecreasingBy (λ i. from_of i.body) steps.now }
    ensures { as_known result ≡ event_known (last_from name None steps.now) }
{
    let passed = steps.items.partition_point(|r| from_of(r) <= name);
    match passed.checked_sub(1) {
        Some(last) => event_in(&steps.items[last]),
        None => Known::Nothing,
    }
}

/// Whether a block has had an operation of this number, by its tables.
fn has_drawn(known: &KnownBlock, n: u64) -> bool
    ensures { result ≡ nat_lt n (length known.now.left.items - 1) }
{
    n < known.left.len().saturating_sub(1) as u64
}

/// The event of the life that holds this number of the block's operations.
pub(crate) fn event_at(known: &KnownBlock, name: u64) -> Known
    requires { IsNonDecreasingBy (λ i. from_of i.body) known.now.steps }
    ensures { as_known result ≡ event_known (if nat_lt name (length known.now.left.items - 1) then last_from name None
        known.now.steps else None) }
{
    if !has_drawn(known, name) {
        return Known::Nothing;
    }
    event_given(&known.steps, name)
}
