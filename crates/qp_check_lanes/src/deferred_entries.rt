//! The deferred entries of all objects.

ghost use Rattle.std.specs.Prelude.{◌≡◌, ◌++◌, [], IfOk, OnOk};
ghost use Rattle.std.specs.Option.{unwrap_or};
ghost use Rattle.qp_model.specs.Deferral.{kept_after};
ghost use Rattle.qp_model.specs.Home.{by_object};
ghost use Rattle.qp_model.specs.Lawful.{deferred_of, facts_of};

use crate::deferral::{DeferredList, kept};
use crate::lane_parts::{home_lane, lane_at};
use qp_model::{Entry, Journal, ObjectDef, System};
use std::alloc::{AllocError, Global};

/// Puts the entries of a list, if there is one, behind others.
fn put_all(all: &mut Vec<Entry>, list: Option<DeferredList>) -> Result<(), AllocError>
    ensures { OnOk result (all.new.items ≡ all.old.items ++ unwrap_or list []) }
{
    let Some(list) = list else { return Ok(()) };
    let mut entries = list.items;
    while let Some(entry) = entries.pop_front() {
        all.push(entry)?;
    }
    Ok(())
}

/// The deferred list of an object in the end.
#[tactic(auto, unfolding(qp_model::specs::Home::by_object, qp_model::specs::Lawful::facts_of))]
fn deferred_by(
    alloc: Global,
    sys: &System,
    j: &Journal,
    d: &ObjectDef,
) -> Result<Option<DeferredList>, AllocError>
    ensures { IfOk result (λ k. k ≡ kept_after d.now.defer [] (by_object (facts_of sys.now j.now) j.now d.now.priority)) }
{
    let home = home_lane(sys, j, d.priority);
    kept(alloc, d.defer, d.priority, lane_at(j, home))
}

/// The deferred entries of all objects in the end, object by object.
pub fn deferred(alloc: Global, sys: &System, j: &Journal) -> Result<Vec<Entry>, AllocError>
    ensures { IfOk result (λ es. es.items ≡ deferred_of sys.now j.now sys.now.objects) }
{
    let mut all = Vec::new(alloc);
    for d in &sys.objects.items {
        put_all(&mut all, deferred_by(alloc, sys, j, d)?)?;
    }
    Ok(all)
}
