//! What the tests of objects, of the kernel's lane and of sources ask of a journal that is known.

ghost use Rattle.std.specs.Prelude.{◌≡◌, IfOk};
ghost use Rattle.qp_model.specs.History.{lane_items};
ghost use Rattle.qp_model.specs.Home.{by_object, home_records};
ghost use Rattle.qp_model.specs.Lawful.{SpillStands, facts_of};
ghost use Rattle.qp_model.specs.ObjectShape.{HasShape};
ghost use Rattle.qp_model.specs.Sources.{IsSourceLane};
ghost use Rattle.qp_check_calls.specs.AsPiece.{as_cut};
ghost use Rattle.qp_check_calls.specs.Decides.{Decides};
ghost use Rattle.qp_check_knowledge.specs.Knowledge.{IsKnowledgeOf};

use qp_check_calls::{Cut, Told};
use qp_check_knowledge::knowledge::Knowledge;
use qp_check_knowledge::told_lists::{self, source_told};
use qp_check_shapes::Scene;
use qp_model::{Journal, ObjectDef, Rec, Source, System};
use std::alloc::{AllocError, Global};
use std::marker::Model;

/// The records of an object, as told. Contracts see the list.
#[derive(Drop)]
pub(crate) struct Records {
    pub(crate) items: Vec<Told>,
}

impl Model for Records {
    ghost use Rattle.std.specs.Prelude.{List};
    ghost use Rattle.qp_model.specs.Told as told;

    ghost Value = { List told.Told };

    ghost view = { λ r. r.items.items };
}

/// The records of an object.
pub(crate) fn object_records(
    alloc: Global,
    knowledge: &Knowledge,
    sys: &System,
    j: &Journal,
    d: &ObjectDef,
) -> Result<Records, AllocError>
    requires { IsKnowledgeOf knowledge.now sys.now j.now }
    ensures { IfOk result (λ v. v ≡ by_object (facts_of sys.now j.now) j.now d.now.priority) }
{
    let items = told_lists::object_records(alloc, knowledge, d.priority)?;
    Ok(Records { items })
}

/// The records of an object for its shape.
pub(crate) fn home_records(
    alloc: Global,
    knowledge: &Knowledge,
    sys: &System,
    j: &Journal,
    d: &ObjectDef,
) -> Result<Records, AllocError>
    requires { IsKnowledgeOf knowledge.now sys.now j.now }
    ensures { IfOk result (λ v. v ≡ home_records (facts_of sys.now j.now) j.now d.now.priority) }
{
    let items = told_lists::home_records(alloc, knowledge, d.priority)?;
    Ok(Records { items })
}

pub(crate) fn has_shape(sys: &System, o: u8, nils: bool, cut: Cut, told: &[Told]) -> bool
    ensures { Decides result (HasShape sys.now o nils (as_cut cut) told.now) }
{
    let scene = Scene::of(sys, o);
    qp_check_shapes::has_shape(&scene, nils, cut, told)
}

/// Whether the lane is as the stimuli of its source have it.
pub(crate) fn is_source_lane(
    alloc: Global,
    knowledge: &Knowledge,
    sys: &System,
    j: &Journal,
    source: &Source,
    lane: &[Rec],
) -> Result<bool, AllocError>
    requires { IsKnowledgeOf knowledge.now sys.now j.now }
    ensures { IfOk result (λ b. Decides b (IsSourceLane (facts_of sys.now j.now) j.now.kernel j.now.end source.now (lane_items lane.now))) }
{
    let told = source_told(alloc, knowledge, lane)?;
    let is = qp_check_ends::is_source_lane(
        alloc,
        sys,
        j.kernel,
        j.end,
        &source.items,
        lane,
        &told,
    )?;
    Ok(is)
}

/// Whether the `spill` of a source stands where it may, within its stimulus or behind it.
pub(crate) fn spill_stands(
    alloc: Global,
    knowledge: &Knowledge,
    sys: &System,
    j: &Journal,
    cuts: bool,
    source: &Source,
    lane: &[Rec],
) -> Result<bool, AllocError>
    requires { IsKnowledgeOf knowledge.now sys.now j.now }
    ensures { IfOk result (λ b. Decides b (SpillStands sys.now j.now cuts source.now (lane_items lane.now))) }
{
    let told = source_told(alloc, knowledge, lane)?;
    let stands = qp_check_ends::spill_stands(alloc, sys, j.kernel, cuts, &source.items, &told)?;
    Ok(stands)
}
