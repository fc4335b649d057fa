//! The definitions of objects, each at the first object at which it fails.

ghost use Rattle.std.specs.Prelude.{◌≡◌, map, length, IfOk, IsTrue};
ghost use Rattle.std.specs.List.{AllByRecursion};
ghost use Rattle.qp_model.specs.Home.{by_object};
ghost use Rattle.qp_model.specs.Kernels.{port};
ghost use Rattle.qp_model.specs.Lawful.{CourseHolds, ShapesHold, deferral_holds, dispatched, facts_of};
ghost use Rattle.qp_check_calls.specs.Decides.{Decides};
ghost use Rattle.qp_check.specs.Judgeable.{IsJudgeable};
ghost use Rattle.qp_check.specs.Judged.{Finds, at_objects, object_trials};
ghost use Rattle.qp_check_course.specs.Followable.{IsFollowable};
ghost use Rattle.qp_check_knowledge.specs.Knowledge.{IsKnowledgeOf};
ghost use Rattle.qp_check_words.specs.declared.verdict.Site.TheVariants as site;

use crate::parts::{Records, has_shape, home_records, object_records};
use qp_check_course::follows;
use qp_check_knowledge::knowledge::Knowledge;
use qp_check_knowledge::told_cut::cut_of;
use qp_check_knowledge::told_home::is_home_lane;
use qp_check_knowledge::told_lists::keep_dispatched;
use qp_check_lanes::deferral::keeps_deferred;
use qp_check_lanes::lane_parts::{home_lane, lane_at};
use qp_check_words::verdict::{Broken, Site};
use qp_model::definitions::{COURSE, DEFERRAL, SHAPES};
use qp_model::ends::may_cut;
use qp_model::kernels::PORT;
use qp_model::{Journal, ObjectDef, System};
use std::alloc::{AllocError, Global};

fn at_object(definition: u8, d: &ObjectDef) -> Broken
    ensures number { result.definition ≡ definition }
    ensures place { result.site ≡ site.Object d.now.priority }
{
    Broken {
        definition,
        site: Site::Object(d.priority),
    }
}

/// The records of each object, as told.
fn all_records(
    alloc: Global,
    knowledge: &Knowledge,
    sys: &System,
    j: &Journal,
) -> Result<Vec<Records>, AllocError>
    requires { IsKnowledgeOf knowledge.now sys.now j.now }
    ensures { IfOk result (λ v. v.items ≡ map (λ d. by_object (facts_of sys.now j.now) j.now d.priority) sys.now.objects) }
{
    let mut all = Vec::new(alloc);
    for d in &sys.objects.items {
        all.push(object_records(alloc, knowledge, sys, j, d)?)?;
    }
    Ok(all)
}

/// The same in `port`: its lane has no records but its own and looks at its own queue, which count among them.
fn has_its_home(
    alloc: Global,
    knowledge: &Knowledge,
    sys: &System,
    j: &Journal,
    d: &ObjectDef,
) -> Result<bool, AllocError>
    requires known { IsKnowledgeOf knowledge.now sys.now j.now }
    requires port { j.now.kernel ≡ port }
    ensures { IfOk result (λ b. Decides b (ShapesHold sys.now j.now d.now)) }
{
    let cut = cut_of(sys, j, d.priority);
    let told = home_records(alloc, knowledge, sys, j, d)?;
    if !has_shape(sys, d.priority, true, cut, &told.items) {
        return Ok(false);
    }
    let home = home_lane(sys, j, d.priority);
    let is_home = is_home_lane(
        alloc,
        d.priority,
        j.budget,
        may_cut(j.end),
        lane_at(j, home),
    )?;
    Ok(is_home)
}

/// Whether an object's records have their shapes.
fn has_its_shapes(
    alloc: Global,
    knowledge: &Knowledge,
    sys: &System,
    j: &Journal,
    d: &ObjectDef,
    told: &Records,
) -> Result<bool, AllocError>
    requires known { IsKnowledgeOf knowledge.now sys.now j.now }
    requires told { told.now ≡ by_object (facts_of sys.now j.now) j.now d.now.priority }
    ensures { IfOk result (λ b. Decides b (ShapesHold sys.now j.now d.now)) }
{
    if j.kernel == PORT {
        return has_its_home(alloc, knowledge, sys, j, d);
    }
    let cut = cut_of(sys, j, d.priority);
    Ok(has_shape(sys, d.priority, false, cut, &told.items))
}

fn shapes_broken(
    alloc: Global,
    knowledge: &Knowledge,
    sys: &System,
    j: &Journal,
    told: &[Records],
) -> Result<Option<Broken>, AllocError>
    requires known { IsKnowledgeOf knowledge.now sys.now j.now }
    requires told { told.now ≡ map (λ d. by_object (facts_of sys.now j.now) j.now d.priority) sys.now.objects }
    ensures { IfOk result (λ o. Finds (at_objects 15 (ShapesHold sys.now j.now) sys.now.objects) o) }
{
    for (i, d) in sys.objects.items.iter().enumerate() {
        if !has_its_shapes(alloc, knowledge, sys, j, d, &told[i])? {
            return Ok(Some(at_object(SHAPES, d)));
        }
    }
    Ok(None)
}

fn deferral_broken(alloc: Global, sys: &System, j: &Journal) -> Result<Option<Broken>, AllocError>
    ensures { IfOk result (λ o. Finds (at_objects 17 (λ d. IsTrue (deferral_holds sys.now j.now d)) sys.now.objects) o) }
{
    for d in &sys.objects.items {
        if !keeps_deferred(alloc, sys, j, d)? {
            return Ok(Some(at_object(DEFERRAL, d)));
        }
    }
    Ok(None)
}

impl Records {
    /// Keeps those of a start and of steps.
    fn drop_marks(&mut self)
        ensures { self.new ≡ dispatched self.old }
    {
        keep_dispatched(&mut self.items);
    }
}

fn drop_all_marks(all: &mut [Records])
    ensures { all.new ≡ map dispatched all.old }
{
    for records in all.iter_mut() {
        records.drop_marks();
    }
}

/// Whether the records of an object's start and steps follow its chart.
#[tactic(auto, unfolding(qp_model::specs::Lawful::CourseHolds))]
fn has_its_course(
    alloc: Global,
    sys: &System,
    j: &Journal,
    d: &ObjectDef,
    told: &Records,
) -> Result<bool, AllocError>
    requires followable { IsFollowable sys.now d.now }
    requires told { told.now ≡ dispatched (by_object (facts_of sys.now j.now) j.now d.now.priority) }
    ensures { IfOk result (λ b. Decides b (CourseHolds sys.now j.now d.now)) }
{
    let cut = cut_of(sys, j, d.priority);
    let follows = follows(alloc, sys, d, cut, &told.items)?;
    Ok(follows)
}

fn course_broken(
    alloc: Global,
    sys: &System,
    j: &Journal,
    told: &[Records],
) -> Result<Option<Broken>, AllocError>
    requires followable { AllByRecursion (IsFollowable sys.now) sys.now.objects }
    requires told { told.now ≡ map (λ d. dispatched (by_object (facts_of sys.now j.now) j.now d.priority)) sys.now.objects }
    ensures { IfOk result (λ o. Finds (at_objects 7 (CourseHolds sys.now j.now) sys.now.objects) o) }
{
    for (i, d) in sys.objects.items.iter().enumerate() {
        if !has_its_course(alloc, sys, j, d, &told[i])? {
            return Ok(Some(at_object(COURSE, d)));
        }
    }
    Ok(None)
}

/// The first definition of objects that fails: shapes, the deferred list and the course, each at all objects in their order.
#[tactic(auto, unfolding(crate::specs::Judged::object_trials))]
pub(crate) fn objects_broken(
    alloc: Global,
    knowledge: &Knowledge,
    sys: &System,
    j: &Journal,
) -> Result<Option<Broken>, AllocError>
    requires judgeable { IsJudgeable sys.now }
    requires known { IsKnowledgeOf knowledge.now sys.now j.now }
    ensures { IfOk result (λ o. Finds (object_trials sys.now j.now) o) }
{
    let mut told = all_records(alloc, knowledge, sys, j)?;
    let shapes = shapes_broken(alloc, knowledge, sys, j, &told)?;
    match shapes {
        Some(broken) => return Ok(Some(broken)),
        None => {}
    }
    let deferral = deferral_broken(alloc, sys, j)?;
    match deferral {
        Some(broken) => return Ok(Some(broken)),
        None => {}
    }
    drop_all_marks(&mut told);
    let course = course_broken(alloc, sys, j, &told)?;
    Ok(course)
}
