//! Whole actions at the front of an object's records, calls that assert, and publications that stop at a post.

ghost use Rattle.std.specs.Prelude.{◌≡◌, ◌&&◌, ◌||◌};
ghost use Rattle.std.specs.declared.option.Option.{Option};
ghost use Rattle.std.specs.Option.{option_map, is_some};
ghost use Rattle.qp_check_calls.specs.Decides.{Decides};
ghost use Rattle.qp_model.specs.declared.bodies.Entry.{Entry};
ghost use Rattle.qp_model.specs.Groups.{is_post, ends_in_post};
ghost use Rattle.qp_check_shapes.specs.ShapeRelease.{IsUnambiguous};
ghost use Rattle.qp_check_shapes.specs.ShapeUnit.{behind_unit};
ghost use Rattle.qp_check_shapes.specs.ShapeAssertion.{behind_assertion};
ghost use Rattle.qp_check_shapes.specs.ShapeAction.{IsWhole, IsCut, StopsInside};
ghost use Rattle.qp_check_shapes.specs.declared.shape_stage.PublishStage.TheVariants as stage;
ghost use Rattle.qp_check_shapes.specs.ShapePublication.{stage_after, behind_stage, is_nothing_behind, is_cut_publication, else_behind};

use crate::shape_assertion::assertion_first;
use crate::shape_publication::{behind_stage, run};
use crate::shape_scene::Scene;
use crate::shape_stage::PublishStage;
use crate::shape_unit::unit_first;
use qp_check_calls::Told;
use qp_model::{Body, Entry};

fn action_first<'a>(scene: &Scene, now: Option<Entry>, told: &'a [Told]) -> Option<&'a [Told]>
    ensures { option_map (λ x. x.now) result ≡ else_behind (behind_unit scene.now.sys.now scene.now.o now told.now)
        (behind_stage scene.now.sys.now scene.now.o told.now stage.Start) }
{
    match unit_first(scene, now, told) {
        Some(rest) => Some(rest),
        None => behind_stage(scene, PublishStage::Start, told),
    }
}

/// What stands behind the action that a list begins with, where it begins with one: a unit, or a publication that is made whole.
pub fn behind_action<'a>(scene: &Scene, now: Option<Entry>, told: &'a [Told]) -> Option<&'a [Told]>
    ensures { IsUnambiguous (IsWhole scene.now.sys.now scene.now.o now) told.now (option_map (λ x. x.now) result) }
{
    action_first(scene, now, told)
}

pub fn is_done(rest: Option<&[Told]>) -> bool
    ensures { result ≡ is_nothing_behind (option_map (λ x. x.now) rest.entry) }
{
    match rest {
        Some(rest) => rest.is_empty(),
        None => false,
    }
}

fn is_cut(stage: Option<PublishStage>) -> bool
    ensures { result ≡ is_cut_publication stage }
{
    match stage {
        Some(PublishStage::Cut) => true,
        _ => false,
    }
}

fn asserts_first(scene: &Scene, now: Option<Entry>, told: &[Told]) -> bool
    ensures { result ≡ (is_nothing_behind (behind_assertion scene.now.sys.now scene.now.o now told.now) || is_cut_publication
        (stage_after scene.now.sys.now scene.now.o told.now stage.Start)) }
{
    is_done(assertion_first(scene, now, told)) || is_cut(run(scene, PublishStage::Start, told))
}

/// Whether all of a list is a call that ends in its assertion.
pub fn asserts(scene: &Scene, now: Option<Entry>, told: &[Told]) -> bool
    ensures { Decides result (IsCut scene.now.sys.now scene.now.o now told.now) }
{
    asserts_first(scene, now, told)
}

fn is_post(t: &Told) -> bool
    ensures { result ≡ is_post t.now.body }
{
    match &t.body {
        Body::Post { .. } => true,
        _ => false,
    }
}

/// Whether the last record is a post.
fn ends_in_post(told: &[Told]) -> bool
    ensures { result ≡ ends_in_post told.now }
{
    match told.last() {
        Some(t) => is_post(t),
        None => false,
    }
}

fn stops_first(scene: &Scene, told: &[Told]) -> bool
    ensures { result ≡ (ends_in_post told.now && is_some (stage_after scene.now.sys.now scene.now.o told.now stage.Start)) }
{
    ends_in_post(told) && run(scene, PublishStage::Start, told).is_some()
}

/// Whether a list is a publication up to one of its posts, whatever the object works on.
pub fn stops_in_publication(scene: &Scene, told: &[Told]) -> bool
    ensures { (now : Option Entry) → Decides result (StopsInside scene.now.sys.now scene.now.o now told.now) }
{
    stops_first(scene, told)
}
