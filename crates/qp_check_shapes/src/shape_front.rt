//! Fronts of an object's actions, and of calls that end in their assertions.

ghost use Rattle.std.specs.Prelude.{◌≡◌, ◌||◌};
ghost use Rattle.std.specs.Option.{is_some};
ghost use Rattle.qp_check_calls.specs.Decides.{Decides};
ghost use Rattle.qp_check_shapes.specs.ShapeUnit.{behind_unit};
ghost use Rattle.qp_check_shapes.specs.ShapeAction.{IsFront};
ghost use Rattle.qp_check_shapes.specs.declared.shape_stage.PublishStage.TheVariants as stage;
ghost use Rattle.qp_check_shapes.specs.ShapePublication.{stage_after};
ghost use Rattle.qp_check_shapes.specs.ShapeFront.{release_front, entry_front, again_front, new_front, lifo_front, reference_front, recall_front, plain_front, given_front, unit_front};

use crate::shape_action::is_done;
use crate::shape_assertion::{
    assertion_first, behind_cut, behind_no_entry, behind_no_lifo, plain_cut,
};
use crate::shape_pools::goes_to;
use crate::shape_publication::run;
use crate::shape_scene::Scene;
use crate::shape_stage::{PublishStage, released};
use crate::shape_unit::{behind_again, behind_entry, entry, plain_first, unit_first, works_on};
use qp_check_calls::{Known, Told};
use qp_model::{Body, Entry};

/// Whether a list is a front of an entry's release.
#[tactic(auto, unfolding(crate::specs::ShapeFront::release_front))]
fn release_front(scene: &Scene, e: Entry, told: &[Told]) -> bool
    ensures { result ≡ release_front scene.now.sys.now scene.now.o e told.now }
{
    run(scene, released(e), told).is_some()
}

/// Of what a post of a new event's entry leaves.
#[tactic(auto, unfolding(crate::specs::ShapeFront::entry_front, crate::specs::ShapeFront::entry_front_first))]
fn entry_front(scene: &Scene, e: Entry, told: &[Told]) -> bool
    ensures { result ≡ entry_front scene.now.sys.now scene.now.o e told.now }
{
    let Some((first, rest)) = told.split_first() else {
        return true;
    };
    match (&first.body, &first.known) {
        (Body::Full { .. }, Known::Nothing) => release_front(scene, e, rest),
        _ => is_done(behind_entry(scene, e, told)) || is_done(behind_cut(scene.o, told)),
    }
}

/// Of what an entry with a new reference leaves.
#[tactic(auto, unfolding(crate::specs::ShapeFront::again_front, crate::specs::ShapeFront::again_front_first))]
fn again_front(scene: &Scene, e: Entry, told: &[Told]) -> bool
    ensures { result ≡ again_front scene.now.sys.now scene.now.o e told.now }
{
    let Some((first, rest)) = told.split_first() else {
        return true;
    };
    match (&first.body, &first.known) {
        (Body::Full { .. }, Known::Nothing) => release_front(scene, e, rest),
        _ => is_done(behind_again(scene, e, told)) || is_done(behind_no_entry(told)),
    }
}

/// Of a new block's first reference, and of its post.
#[tactic(auto, unfolding(crate::specs::ShapeFront::new_front, crate::specs::ShapeFront::new_front_first))]
fn new_front(scene: &Scene, p: u64, b: u64, told: &[Told]) -> bool
    ensures { result ≡ new_front scene.now.sys.now scene.now.o p b told.now }
{
    let Some((first, rest)) = told.split_first() else {
        return true;
    };
    match (&first.body, &first.known) {
        (Body::Inc { p: q, b: c, r }, Known::Nothing) => {
            *q == p && *c == b && entry_front(scene, entry(p, b, *r), rest)
        }
        _ => false,
    }
}

/// Of the last-in post of a recalled entry, and of its release.
#[tactic(auto, unfolding(crate::specs::ShapeFront::lifo_front, crate::specs::ShapeFront::lifo_front_first))]
fn lifo_front(scene: &Scene, k: Entry, e: Entry, told: &[Told]) -> bool
    ensures { result ≡ lifo_front scene.now.sys.now scene.now.o k e told.now }
{
    let Some((first, rest)) = told.split_first() else {
        return true;
    };
    match (&first.body, &first.known) {
        (Body::Lifo { entry, .. }, Known::Nothing) => {
            entry.is_same(e) && release_front(scene, k, rest)
        }
        _ => is_done(behind_no_lifo(scene.o, told)),
    }
}

#[tactic(auto, unfolding(crate::specs::ShapeFront::reference_front, crate::specs::ShapeFront::reference_front_first))]
fn reference_front(scene: &Scene, k: Entry, told: &[Told]) -> bool
    ensures { result ≡ reference_front scene.now.sys.now scene.now.o k told.now }
{
    let Some((first, rest)) = told.split_first() else {
        return true;
    };
    match (&first.body, &first.known) {
        (Body::Inc { p, b, r }, Known::Nothing) => {
            *p == k.pool && *b == k.block && lifo_front(scene, k, entry(*p, *b, *r), rest)
        }
        _ => false,
    }
}

/// Of the records of a recalled entry.
#[tactic(auto, unfolding(crate::specs::ShapeFront::recall_front))]
fn recall_front(scene: &Scene, k: Entry, told: &[Told]) -> bool
    ensures { result ≡ recall_front scene.now.sys.now scene.now.o k told.now }
{
    if k.pool == 0 {
        lifo_front(scene, k, k, told)
    } else {
        reference_front(scene, k, told)
    }
}

/// Whether such a body and what stands behind it are a front.
#[tactic(auto, unfolding(crate::specs::ShapeFront::plain_front))]
fn plain_front(scene: &Scene, now: Option<Entry>, body: &Body, rest: &[Told]) -> bool
    ensures { result ≡ plain_front scene.now.sys.now scene.now.o now body.now rest.now }
{
    match body {
        Body::Inc { p, b, r } => {
            works_on(now, *p, *b) && again_front(scene, entry(*p, *b, *r), rest)
        }
        Body::Recall { entry } => recall_front(scene, *entry, rest),
        Body::Flush { entry } => release_front(scene, *entry, rest),
        _ => {
            is_done(plain_first(scene, now, body, rest))
                || is_done(plain_cut(scene, now, body, rest))
        }
    }
}

/// The same of a block given out.
#[tactic(auto, unfolding(crate::specs::ShapeFront::given_front))]
fn given_front(scene: &Scene, free: u64, body: &Body, rest: &[Told]) -> bool
    ensures { result ≡ given_front scene.now.sys.now scene.now.o free body.now rest.now }
{
    match body {
        Body::New {
            p,
            b,
            sig,
            pars,
            ..
        } => {
            let is_of_pool = goes_to(scene.sys, pars.items.len(), *p);
            free > 0 && is_of_pool && !scene.is_static(*sig) && new_front(scene, *p, *b, rest)
        }
        _ => false,
    }
}

/// Of a unit, or of a call that ends in its assertion and is no publication.
#[tactic(auto, unfolding(crate::specs::ShapeFront::unit_front, crate::specs::ShapeFront::unit_front_first))]
fn unit_front(scene: &Scene, now: Option<Entry>, told: &[Told]) -> bool
    ensures { result ≡ unit_front scene.now.sys.now scene.now.o now told.now }
{
    let Some((first, rest)) = told.split_first() else {
        return true;
    };
    match &first.known {
        Known::Nothing => plain_front(scene, now, &first.body, rest),
        Known::Free { n } => given_front(scene, *n, &first.body, rest),
        _ => is_done(unit_first(scene, now, told)) || is_done(assertion_first(scene, now, told)),
    }
}

fn begins(scene: &Scene, now: Option<Entry>, told: &[Told]) -> bool
    ensures { result ≡ (is_some (stage_after scene.now.sys.now scene.now.o told.now stage.Start) || unit_front scene.now.sys.now
        scene.now.o now told.now) }
{
    run(scene, PublishStage::Start, told).is_some() || unit_front(scene, now, told)
}

/// Whether a list is a front of an action, or of a call that ends in its assertion: the records that are wanting can still come.
pub fn is_front(scene: &Scene, now: Option<Entry>, told: &[Told]) -> bool
    ensures { Decides result (IsFront scene.now.sys.now scene.now.o now told.now) }
{
    begins(scene, now, told)
}
