//! Publications among an object's records: whole ones, those that assertion 1 cuts, and fronts of either.

ghost use Rattle.std.specs.Prelude.{◌≡◌, ◌&&◌};
ghost use Rattle.std.specs.Option.{option_map};
ghost use Rattle.qp_model.specs.Record.{entry};
ghost use Rattle.qp_check_shapes.specs.ShapePublication.{stage_if, start_first, given_next, made_next, post_next, reference_next, lock_next, posts_next, raised_next, posted_next, dropped_next, publish_next, stage_after, behind_stage, is_whole_publication};

use crate::shape_pools::goes_to;
use crate::shape_scene::Scene;
use crate::shape_stage::{Ceiling, Posting, PublishStage, next_post, published, released};
use crate::shape_unit::entry;
use qp_check_calls::{Known, Told};
use qp_model::{Body, Entry};

fn stage_if(passed: bool, stage: PublishStage) -> Option<PublishStage>
    ensures { result ≡ stage_if passed stage }
{
    if passed { Some(stage) } else { None }
}

/// A block for a new event, or the set of a static one.
#[tactic(auto, unfolding(crate::specs::ShapePublication::start_first))]
fn start_first(scene: &Scene, t: &Told) -> Option<PublishStage>
    ensures { result ≡ start_first scene.now.sys.now scene.now.o t.now.body t.now.known }
{
    match (&t.body, &t.known) {
        (
            Body::New {
                p,
                b,
                sig,
                pars,
                ..
            },
            Known::Free { n },
        ) => {
            let is_of_pool = goes_to(scene.sys, pars.items.len(), *p);
            let is_free = *n > 0 && is_of_pool && !scene.is_static(*sig);
            stage_if(
                is_free,
                PublishStage::Given {
                    p: *p,
                    b: *b,
                    sig: *sig,
                },
            )
        }
        (Body::Pub { sig, set, .. }, Known::Nothing) => {
            let stage = published(scene.o, entry(0, *sig, 0), *set);
            stage_if(scene.is_static(*sig), stage)
        }
        _ => None,
    }
}

/// The first reference of the block.
fn given_next(p: u64, b: u64, sig: u64, t: &Told) -> Option<PublishStage>
    ensures { result ≡ given_next p b sig t.now.body t.now.known }
{
    match (&t.body, &t.known) {
        (Body::Inc { p: q, b: c, r }, Known::Nothing) => {
            let entry = entry(p, b, *r);
            stage_if(*q == p && *c == b, PublishStage::Made { entry, sig })
        }
        _ => None,
    }
}

/// The set of a pooled event.
#[tactic(auto, unfolding(crate::specs::ShapePublication::made_next))]
fn made_next(o: u8, e: Entry, sig: u64, t: &Told) -> Option<PublishStage>
    ensures { result ≡ made_next o e sig t.now.body t.now.known }
{
    match (&t.body, &t.known) {
        (Body::Pub { sig: s, set, .. }, Known::Nothing) => {
            stage_if(*s == sig, published(o, e, *set))
        }
        _ => None,
    }
}

/// The post of an entry, or a queue with no entry left.
#[tactic(auto, unfolding(crate::specs::ShapePublication::post_next))]
fn post_next(scene: &Scene, posting: Posting, e: Entry, t: &Told) -> Option<PublishStage>
    ensures { result ≡ post_next scene.now.sys.now posting e t.now.body t.now.known }
{
    match (&t.body, &t.known) {
        (Body::Post { a, f, l, m, entry }, Known::Nothing) => {
            let is_next = *a == u64::from(posting.to) && entry.is_same(e);
            let stage = next_post(posting.entry, posting.set, posting.ceiling, posting.below);
            stage_if(is_next && scene.had_room(*a, *f, *l, *m), stage)
        }
        (Body::NoEntry { a, .. }, Known::Nothing) => {
            stage_if(*a == u64::from(posting.to), PublishStage::Cut)
        }
        _ => None,
    }
}

/// A post's own reference.
fn reference_next(posting: Posting, t: &Told) -> Option<PublishStage>
    ensures { result ≡ reference_next posting t.now.body t.now.known }
{
    match (&t.body, &t.known) {
        (Body::Inc { p, b, r }, Known::Nothing) => stage_if(
            *p == posting.entry.pool && *b == posting.entry.block,
            PublishStage::Referred { posting, r: *r },
        ),
        _ => None,
    }
}

/// The ceiling that rises to the highest member.
fn lock_next(posting: Posting, t: &Told) -> Option<PublishStage>
    ensures { result ≡ lock_next posting t.now.body t.now.known }
{
    match (&t.body, &t.known) {
        (Body::Lock { ceiling }, Known::Former { ceiling: former }) => {
            let raised = Posting {
                entry: posting.entry,
                to: posting.to,
                below: posting.below,
                set: posting.set,
                ceiling: Ceiling::Rose { former: *former },
            };
            let is_highest = *ceiling == (*former).max(u64::from(posting.to));
            stage_if(is_highest, PublishStage::Posts { posting: raised })
        }
        _ => None,
    }
}

#[tactic(auto, unfolding(crate::specs::ShapePublication::posts_next))]
fn posts_next(scene: &Scene, posting: Posting, t: &Told) -> Option<PublishStage>
    ensures { result ≡ posts_next scene.now.sys.now posting posting.ceiling t.now.body t.now.known }
{
    match posting.ceiling {
        Ceiling::Rises => lock_next(posting, t),
        _ => if posting.entry.pool == 0 {
            post_next(scene, posting, posting.entry, t)
        } else {
            reference_next(posting, t)
        },
    }
}

/// The former ceiling.
fn raised_next(e: Entry, former: u64, t: &Told) -> Option<PublishStage>
    ensures { result ≡ raised_next e former t.now.body t.now.known }
{
    match (&t.body, &t.known) {
        (Body::Unlock { ceiling }, Known::Nothing) => stage_if(*ceiling == former, released(e)),
        _ => None,
    }
}

/// The operation that drops the publication's own reference.
fn posted_next(e: Entry, t: &Told) -> Option<PublishStage>
    ensures { result ≡ posted_next e t.now.body t.now.known }
{
    match (&t.body, &t.known) {
        (Body::Dec { p, b, d, k }, Known::Left { n }) => {
            let stage = if *n == 0 {
                PublishStage::Dropped {
                    p: *p,
                    b: *b,
                    d: *d,
                }
            } else {
                PublishStage::Whole
            };
            stage_if(*p == e.pool && *b == e.block && *k == e.name, stage)
        }
        _ => None,
    }
}

/// The block's return.
fn dropped_next(p: u64, b: u64, d: u64, t: &Told) -> Option<PublishStage>
    ensures { result ≡ dropped_next p b d t.now.body t.now.known }
{
    match (&t.body, &t.known) {
        (Body::Back { p: q, b: c, to, .. }, Known::Nothing) => {
            let is_of_block = *q == p && *c == b;
            let is_next = u128::from(*to) == u128::from(d) + 1;
            stage_if(is_of_block && is_next, PublishStage::Whole)
        }
        _ => None,
    }
}

/// The stage behind a record, where it can stand there.
#[tactic(auto, unfolding(crate::specs::ShapePublication::publish_next))]
fn next(scene: &Scene, stage: PublishStage, t: &Told) -> Option<PublishStage>
    ensures { result ≡ publish_next scene.now.sys.now scene.now.o stage t.now.body t.now.known }
{
    match stage {
        PublishStage::Start => start_first(scene, t),
        PublishStage::Given { p, b, sig } => given_next(p, b, sig, t),
        PublishStage::Made { entry, sig } => made_next(scene.o, entry, sig, t),
        PublishStage::Posts { posting } => posts_next(scene, posting, t),
        PublishStage::Referred { posting, r } => {
            let e = entry(posting.entry.pool, posting.entry.block, r);
            post_next(scene, posting, e, t)
        }
        PublishStage::Raised { entry, former } => raised_next(entry, former, t),
        PublishStage::Posted { entry } => posted_next(entry, t),
        PublishStage::Dropped { p, b, d } => dropped_next(p, b, d, t),
        PublishStage::Whole | PublishStage::Cut => None,
    }
}

/// The stage behind all records of a list, from a stage on.
#[tactic(auto, unfolding(crate::specs::ShapePublication::stage_after))]
pub fn run(scene: &Scene, stage: PublishStage, told: &[Told]) -> Option<PublishStage>
    ensures { result ≡ stage_after scene.now.sys.now scene.now.o told.now stage }
{
    let Some((first, rest)) = told.split_first() else {
        return Some(stage);
    };
    run(scene, next(scene, stage, first)?, rest)
}

fn is_whole(stage: PublishStage) -> bool
    ensures { result ≡ is_whole_publication stage }
{
    match stage {
        PublishStage::Whole => true,
        _ => false,
    }
}

/// What stands behind the publication that a list begins with, from a stage on.
#[tactic(auto, unfolding(crate::specs::ShapePublication::behind_stage))]
pub fn behind_stage<'a>(scene: &Scene, stage: PublishStage, told: &'a [Told]) -> Option<&'a [Told]>
    ensures { option_map (λ x. x.now) result ≡ behind_stage scene.now.sys.now scene.now.o told.now stage }
{
    if is_whole(stage) {
        return Some(told);
    }
    let (first, rest) = told.split_first()?;
    behind_stage(scene, next(scene, stage, first)?, rest)
}
