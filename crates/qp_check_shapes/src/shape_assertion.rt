//! Calls that end in their assertions, at the front of an object's records.

ghost use Rattle.std.specs.Prelude.{◌≡◌};
ghost use Rattle.std.specs.Option.{option_map};
ghost use Rattle.qp_check_shapes.specs.ShapeRelease.{IsUnambiguous};
ghost use Rattle.qp_check_shapes.specs.ShapeAssertion.{IsAsserted, behind_no_entry, behind_no_lifo, behind_cut, behind_new_cut, behind_recall_reference, behind_recall_cut, plain_cut, given_cut, behind_assertion};

use crate::shape_pools::{goes_to, is_used};
use crate::shape_scene::Scene;
use crate::shape_unit::{when, works_on, works_on_static};
use qp_check_calls::{Known, Told};
use qp_model::{Body, Entry};

/// What stands behind a post that finds no entry.
pub fn behind_no_entry<'a>(told: &'a [Told]) -> Option<&'a [Told]>
    ensures { option_map (λ x. x.now) result ≡ behind_no_entry told.now }
{
    let (first, rest) = told.split_first()?;
    match (&first.body, &first.known) {
        (Body::NoEntry { .. }, Known::Nothing) => Some(rest),
        _ => None,
    }
}

/// What stands behind a last-in post of `o` that finds no entry.
pub fn behind_no_lifo<'a>(o: u8, told: &'a [Told]) -> Option<&'a [Told]>
    ensures { option_map (λ x. x.now) result ≡ behind_no_lifo o told.now }
{
    let (first, rest) = told.split_first()?;
    match (&first.body, &first.known) {
        (Body::NoLifo { a, .. }, Known::Nothing) => when(*a == u64::from(o), rest),
        _ => None,
    }
}

/// What stands behind either of them.
pub fn behind_cut<'a>(o: u8, told: &'a [Told]) -> Option<&'a [Told]>
    ensures { option_map (λ x. x.now) result ≡ behind_cut o told.now }
{
    let (first, rest) = told.split_first()?;
    match (&first.body, &first.known) {
        (Body::NoEntry { .. }, Known::Nothing) => Some(rest),
        (Body::NoLifo { a, .. }, Known::Nothing) => when(*a == u64::from(o), rest),
        _ => None,
    }
}

/// What stands behind the first reference of a new block, and a post of its entry that finds no place.
fn behind_new_cut<'a>(o: u8, p: u64, b: u64, told: &'a [Told]) -> Option<&'a [Told]>
    ensures { option_map (λ x. x.now) result ≡ behind_new_cut o p b told.now }
{
    let (first, rest) = told.split_first()?;
    match (&first.body, &first.known) {
        (Body::Inc { p: q, b: c, .. }, Known::Nothing) => {
            if *q == p && *c == b {
                behind_cut(o, rest)
            } else {
                None
            }
        }
        _ => None,
    }
}

fn behind_recall_reference<'a>(o: u8, k: Entry, told: &'a [Told]) -> Option<&'a [Told]>
    ensures { option_map (λ x. x.now) result ≡ behind_recall_reference o k told.now }
{
    let (first, rest) = told.split_first()?;
    match (&first.body, &first.known) {
        (Body::Inc { p, b, .. }, Known::Nothing) => {
            if *p == k.pool && *b == k.block {
                behind_no_lifo(o, rest)
            } else {
                None
            }
        }
        _ => None,
    }
}

/// What stands behind a recalled entry that finds no place.
#[tactic(auto, unfolding(crate::specs::ShapeAssertion::behind_recall_cut))]
fn behind_recall_cut<'a>(o: u8, k: Entry, told: &'a [Told]) -> Option<&'a [Told]>
    ensures { option_map (λ x. x.now) result ≡ behind_recall_cut o k told.now }
{
    if k.pool == 0 {
        behind_no_lifo(o, told)
    } else {
        behind_recall_reference(o, k, told)
    }
}

/// What stands behind a call that ends in its assertion and whose first record states all.
#[tactic(auto, unfolding(crate::specs::ShapeAssertion::plain_cut))]
pub fn plain_cut<'a>(
    scene: &Scene,
    now: Option<Entry>,
    body: &Body,
    rest: &'a [Told],
) -> Option<&'a [Told]>
    ensures { option_map (λ x. x.now) result ≡ plain_cut scene.now.sys.now scene.now.o now body.now rest.now }
{
    match body {
        Body::NoEntry { .. } => when(scene.has_static || works_on_static(now), rest),
        Body::NoLifo { a, .. } => when(scene.has_static && *a == u64::from(scene.o), rest),
        Body::NoBlock { p, .. } => when(is_used(scene.sys, *p), rest),
        Body::Armed { .. } | Body::BadTicks { .. } => Some(rest),
        Body::Inc { p, b, .. } => {
            if works_on(now, *p, *b) {
                behind_no_entry(rest)
            } else {
                None
            }
        }
        Body::Recall { entry } => behind_recall_cut(scene.o, *entry, rest),
        _ => None,
    }
}

/// What stands behind one that begins with a block given out.
#[tactic(auto, unfolding(crate::specs::ShapeAssertion::given_cut))]
fn given_cut<'a>(scene: &Scene, free: u64, body: &Body, rest: &'a [Told]) -> Option<&'a [Told]>
    ensures { option_map (λ x. x.now) result ≡ given_cut scene.now.sys.now scene.now.o free body.now rest.now }
{
    match body {
        Body::New {
            p,
            b,
            sig,
            pars,
            ..
        } => {
            let is_of_pool = goes_to(scene.sys, pars.items.len(), *p);
            if free > 0 && is_of_pool && !scene.is_static(*sig) {
                behind_new_cut(scene.o, *p, *b, rest)
            } else {
                None
            }
        }
        _ => None,
    }
}

pub fn assertion_first<'a>(
    scene: &Scene,
    now: Option<Entry>,
    told: &'a [Told],
) -> Option<&'a [Told]>
    ensures { option_map (λ x. x.now) result ≡ behind_assertion scene.now.sys.now scene.now.o now told.now }
{
    let (first, rest) = told.split_first()?;
    match &first.known {
        Known::Nothing => plain_cut(scene, now, &first.body, rest),
        Known::Free { n } => given_cut(scene, *n, &first.body, rest),
        _ => None,
    }
}

/// What stands behind the call that a list begins with, where it begins with one that ends in its assertion and is no publication.
pub fn behind_assertion<'a>(
    scene: &Scene,
    now: Option<Entry>,
    told: &'a [Told],
) -> Option<&'a [Told]>
    ensures { IsUnambiguous (IsAsserted scene.now.sys.now scene.now.o now) told.now (option_map (λ x. x.now) result) }
{
    assertion_first(scene, now, told)
}
