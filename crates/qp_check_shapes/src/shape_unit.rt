//! Actions at the front of an object's records: a value said, a call that is no publication, or a flushed entry.

ghost use Rattle.std.specs.Prelude.{◌≡◌, ℕ};
ghost use Rattle.std.specs.declared.option.Option.{Option};
ghost use Rattle.std.specs.Option.{option_map};
ghost use Rattle.qp_model.specs.Record.{entry};
ghost use Rattle.qp_model.specs.Told.{Nothing};
ghost use Rattle.qp_check_shapes.specs.ShapeRelease.{IsUnambiguous, when};
ghost use Rattle.qp_check_shapes.specs.ShapeUnit.{IsUnit, post_first, behind_again, behind_entry, behind_new, behind_lifo, behind_reference, behind_recall, is_static_now, works_on, works_on_static, plain_first, given_first, behind_unit};

use crate::shape_pools::{goes_to, is_used};
use crate::shape_release::behind_release;
use crate::shape_scene::Scene;
use qp_check_calls::{Known, Told};
use qp_model::{Body, Entry};

/// What stands behind a first record that passes a test.
pub fn when<'a>(passed: bool, rest: &'a [Told]) -> Option<&'a [Told]>
    ensures { option_map (λ x. x.now) result ≡ when passed rest.now }
{
    if passed { Some(rest) } else { None }
}

/// An entry by its pool, its block and its reference.
pub fn entry(pool: u64, block: u64, name: u64) -> Entry
    ensures { result ≡ entry pool block name }
{
    Entry { pool, block, name }
}

/// What stands behind a post of an entry, or a refusal and the entry's release.
fn post_first<'a>(scene: &Scene, e: Entry, first: &Told, rest: &'a [Told]) -> Option<&'a [Told]>
    ensures { option_map (λ x. x.now) result ≡ post_first scene.now.sys.now e first.now.body first.now.known rest.now }
{
    match (&first.body, &first.known) {
        (Body::Post { a, f, l, m, entry }, Known::Nothing) => when(
            entry.is_same(e) && scene.had_room(*a, *f, *l, *m),
            rest,
        ),
        (Body::Full { .. }, Known::Nothing) => behind_release(e, rest),
        _ => None,
    }
}

/// The same, or a deferral.
pub fn behind_again<'a>(scene: &Scene, e: Entry, told: &'a [Told]) -> Option<&'a [Told]>
    ensures { option_map (λ x. x.now) result ≡ behind_again scene.now.sys.now e told.now }
{
    let (first, rest) = told.split_first()?;
    match (&first.body, &first.known) {
        (Body::Defer { entry }, Known::Nothing) => when(entry.is_same(e), rest),
        _ => post_first(scene, e, first, rest),
    }
}

/// A post of an entry, in either order.
pub fn behind_entry<'a>(scene: &Scene, e: Entry, told: &'a [Told]) -> Option<&'a [Told]>
    ensures { option_map (λ x. x.now) result ≡ behind_entry scene.now.sys.now e told.now }
{
    let (first, rest) = told.split_first()?;
    match (&first.body, &first.known) {
        (Body::Lifo { entry, .. }, Known::Nothing) => when(entry.is_same(e), rest),
        _ => post_first(scene, e, first, rest),
    }
}

/// The first reference of a new block, and a post of its entry.
fn behind_new<'a>(scene: &Scene, p: u64, b: u64, told: &'a [Told]) -> Option<&'a [Told]>
    ensures { option_map (λ x. x.now) result ≡ behind_new scene.now.sys.now p b told.now }
{
    let (first, rest) = told.split_first()?;
    match (&first.body, &first.known) {
        (Body::Inc { p: q, b: c, r }, Known::Nothing) => {
            if *q == p && *c == b {
                behind_entry(scene, entry(p, b, *r), rest)
            } else {
                None
            }
        }
        _ => None,
    }
}

/// The last-in post of a recalled entry, and the release of its deferral.
fn behind_lifo<'a>(k: Entry, e: Entry, told: &'a [Told]) -> Option<&'a [Told]>
    ensures { option_map (λ x. x.now) result ≡ behind_lifo k e told.now }
{
    let (first, rest) = told.split_first()?;
    match (&first.body, &first.known) {
        (Body::Lifo { entry, .. }, Known::Nothing) => {
            if entry.is_same(e) {
                behind_release(k, rest)
            } else {
                None
            }
        }
        _ => None,
    }
}

fn behind_reference<'a>(k: Entry, told: &'a [Told]) -> Option<&'a [Told]>
    ensures { option_map (λ x. x.now) result ≡ behind_reference k told.now }
{
    let (first, rest) = told.split_first()?;
    match (&first.body, &first.known) {
        (Body::Inc { p, b, r }, Known::Nothing) => {
            if *p == k.pool && *b == k.block {
                behind_lifo(k, entry(*p, *b, *r), rest)
            } else {
                None
            }
        }
        _ => None,
    }
}

/// What stands behind the records of a recalled entry.
#[tactic(auto, unfolding(crate::specs::ShapeUnit::behind_recall))]
fn behind_recall<'a>(k: Entry, told: &'a [Told]) -> Option<&'a [Told]>
    ensures { option_map (λ x. x.now) result ≡ behind_recall k told.now }
{
    if k.pool == 0 {
        behind_lifo(k, k, told)
    } else {
        behind_reference(k, told)
    }
}

/// Whether a step works on this static entry.
fn is_static_now(now: Option<Entry>, e: Entry) -> bool
    ensures { result ≡ is_static_now now e }
{
    match now {
        Some(k) => k.pool == 0 && k.is_same(e),
        None => false,
    }
}

pub fn works_on_static(now: Option<Entry>) -> bool
    ensures { result ≡ works_on_static now }
{
    match now {
        Some(k) => k.pool == 0,
        None => false,
    }
}

/// Whether a step works on an entry of this block.
pub fn works_on(now: Option<Entry>, p: u64, b: u64) -> bool
    ensures { result ≡ works_on now p b }
{
    match now {
        Some(k) => 0 < p && k.pool == p && k.block == b,
        None => false,
    }
}

/// What stands behind an action whose first record states all.
#[tactic(auto, unfolding(crate::specs::ShapeUnit::plain_first))]
pub fn plain_first<'a>(
    scene: &Scene,
    now: Option<Entry>,
    body: &Body,
    rest: &'a [Told],
) -> Option<&'a [Told]>
    ensures { option_map (λ x. x.now) result ≡ plain_first scene.now.sys.now scene.now.o now body.now rest.now }
{
    match body {
        Body::Say { .. }
        | Body::Sub { .. }
        | Body::Unsub { .. }
        | Body::NoDefer
        | Body::NoRecall
        | Body::Arm { .. }
        | Body::Rearm { .. }
        | Body::Disarm { .. }
        | Body::Idle { .. } => Some(rest),
        Body::Short { p, .. } => when(is_used(scene.sys, *p), rest),
        Body::Post { a, f, l, m, entry } => {
            let is_static = scene.is_static_entry(*entry) || is_static_now(now, *entry);
            when(scene.had_room(*a, *f, *l, *m) && is_static, rest)
        }
        Body::Full { .. } => when(scene.has_static || works_on_static(now), rest),
        Body::Lifo { entry, .. } => when(scene.is_static_entry(*entry), rest),
        Body::Defer { entry } => when(is_static_now(now, *entry), rest),
        Body::Inc { p, b, r } => {
            if works_on(now, *p, *b) {
                behind_again(scene, entry(*p, *b, *r), rest)
            } else {
                None
            }
        }
        Body::Recall { entry } => behind_recall(*entry, rest),
        Body::Flush { entry } => behind_release(*entry, rest),
        _ => None,
    }
}

/// What stands behind an action that begins with a block given out.
#[tactic(auto, unfolding(crate::specs::ShapeUnit::given_first))]
fn given_first<'a>(scene: &Scene, free: u64, body: &Body, rest: &'a [Told]) -> Option<&'a [Told]>
    ensures { option_map (λ x. x.now) result ≡ given_first scene.now.sys.now free body.now rest.now }
{
    match body {
        Body::New {
            p,
            b,
            sig,
            pars,
            ..
        } => {
            let is_of_pool = goes_to(scene.sys, pars.items.len(), *p);
            if free > 0 && is_of_pool && !scene.is_static(*sig) {
                behind_new(scene, *p, *b, rest)
            } else {
                None
            }
        }
        _ => None,
    }
}

pub fn unit_first<'a>(scene: &Scene, now: Option<Entry>, told: &'a [Told]) -> Option<&'a [Told]>
    ensures { option_map (λ x. x.now) result ≡ behind_unit scene.now.sys.now scene.now.o now told.now }
{
    let (first, rest) = told.split_first()?;
    match &first.known {
        Known::Nothing => plain_first(scene, now, &first.body, rest),
        Known::Free { n } => given_first(scene, *n, &first.body, rest),
        Known::Member { .. } => match &first.body {
            Body::Same { .. } => Some(rest),
            _ => None,
        },
        _ => None,
    }
}

/// What stands behind the action that a list begins with, where it begins with one: a value said, a call that is no publication
/// and doesn't end in an assertion, or one flushed entry.
pub fn behind_unit<'a>(scene: &Scene, now: Option<Entry>, told: &'a [Told]) -> Option<&'a [Told]>
    ensures { IsUnambiguous (IsUnit scene.now.sys.now scene.now.o now) told.now (option_map (λ x. x.now) result) }
{
    unit_first(scene, now, told)
}
