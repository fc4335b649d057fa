//! An object's turns: steps, and queues found empty or looked at in the place of a take.

ghost use Rattle.std.specs.Prelude.{◌≡◌, None};
ghost use Rattle.std.specs.Option.{option_map};
ghost use Rattle.qp_model.specs.Shapes.{Drops};
ghost use Rattle.qp_check_shapes.specs.ShapeRelease.{IsUnambiguous};
ghost use Rattle.qp_check_shapes.specs.ShapeAction.{IsWhole};
ghost use Rattle.qp_check_shapes.specs.GroupsRead.{ReadsAll};
ghost use Rattle.qp_check_shapes.specs.ObjectRead.{GroupsThenDone, IsTurnOf, looks_at_queue};
ghost use Rattle.qp_check_shapes.specs.ObjectFirst.{taken_first, entry_taken_first, tells_head, behind_second, behind_head, behind_look};

use crate::groups::{behind_done, behind_groups};
use crate::shape_release::behind_release;
use crate::shape_scene::Scene;
use crate::shape_unit::when;
use qp_check_calls::{Known, Told};
use qp_model::{Body, Entry};

/// The entry that a step takes, where a list begins with one.
pub fn taken_entry(told: &[Told]) -> Option<Entry>
    ensures { result ≡ entry_taken_first told.now }
{
    let first = told.first()?;
    match &first.body {
        Body::Took { entry, .. } => Some(*entry),
        _ => None,
    }
}

/// Whether a record tells which row handles the event, or that none does.
fn tells_head(t: &Told) -> bool
    ensures { result ≡ tells_head t.now.body t.now.known }
{
    match (&t.body, &t.known) {
        (Body::Run { .. } | Body::Unhandled, Known::Nothing) => true,
        _ => false,
    }
}

fn behind_second<'a>(told: &'a [Told]) -> Option<&'a [Told]>
    ensures { option_map (λ x. x.now) result ≡ behind_second told.now }
{
    let (first, rest) = told.split_first()?;
    when(tells_head(first), rest)
}

/// What stands behind the first two records of a step.
pub fn behind_head<'a>(told: &'a [Told]) -> Option<&'a [Told]>
    ensures { option_map (λ x. x.now) result ≡ behind_head told.now }
{
    let (_, rest) = told.split_first()?;
    behind_second(rest)
}

/// Whether a record is a look at a queue, whether or not that was found empty.
fn looks_at_queue(body: &Body) -> bool
    ensures { result ≡ looks_at_queue body.now }
{
    matches!(body, Body::Nil { .. } | Body::Seen { .. })
}

/// What stands behind such a look, where looks are recorded.
fn behind_look<'a>(nils: bool, told: &'a [Told]) -> Option<&'a [Told]>
    ensures { option_map (λ x. x.now) result ≡ behind_look nils told.now }
{
    let (first, rest) = told.split_first()?;
    match &first.known {
        Known::Nothing => when(looks_at_queue(&first.body) && nils, rest),
        _ => None,
    }
}

/// What stands behind the groups of a step, its `done`, and the release of the entry that it took.
fn behind_body<'a>(scene: &Scene, e: Entry, told: &'a [Told]) -> Option<&'a [Told]>
    ensures { IsUnambiguous (GroupsThenDone (IsWhole scene.now.sys.now scene.now.o (Some e)) (Drops e)) told.now (option_map (λ x. x.now) result) }
{
    match behind_done(behind_groups(scene, Some(e), told)) {
        Some(rest) => behind_release(e, rest),
        None => None,
    }
}

/// What stands behind the turn that a list begins with, where it begins with one.
fn behind_turn<'a>(scene: &Scene, nils: bool, told: &'a [Told]) -> Option<&'a [Told]>
    ensures { IsUnambiguous (IsTurnOf (IsWhole scene.now.sys.now scene.now.o) Drops nils) told.now (option_map (λ x. x.now) result) }
{
    match taken_entry(told) {
        Some(e) => match behind_head(told) {
            Some(body) => behind_body(scene, e, body),
            None => None,
        },
        None => behind_look(nils, told),
    }
}

/// What is left behind all the turns in front.
pub fn behind_turns<'a>(scene: &Scene, nils: bool, told: &'a [Told]) -> &'a [Told]
    ensures { ReadsAll (IsTurnOf (IsWhole scene.now.sys.now scene.now.o) Drops nils) told.now result.now }
{
    let mut left = told;
    loop {
        match behind_turn(scene, nils, left) {
            Some(rest) => left = rest,
            None => return left,
        }
    }
}
