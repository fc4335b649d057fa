//! Groups at the front of an object's records: notes, actions, and actions under a raised ceiling.

ghost use Rattle.std.specs.Prelude.{◌≡◌};
ghost use Rattle.std.specs.Option.{option_map};
ghost use Rattle.qp_check_shapes.specs.ShapeRelease.{IsUnambiguous};
ghost use Rattle.qp_check_shapes.specs.ShapeAction.{IsWhole};
ghost use Rattle.qp_check_shapes.specs.GroupsRead.{ReadsAll, IsElement};
ghost use Rattle.qp_check_shapes.specs.GroupsFirst.{is_told_move, former_of, behind_unlock, behind_done};

use crate::shape_action::behind_action;
use crate::shape_scene::Scene;
use crate::shape_unit::when;
use qp_check_calls::{Known, Told};
use qp_model::{Body, Entry};

/// Whether a record is an exit, an entry, or an initial transition.
fn is_told_move(t: &Told) -> bool
    ensures { result ≡ is_told_move t.now.body t.now.known }
{
    match (&t.body, &t.known) {
        (Body::Exit { .. } | Body::Enter { .. } | Body::Init { .. }, Known::Nothing) => true,
        _ => false,
    }
}

/// The ceiling before a record that raises it.
pub fn former_of(t: &Told) -> Option<u64>
    ensures { result ≡ former_of t.now.body t.now.known }
{
    match (&t.body, &t.known) {
        (Body::Lock { ceiling }, Known::Former { ceiling: former }) => {
            if *former <= *ceiling {
                Some(*former)
            } else {
                None
            }
        }
        _ => None,
    }
}

/// What stands behind a record that restores this ceiling.
fn behind_unlock<'a>(former: u64, told: &'a [Told]) -> Option<&'a [Told]>
    ensures { option_map (λ x. x.now) result ≡ behind_unlock former told.now }
{
    let (first, rest) = told.split_first()?;
    match (&first.body, &first.known) {
        (Body::Unlock { ceiling }, Known::Nothing) => when(*ceiling == former, rest),
        _ => None,
    }
}

/// What stands behind a `done`.
pub fn behind_done<'a>(told: &'a [Told]) -> Option<&'a [Told]>
    ensures { option_map (λ x. x.now) result ≡ behind_done told.now }
{
    let (first, rest) = told.split_first()?;
    match (&first.body, &first.known) {
        (Body::Done, Known::Nothing) => Some(rest),
        _ => None,
    }
}

/// What is left behind all the actions in front.
pub fn behind_actions<'a>(scene: &Scene, now: Option<Entry>, told: &'a [Told]) -> &'a [Told]
    ensures { ReadsAll (IsWhole scene.now.sys.now scene.now.o now) told.now result.now }
{
    let mut left = told;
    loop {
        match behind_action(scene, now, left) {
            Some(rest) => left = rest,
            None => return left,
        }
    }
}

/// What stands behind the group that a list begins with, where it begins with one.
pub fn behind_group<'a>(scene: &Scene, now: Option<Entry>, told: &'a [Told]) -> Option<&'a [Told]>
    ensures { IsUnambiguous (IsElement (IsWhole scene.now.sys.now scene.now.o now)) told.now (option_map (λ x. x.now) result) }
{
    match told.split_first() {
        Some((first, rest)) => {
            if is_told_move(first) {
                return Some(rest);
            }
            match former_of(first) {
                Some(former) => behind_unlock(former, behind_actions(scene, now, rest)),
                None => behind_action(scene, now, told),
            }
        }
        None => None,
    }
}

/// What is left behind all the groups in front.
pub fn behind_groups<'a>(scene: &Scene, now: Option<Entry>, told: &'a [Told]) -> &'a [Told]
    ensures { ReadsAll (IsElement (IsWhole scene.now.sys.now scene.now.o now)) told.now result.now }
{
    let mut left = told;
    loop {
        match behind_group(scene, now, left) {
            Some(rest) => left = rest,
            None => return left,
        }
    }
}
