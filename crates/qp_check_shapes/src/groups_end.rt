//! Groups that break off: at a call that ends in its assertion, at a scheduling point, or anywhere.

ghost use Rattle.qp_check_calls.specs.AsPiece.{as_cut};
ghost use Rattle.qp_check_calls.specs.Decides.{Decides};
ghost use Rattle.qp_check_shapes.specs.ShapeAction.{IsWhole};
ghost use Rattle.qp_check_shapes.specs.GroupsRead.{Breaks, IsEnd, IsUnderCeiling};
ghost use Rattle.qp_check_shapes.specs.GroupsLast.{LastOf};
ghost use Rattle.qp_model.specs.Groups.{IsLast};
ghost use Rattle.std.specs.Prelude.{true};

use crate::groups::{behind_actions, behind_groups, former_of};
use crate::shape_action::{asserts, stops_in_publication};
use crate::shape_front::is_front;
use crate::shape_scene::Scene;
use qp_check_calls::{Cut, Told};
use qp_model::Entry;

/// Whether these are the records of a call that ends in its assertion, or none, or those of a publication up to one of its posts.
fn stops(scene: &Scene, now: Option<Entry>, told: &[Told]) -> bool
    ensures { Decides result (IsLast scene.now.sys.now scene.now.o now true told.now) }
{
    if told.is_empty() {
        return true;
    }
    if stops_in_publication(scene, told) {
        return true;
    }
    asserts(scene, now, told)
}

/// Whether these may stand last behind whole actions.
fn is_last(scene: &Scene, now: Option<Entry>, cut: Cut, told: &[Told]) -> bool
    ensures { Decides result (LastOf scene.now.sys.now scene.now.o (as_cut cut) now told.now) }
{
    match cut {
        Cut::Whole => asserts(scene, now, told),
        Cut::Stopped => stops(scene, now, told),
        Cut::Anywhere => {
            if told.is_empty() {
                return true;
            }
            is_front(scene, now, told)
        }
    }
}

/// Whether these are actions under a raised ceiling that isn't restored, and then what may stand last.
fn is_under_ceiling(scene: &Scene, now: Option<Entry>, cut: Cut, told: &[Told]) -> bool
    ensures { Decides result (IsUnderCeiling (IsWhole scene.now.sys.now scene.now.o now)
        (LastOf scene.now.sys.now scene.now.o (as_cut cut) now) told.now) }
{
    match told.split_first() {
        Some((first, rest)) => match former_of(first) {
            Some(_) => is_last(scene, now, cut, behind_actions(scene, now, rest)),
            None => false,
        },
        None => false,
    }
}

/// Whether these may stand last behind whole groups.
fn is_end(scene: &Scene, now: Option<Entry>, cut: Cut, told: &[Told]) -> bool
    ensures { Decides result (IsEnd (IsWhole scene.now.sys.now scene.now.o now)
        (LastOf scene.now.sys.now scene.now.o (as_cut cut) now) told.now) }
{
    if is_last(scene, now, cut, told) {
        return true;
    }
    is_under_ceiling(scene, now, cut, told)
}

/// Whether these are groups that break off, perhaps under a raised ceiling.
pub fn breaks_off(scene: &Scene, now: Option<Entry>, cut: Cut, told: &[Told]) -> bool
    ensures { Decides result (Breaks (IsWhole scene.now.sys.now scene.now.o now)
        (LastOf scene.now.sys.now scene.now.o (as_cut cut) now) told.now) }
{
    is_end(scene, now, cut, behind_groups(scene, now, told))
}
