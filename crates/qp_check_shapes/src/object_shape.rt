//! Whether an object's whole list of records has its shape.

ghost use Rattle.std.specs.Prelude.{◌≡◌, ◌==◌, ◌&&◌, length, IsTrue, Some, None};
ghost use Rattle.std.specs.Option.{option_map};
ghost use Rattle.qp_check_calls.specs.AsPiece.{as_cut};
ghost use Rattle.qp_check_calls.specs.Decides.{Decides};
ghost use Rattle.qp_model.specs.Shapes.{Drops};
ghost use Rattle.qp_model.specs.ObjectShape.{CutGroups, HasShape, nothing_after, asserts_last};
ghost use Rattle.qp_model.specs.Ends.{is_assert};
ghost use Rattle.qp_check_shapes.specs.ShapeAction.{IsWhole};
ghost use Rattle.qp_check_shapes.specs.GroupsLast.{LastOf, group_kinds, start_cut, is_anywhere, is_cut, is_unbegun};
ghost use Rattle.qp_check_shapes.specs.GroupsRead.{Breaks};
ghost use Rattle.qp_check_shapes.specs.ObjectRead.{GroupsThenDone, FrontOf, IsStepEnd, IsStartEnd, IsTailOf, IsObjectList};
ghost use Rattle.qp_check_shapes.specs.ObjectFirst.{behind_begin, is_spent_list, drop_front, release_first};

use crate::groups::{behind_done, behind_groups};
use crate::groups_end::breaks_off;
use crate::object_turns::{behind_head, behind_turns, taken_entry};
use crate::shape_action::is_done;
use crate::shape_release::behind_back;
use crate::shape_scene::Scene;
use qp_check_calls::{Cut, Known, Told};
use qp_model::{Body, Entry};

/// How a start may break off: it stops at no scheduling point.
fn start_cut(cut: Cut) -> Cut
    ensures { as_cut result ≡ start_cut (as_cut cut) }
{
    match cut {
        Cut::Whole | Cut::Stopped => Cut::Whole,
        Cut::Anywhere => Cut::Anywhere,
    }
}

/// Whether a start or a step may break off.
fn is_cut(cut: Cut) -> bool
    ensures { result ≡ is_cut (as_cut cut) }
{
    matches!(cut, Cut::Stopped | Cut::Anywhere)
}

fn is_anywhere(cut: Cut) -> bool
    ensures { result ≡ is_anywhere (as_cut cut) }
{
    match cut {
        Cut::Whole | Cut::Stopped => false,
        Cut::Anywhere => true,
    }
}

/// Whether a record drops the reference of an entry, and all that is behind it belongs to this.
fn drop_front(e: Entry, first: &Told, rest: &[Told]) -> bool
    ensures { result ≡ drop_front e first.now.body first.now.known rest.now }
{
    match (&first.body, &first.known) {
        (Body::Dec { p, b, d, k }, Known::Left { n }) => {
            let is_of_entry = *p == e.pool && *b == e.block && *k == e.name;
            let is_back = is_done(behind_back(*p, *b, *d, rest));
            is_of_entry && (rest.is_empty() || *n == 0 && is_back)
        }
        _ => false,
    }
}

/// Whether a list is a front of the release of an entry.
fn release_front(e: Entry, told: &[Told]) -> bool
    ensures { result ≡ release_first e told.now }
{
    match told.split_first() {
        Some((first, rest)) => e.pool > 0 && drop_front(e, first, rest),
        None => true,
    }
}

fn is_release_front(e: Entry, told: &[Told]) -> bool
    ensures { Decides result (FrontOf (Drops e) told.now) }
{
    release_front(e, told)
}

/// Whether a step ends in a front of its entry's release.
fn ends_in_release(scene: &Scene, e: Entry, told: &[Told]) -> bool
    ensures { Decides result (GroupsThenDone (IsWhole scene.now.sys.now scene.now.o (Some e)) (FrontOf (Drops e)) told.now) }
{
    match behind_done(behind_groups(scene, Some(e), told)) {
        Some(rest) => is_release_front(e, rest),
        None => false,
    }
}

/// Whether these may stand behind the first two records of a step that isn't whole.
fn ends_step(scene: &Scene, e: Entry, cut: Cut, told: &[Told]) -> bool
    ensures { Decides result (IsStepEnd (group_kinds scene.now.sys.now scene.now.o (as_cut cut)) e told.now) }
{
    if !is_cut(cut) {
        return false;
    }
    if breaks_off(scene, Some(e), cut, told) {
        return true;
    }
    if is_anywhere(cut) {
        ends_in_release(scene, e, told)
    } else {
        false
    }
}

/// Whether these are nothing, or `spent` alone.
fn is_spent(told: &[Told]) -> bool
    ensures { result ≡ is_spent_list told.now }
{
    match told.split_first() {
        Some((first, rest)) => match (&first.body, &first.known) {
            (Body::Spent, Known::Nothing) => rest.is_empty(),
            _ => false,
        },
        None => true,
    }
}

/// Whether these are the first record of a step alone, where the list may be cut there.
fn is_taken_only(cut: Cut, told: &[Told]) -> bool
    ensures { result ≡ (is_anywhere (as_cut cut) && (length told.now == 1)) }
{
    is_anywhere(cut) && told.len() == 1
}

/// Whether these may stand behind whole turns.
fn is_tail(scene: &Scene, cut: Cut, told: &[Told]) -> bool
    ensures { Decides result (IsTailOf (group_kinds scene.now.sys.now scene.now.o (as_cut cut)) told.now) }
{
    match taken_entry(told) {
        Some(e) => match behind_head(told) {
            Some(body) => ends_step(scene, e, cut, body),
            None => is_taken_only(cut, told),
        },
        None => is_spent(told),
    }
}

/// What stands behind `begin`.
fn behind_begin<'a>(told: &'a [Told]) -> Option<&'a [Told]>
    ensures { option_map (λ x. x.now) result ≡ behind_begin told.now }
{
    let (first, rest) = told.split_first()?;
    match (&first.body, &first.known) {
        (Body::Begin, Known::Nothing) => Some(rest),
        _ => None,
    }
}

/// Whether these are groups of a start that breaks off, where it may.
fn breaks_start(scene: &Scene, cut: Cut, told: &[Told]) -> bool
    ensures { Decides result (IsTrue (is_cut (as_cut cut)) × Breaks (IsWhole scene.now.sys.now scene.now.o None)
        (LastOf scene.now.sys.now scene.now.o (start_cut (as_cut cut)) None) told.now) }
{
    if is_cut(cut) {
        breaks_off(scene, None, start_cut(cut), told)
    } else {
        false
    }
}

/// Whether these may stand behind a start's `begin`.
fn ends_start(scene: &Scene, nils: bool, cut: Cut, told: &[Told]) -> bool
    ensures { Decides result (IsStartEnd (group_kinds scene.now.sys.now scene.now.o (as_cut cut)) nils told.now) }
{
    match behind_done(behind_groups(scene, None, told)) {
        Some(rest) => is_tail(scene, cut, behind_turns(scene, nils, rest)),
        None => breaks_start(scene, cut, told),
    }
}

/// Whether these are none, where an object needn't have begun.
fn is_unbegun(cut: Cut, told: &[Told]) -> bool
    ensures { result ≡ is_unbegun (as_cut cut) told.now }
{
    match cut {
        Cut::Whole => false,
        Cut::Stopped | Cut::Anywhere => told.is_empty(),
    }
}

fn has_groups(scene: &Scene, nils: bool, cut: Cut, told: &[Told]) -> bool
    ensures { Decides result (CutGroups scene.now.sys.now scene.now.o nils (as_cut cut) told.now) }
{
    match behind_begin(told) {
        Some(rest) => ends_start(scene, nils, cut, rest),
        None => is_unbegun(cut, told),
    }
}

/// Whether a record is one of an assertion.
fn is_assert(t: &Told) -> bool
    ensures { result ≡ is_assert t.now.body }
{
    match &t.body {
        Body::NoEntry { .. }
        | Body::NoBlock { .. }
        | Body::Armed { .. }
        | Body::BadTicks { .. }
        | Body::NoLifo { .. } => true,
        _ => false,
    }
}

fn nothing_after(asserted: bool, rest: &[Told]) -> bool
    ensures { result ≡ nothing_after asserted rest.now }
{
    !asserted || rest.is_empty()
}

/// Whether nothing follows an assertion.
fn asserts_last(told: &[Told]) -> bool
    ensures { result ≡ asserts_last told.now }
{
    let mut left = told;
    loop {
        match left.split_first() {
            Some((first, rest)) => {
                if nothing_after(is_assert(first), rest) {
                    left = rest;
                } else {
                    return false;
                }
            }
            None => return true,
        }
    }
}

/// Whether an object's records have its shape, where the list may end by this cut; `nils` tells whether its looks at its queue
/// are recorded among them.
pub fn has_shape(scene: &Scene, nils: bool, cut: Cut, told: &[Told]) -> bool
    ensures { Decides result (HasShape scene.now.sys.now scene.now.o nils (as_cut cut) told.now) }
{
    if asserts_last(told) {
        has_groups(scene, nils, cut, told)
    } else {
        false
    }
}
