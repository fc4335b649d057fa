//! Releases of entries at the front of an object's records.

ghost use Rattle.std.specs.Prelude.{◌≡◌};
ghost use Rattle.std.specs.Option.{option_map};
ghost use Rattle.qp_check_shapes.specs.ShapeRelease.{behind_back, behind_drop, behind_release};

use qp_check_calls::{Known, Told};
use qp_model::{Body, Entry};

/// What stands behind the `back` of a block whose last reference operation `d` dropped.
pub fn behind_back<'a>(p: u64, b: u64, d: u64, told: &'a [Told]) -> Option<&'a [Told]>
    ensures { option_map (λ x. x.now) result ≡ behind_back p b d told.now }
{
    let (first, rest) = told.split_first()?;
    match (&first.body, &first.known) {
        (Body::Back { p: q, b: c, to, .. }, Known::Nothing) => {
            let is_of_block = *q == p && *c == b;
            if is_of_block && u128::from(*to) == u128::from(d) + 1 {
                Some(rest)
            } else {
                None
            }
        }
        _ => None,
    }
}

/// What stands behind the operation that drops the reference of an entry, with the block's return where no reference is left.
fn behind_drop<'a>(e: Entry, told: &'a [Told]) -> Option<&'a [Told]>
    ensures { option_map (λ x. x.now) result ≡ behind_drop e told.now }
{
    let (first, rest) = told.split_first()?;
    match (&first.body, &first.known) {
        (Body::Dec { p, b, d, k }, Known::Left { n }) => {
            if *p != e.pool || *b != e.block || *k != e.name {
                None
            } else if *n == 0 {
                behind_back(*p, *b, *d, rest)
            } else {
                Some(rest)
            }
        }
        _ => None,
    }
}

/// What stands behind the release of an entry, if a list begins with it.
#[tactic(auto, unfolding(crate::specs::ShapeRelease::behind_release))]
pub fn behind_release<'a>(e: Entry, told: &'a [Told]) -> Option<&'a [Told]>
    ensures { option_map (λ x. x.now) result ≡ behind_release e told.now }
{
    if e.pool == 0 {
        Some(told)
    } else {
        behind_drop(e, told)
    }
}
