//! Ceilings of publications, releases, and flushes.

ghost use Rattle.std.specs.Prelude.{◌≡◌, List, length};
ghost use Rattle.qp_model.specs.declared.bodies.Entry.{Entry};
ghost use Rattle.qp_check_calls.specs.CallState as rest;
ghost use Rattle.std.specs.Option.{option_map};
ghost use Rattle.qp_check_calls.specs.CallStateNext.{drop_next, flush_next, flushes_on, left_over, raise_next, released, restore_next, return_next};
ghost use Rattle.qp_check_calls.specs.AsStage.{as_behind, as_stage};

use crate::call::Answer;
use crate::goes::{flushes_on, goes_on, only, post_to, release};
use crate::kept::Kept;
use crate::members::Members;
use crate::stage::{Behind, CallStage};
use crate::told::{Known, Told};
use qp_model::{Body, Entry};

/// Behind the ceiling raised before the posts to these members.
pub(crate) fn raise_next(own: Entry, a: u8, others: Members, told: &Told) -> Option<CallStage>
    ensures { option_map as_stage result ≡ raise_next own a others told.now.body told.now.known }
{
    match (&told.body, &told.known) {
        (Body::Lock { ceiling }, Known::Former { ceiling: former }) => {
            let highest = (*former).max(u64::from(a));
            only(*ceiling == highest, post_to(own, Some(*former), a, others))
        }
        _ => None,
    }
}

/// Behind the ceiling restored.
pub(crate) fn restore_next(own: Entry, former: u64, told: &Told) -> Option<CallStage>
    ensures { option_map as_stage result ≡ restore_next own former told.now.body told.now.known }
{
    match (&told.body, &told.known) {
        (Body::Unlock { ceiling }, Known::Nothing) => only(
            *ceiling == former,
            release(own, Answer::Granted),
        ),
        _ => None,
    }
}

/// Behind a reference dropped by operation `d`: the block comes back exactly where none is left.
fn left_over(kept: &Kept, e: Entry, d: u64, behind: Behind, left: u64) -> CallStage
    ensures { as_stage result ≡ left_over kept.now e d (as_behind behind) left }
{
    if left == 0 {
        CallStage::Returns {
            p: e.pool,
            b: e.block,
            d,
            behind,
        }
    } else {
        goes_on(kept, behind)
    }
}

/// Behind a reference dropped.
pub(crate) fn drop_next(kept: &Kept, e: Entry, behind: Behind, told: &Told) -> Option<CallStage>
    ensures { option_map as_stage result ≡ drop_next kept.now e (as_behind behind) told.now.body told.now.known }
{
    match (&told.body, &told.known) {
        (Body::Dec { p, b, d, k }, Known::Left { n }) => only(
            *p == e.pool && *b == e.block && *k == e.name,
            left_over(kept, e, *d, behind, *n),
        ),
        _ => None,
    }
}

/// Behind a block that comes back.
pub(crate) fn return_next(
    kept: &Kept,
    p: u64,
    b: u64,
    d: u64,
    behind: Behind,
    told: &Told,
) -> Option<CallStage>
    ensures { option_map as_stage result ≡ return_next kept.now p b d (as_behind behind) told.now.body told.now.known }
{
    match (&told.body, &told.known) {
        (Body::Back { p: q, b: c, to, .. }, Known::Nothing) => {
            let is_next = u128::from(*to) == u128::from(d) + 1;
            only(*q == p && *c == b && is_next, goes_on(kept, behind))
        }
        _ => None,
    }
}

/// Behind the flush of an entry, with so many left: its release, or what is behind it.
fn flushed(total: u64, k: Entry, left: usize) -> CallStage
    ensures { (others : List Entry) → length others ≡ left → as_stage result ≡ released k (flushes_on total others) (rest.FlushesOn total) }
{
    if k.pool == 0 {
        flushes_on(total, left)
    } else {
        CallStage::Drops {
            e: k,
            behind: Behind::FlushesOn { total },
        }
    }
}

/// Behind the flush of the oldest entry.
pub(crate) fn flush_next(kept: &Kept, total: u64, told: &Told) -> Option<CallStage>
    ensures { option_map as_stage result ≡ flush_next kept.now total told.now.body told.now.known }
{
    let k = kept.oldest()?;
    match (&told.body, &told.known) {
        (Body::Flush { entry }, Known::Nothing) => only(
            k.is_same(*entry),
            flushed(total, k, kept.len() - 1),
        ),
        _ => None,
    }
}
