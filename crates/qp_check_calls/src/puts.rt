//! References, and where entries are put.

ghost use Rattle.std.specs.Prelude.{◌≡◌};
ghost use Rattle.std.specs.Option.{option_map};
ghost use Rattle.qp_model.specs.Record.{entry};
ghost use Rattle.qp_model.specs.Parts.{members};
ghost use Rattle.qp_check_calls.specs.CallStateNext.{deferred_next, front_next, put_next, queue_next, raises, refer_next, set_next};
ghost use Rattle.qp_check_calls.specs.AsStage.{as_behind, as_goal, as_stage};

use crate::call::Answer;
use crate::goes::{fronted, goes_on, only, raises, release};
use crate::kept::Kept;
use crate::lookups::{had_free, is_of};
use crate::members::Members;
use crate::stage::{Behind, CallStage, Goal};
use crate::told::{Known, Told};
use qp_model::{Body, Entry, System};

/// An entry by its pool, its block and its reference.
fn entry(pool: u64, block: u64, name: u64) -> Entry
    ensures { result ≡ entry pool block name }
{
    Entry { pool, block, name }
}

/// Behind a reference of a block.
pub(crate) fn refer_next(p: u64, b: u64, goal: Goal, told: &Told) -> Option<CallStage>
    ensures { option_map as_stage result ≡ refer_next p b (as_goal goal) told.now.body told.now.known }
{
    match (&told.body, &told.known) {
        (Body::Inc { p: q, b: c, r }, Known::Nothing) => {
            let e = entry(p, b, *r);
            only(*q == p && *c == b, CallStage::Puts { goal, e })
        }
        _ => None,
    }
}

/// Behind a post, a refusal, or assertion 1.
#[tactic(auto, unfolding(crate::specs::CallStateNext::queue_next))]
fn queue_next(
    kept: &Kept,
    ring: u8,
    to: u8,
    margin: Option<u8>,
    behind: Behind,
    e: Entry,
    told: &Told,
) -> Option<CallStage>
    ensures { option_map as_stage result ≡ queue_next kept.now ring to margin (as_behind behind) e told.now.body told.now.known }
{
    match (&told.body, &told.known) {
        (Body::Post { a, f, l, m, entry }, Known::Nothing) => {
            let is_free = had_free(ring, margin.unwrap_or(0), *f, *l, *m);
            only(
                *a == u64::from(to) && entry.is_same(e) && is_free,
                goes_on(kept, behind),
            )
        }
        (Body::Full { a, margin: k, .. }, Known::Nothing) => only(
            *a == u64::from(to) && is_of(margin, *k),
            release(e, Answer::Refused),
        ),
        (Body::NoEntry { a, .. }, Known::Nothing) => only(
            *a == u64::from(to) && margin.is_none(),
            CallStage::Whole(Answer::AtQueue),
        ),
        _ => None,
    }
}

/// Behind a last-in post, or assertion 5.
fn front_next(o: u8, recalled: Option<Entry>, e: Entry, told: &Told) -> Option<CallStage>
    ensures { option_map as_stage result ≡ front_next o recalled e told.now.body told.now.known }
{
    match (&told.body, &told.known) {
        (Body::Lifo { entry, .. }, Known::Nothing) => only(entry.is_same(e), fronted(recalled)),
        (Body::NoLifo { a, .. }, Known::Nothing) => only(
            *a == u64::from(o),
            CallStage::Whole(Answer::AtFront),
        ),
        _ => None,
    }
}

fn deferred_next(e: Entry, told: &Told) -> Option<CallStage>
    ensures { option_map as_stage result ≡ deferred_next e told.now.body told.now.known }
{
    match (&told.body, &told.known) {
        (Body::Defer { entry }, Known::Nothing) => only(
            entry.is_same(e),
            CallStage::Whole(Answer::Granted),
        ),
        _ => None,
    }
}

/// A publication to a set of subscribers.
fn publishes_to(o: u8, e: Entry, set: u64) -> CallStage
    ensures { as_stage result ≡ raises o e (members set) }
{
    raises(o, e, Members::of(set))
}

/// Behind the set of subscribers of a publication.
#[tactic(auto, unfolding(crate::specs::CallStateNext::set_next))]
fn set_next(o: u8, sig: u16, e: Entry, told: &Told) -> Option<CallStage>
    ensures { option_map as_stage result ≡ set_next o sig e told.now.body told.now.known }
{
    match (&told.body, &told.known) {
        (Body::Pub { sig: s, set, .. }, Known::Nothing) => only(
            *s == u64::from(sig),
            publishes_to(o, e, *set),
        ),
        _ => None,
    }
}

/// Behind the record that puts an entry where the goal says.
#[tactic(auto, unfolding(crate::specs::CallStateNext::put_next))]
pub(crate) fn put_next(
    sys: &System,
    o: u8,
    kept: &Kept,
    goal: Goal,
    e: Entry,
    told: &Told,
) -> Option<CallStage>
    ensures { option_map as_stage result ≡ put_next sys.now o kept.now (as_goal goal) e told.now.body told.now.known }
{
    match goal {
        Goal::ToQueue { to, margin, behind } => {
            queue_next(
                kept,
                sys.ring_of(u64::from(to)),
                to,
                margin,
                behind,
                e,
                told,
            )
        }
        Goal::ToFront { recalled } => front_next(o, recalled, e, told),
        Goal::ToDeferred => deferred_next(e, told),
        Goal::ToSet { sig } => set_next(o, sig, e, told),
    }
}
