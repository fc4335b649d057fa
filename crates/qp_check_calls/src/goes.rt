//! What is left of a call behind a part of it.

ghost use Rattle.std.specs.Prelude.{◌≡◌, ◌∷◌, List, length};
ghost use Rattle.std.specs.Option.{option_map};
ghost use Rattle.qp_model.specs.declared.bodies.Entry.{Entry};
ghost use Rattle.qp_check_calls.specs.CallStateNext.{again, flushes_on, fronted, goes_on, only, publishes_on, raises, released, restored};
ghost use Rattle.qp_check_calls.specs.CallState as rest;
ghost use Rattle.qp_check_calls.specs.AsCall.{as_answer};
ghost use Rattle.qp_check_calls.specs.AsStage.{as_behind, as_goal, as_stage};

use crate::call::Answer;
use crate::kept::Kept;
use crate::members::Members;
use crate::stage::{Behind, CallStage, Goal};
use qp_model::Entry;

/// This stage, where a test is passed.
pub(crate) fn only(passed: bool, stage: CallStage) -> Option<CallStage>
    ensures { option_map as_stage result ≡ only passed (as_stage stage) }
{
    if passed { Some(stage) } else { None }
}

/// The release of an entry that ends a call.
pub(crate) fn release(e: Entry, answer: Answer) -> CallStage
    ensures { as_stage result ≡ released e (rest.Whole (as_answer answer)) (rest.Ends (as_answer answer)) }
{
    if e.pool == 0 {
        CallStage::Whole(answer)
    } else {
        CallStage::Drops {
            e,
            behind: Behind::Ends(answer),
        }
    }
}

/// Another entry of an event; of a static one it needs no reference.
pub(crate) fn again(goal: Goal, e: Entry) -> CallStage
    ensures { as_stage result ≡ again (as_goal goal) e }
{
    if e.pool == 0 {
        CallStage::Puts { goal, e }
    } else {
        CallStage::Refers {
            p: e.pool,
            b: e.block,
            goal,
        }
    }
}

/// Behind a last-in post.
pub(crate) fn fronted(recalled: Option<Entry>) -> CallStage
    ensures { as_stage result ≡ fronted recalled }
{
    match recalled {
        Some(k) => release(k, Answer::Granted),
        None => CallStage::Whole(Answer::Granted),
    }
}

/// The end of a publication behind its posts.
fn restored(own: Entry, former: Option<u64>) -> CallStage
    ensures { as_stage result ≡ restored own former }
{
    match former {
        Some(former) => CallStage::Restores { own, former },
        None => release(own, Answer::Granted),
    }
}

/// The posts of a publication to a member and to the others.
pub(crate) fn post_to(own: Entry, former: Option<u64>, a: u8, others: Members) -> CallStage
    ensures { as_stage result ≡ publishes_on own former (a ∷ others) }
{
    let goal = Goal::ToQueue {
        to: a,
        margin: None,
        behind: Behind::PublishesOn {
            own,
            former,
            others,
        },
    };
    again(goal, own)
}

/// The posts of a publication that are left, and its end.
fn publishes_on(own: Entry, former: Option<u64>, mut members: Members) -> CallStage
    ensures { as_stage result ≡ publishes_on own former members }
{
    match members.next() {
        Some(a) => post_to(own, former, a, members),
        None => restored(own, former),
    }
}

/// A publication behind its `pub`.
pub(crate) fn raises(o: u8, own: Entry, mut members: Members) -> CallStage
    ensures { as_stage result ≡ raises o own members }
{
    match members.next() {
        None => restored(own, None),
        Some(a) => {
            if o == 0 {
                post_to(own, None, a, members)
            } else {
                CallStage::Raises {
                    own,
                    a,
                    others: members,
                }
            }
        }
    }
}

/// The flush of so many entries that are left.
pub(crate) fn flushes_on(total: u64, left: usize) -> CallStage
    ensures { (kept : List Entry) → length kept ≡ left → as_stage result ≡ flushes_on total kept }
{
    if left == 0 {
        CallStage::Whole(Answer::Flushed { n: total })
    } else {
        CallStage::Flushes { total }
    }
}

/// What is behind a part of a call.
pub(crate) fn goes_on(kept: &Kept, behind: Behind) -> CallStage
    ensures { as_stage result ≡ goes_on kept.now (as_behind behind) }
{
    match behind {
        Behind::Ends(answer) => CallStage::Whole(answer),
        Behind::FlushesOn { total } => flushes_on(total, kept.len()),
        Behind::PublishesOn {
            own,
            former,
            others,
        } => publishes_on(own, former, others),
    }
}
