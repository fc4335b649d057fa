//! The first records of calls.

ghost use Rattle.std.specs.Prelude.{◌≡◌, nat_lt, length};
ghost use Rattle.std.specs.Option.{option_map};
ghost use Rattle.qp_model.specs.Parts.{is_static, sizes_of};
ghost use Rattle.qp_check_calls.specs.CallStateNext.{begin_next, block_next, defer_next, event_next, full_next, new_next, none_next, now_next, recall_next, recalled_next};
ghost use Rattle.qp_model.specs.Calls as calls;
ghost use Rattle.qp_check_calls.specs.CallState as rest;
ghost use Rattle.qp_check_calls.specs.AsCall.{as_call};
ghost use Rattle.qp_check_calls.specs.AsStage.{as_goal, as_stage};

use crate::call::{Answer, Call};
use crate::goes::{again, only};
use crate::kept::Kept;
use crate::lookups::{is_first_pool, is_of, is_same_list, timer_number};
use crate::puts::{put_next, refer_next};
use crate::singles::{arm_next, disarm_next, rearm_next, subscribe_next, unsubscribe_next};
use crate::stage::{Behind, CallStage, Goal};
use crate::told::{Known, Told};
use qp_model::{Body, Entry, Params, System};

/// Behind a block given out for an event, or a refusal for want of blocks.
#[tactic(auto, unfolding(crate::specs::CallStateNext::block_next))]
fn block_next(
    sys: &System,
    sig: u16,
    pars: &Params,
    reserve: Option<u8>,
    goal: Goal,
    told: &Told,
) -> Option<CallStage>
    ensures { option_map as_stage result ≡ block_next (sizes_of sys.now) sig pars.now reserve (as_goal goal) told.now.body told.now.known }
{
    let count = pars.items.len();
    match (&told.body, &told.known) {
        (
            Body::New {
                p,
                b,
                sig: s,
                pars: stated,
                ..
            },
            Known::Free { n },
        ) => {
            let is_event = *s == u64::from(sig) && is_same_list(&stated.items, &pars.items);
            let is_free = u64::from(reserve.unwrap_or(0)) < *n;
            let stage = CallStage::Refers { p: *p, b: *b, goal };
            only(is_first_pool(sys, count, *p) && is_event && is_free, stage)
        }
        (Body::NoBlock { p, .. }, Known::Nothing) => only(
            is_first_pool(sys, count, *p) && reserve.is_none(),
            CallStage::Whole(Answer::AtPool),
        ),
        (Body::Short { p, reserve: r, .. }, Known::Nothing) => only(
            is_first_pool(sys, count, *p) && is_of(reserve, *r),
            CallStage::Whole(Answer::Refused),
        ),
        _ => None,
    }
}

/// Behind the first record of a new event, static or not.
#[tactic(auto, unfolding(crate::specs::CallStateNext::new_next))]
fn new_next(
    sys: &System,
    o: u8,
    kept: &Kept,
    sig: u16,
    pars: &Params,
    reserve: Option<u8>,
    goal: Goal,
    told: &Told,
) -> Option<CallStage>
    ensures { option_map as_stage result ≡ new_next (is_static sys.now sig) sys.now o kept.now sig pars.now reserve (as_goal goal)
        told.now.body told.now.known }
{
    if sys.is_static(u64::from(sig)) {
        let e = Entry {
            pool: 0,
            block: u64::from(sig),
            name: 0,
        };
        put_next(sys, o, kept, goal, e, told)
    } else {
        block_next(sys, sig, pars, reserve, goal, told)
    }
}

/// Behind the first record of another entry of an event.
#[tactic(auto, unfolding(crate::specs::CallStateNext::event_next))]
fn event_next(
    sys: &System,
    o: u8,
    kept: &Kept,
    goal: Goal,
    e: Entry,
    told: &Told,
) -> Option<CallStage>
    ensures { option_map as_stage result ≡ event_next e.pool sys.now o kept.now (as_goal goal) e told.now.body told.now.known }
{
    if e.pool == 0 {
        put_next(sys, o, kept, goal, e, told)
    } else {
        refer_next(e.pool, e.block, goal, told)
    }
}

/// The same of the entry that a step works on.
#[tactic(auto, unfolding(crate::specs::CallStateNext::now_next))]
fn now_next(
    sys: &System,
    o: u8,
    now: Option<Entry>,
    kept: &Kept,
    goal: Goal,
    told: &Told,
) -> Option<CallStage>
    ensures { option_map as_stage result ≡ now_next sys.now o now kept.now (as_goal goal) told.now.body told.now.known }
{
    match now {
        Some(e) => event_next(sys, o, kept, goal, e, told),
        None => None,
    }
}

fn full_next(told: &Told) -> Option<CallStage>
    ensures { option_map as_stage result ≡ full_next told.now.body told.now.known }
{
    match (&told.body, &told.known) {
        (Body::NoDefer, Known::Nothing) => Some(CallStage::Whole(Answer::Refused)),
        _ => None,
    }
}

/// Behind the first record of a deferral.
#[tactic(auto, unfolding(crate::specs::CallStateNext::defer_next))]
fn defer_next(
    sys: &System,
    o: u8,
    now: Option<Entry>,
    kept: &Kept,
    room: u8,
    told: &Told,
) -> Option<CallStage>
    ensures { option_map as_stage result ≡ defer_next (nat_lt (length kept.now) room) sys.now o now kept.now told.now.body told.now.known }
{
    if kept.len() < usize::from(room) {
        now_next(sys, o, now, kept, Goal::ToDeferred, told)
    } else {
        full_next(told)
    }
}

fn none_next(told: &Told) -> Option<CallStage>
    ensures { option_map as_stage result ≡ none_next told.now.body told.now.known }
{
    match (&told.body, &told.known) {
        (Body::NoRecall, Known::Nothing) => Some(CallStage::Whole(Answer::Refused)),
        _ => None,
    }
}

fn recalled_next(k: Entry, told: &Told) -> Option<CallStage>
    ensures { option_map as_stage result ≡ recalled_next k told.now.body told.now.known }
{
    match (&told.body, &told.known) {
        (Body::Recall { entry }, Known::Nothing) => {
            let goal = Goal::ToFront { recalled: Some(k) };
            only(k.is_same(*entry), again(goal, k))
        }
        _ => None,
    }
}

/// Behind the first record of a recall.
fn recall_next(kept: &Kept, told: &Told) -> Option<CallStage>
    ensures { option_map as_stage result ≡ recall_next kept.now told.now.body told.now.known }
{
    match kept.oldest() {
        Some(k) => recalled_next(k, told),
        None => none_next(told),
    }
}

/// Behind the first record of a call.
#[tactic(auto, unfolding(crate::specs::CallStateNext::begin_next))]
pub(crate) fn begin_next(
    sys: &System,
    o: u8,
    now: Option<Entry>,
    kept: &Kept,
    room: u8,
    call: &Call,
    told: &Told,
) -> Option<CallStage>
    ensures { option_map as_stage result ≡ begin_next sys.now o now kept.now room (as_call call.now) told.now.body told.now.known }
{
    match call {
        Call::Post {
            to,
            sig,
            pars,
            margin,
            reserve,
        } => {
            let goal = to_queue(*to, *margin);
            new_next(sys, o, kept, *sig, pars, *reserve, goal, told)
        }
        Call::Lifo { sig, pars, reserve } => {
            let goal = Goal::ToFront { recalled: None };
            new_next(sys, o, kept, *sig, pars, *reserve, goal, told)
        }
        Call::Forward { to, margin } => now_next(sys, o, now, kept, to_queue(*to, *margin), told),
        Call::Publish { sig, pars, reserve } => {
            let goal = Goal::ToSet { sig: *sig };
            new_next(sys, o, kept, *sig, pars, *reserve, goal, told)
        }
        Call::Defer => defer_next(sys, o, now, kept, room, told),
        Call::Recall => recall_next(kept, told),
        Call::Flush => None,
        Call::Subscribe { sig } => subscribe_next(*sig, told),
        Call::Unsubscribe { sig } => unsubscribe_next(*sig, told),
        Call::Arm {
            timer,
            ticks,
            interval,
        } => { arm_next(timer_number(sys, o, *timer), *ticks, *interval, told) }
        Call::Rearm { timer, ticks } => rearm_next(timer_number(sys, o, *timer), *ticks, told),
        Call::Disarm { timer } => disarm_next(timer_number(sys, o, *timer), told),
    }
}

/// A post that ends its call.
fn to_queue(to: u8, margin: Option<u8>) -> Goal
    ensures { as_goal result ≡ rest.ToQueue to margin (rest.Ends calls.Granted) }
{
    Goal::ToQueue {
        to,
        margin,
        behind: Behind::Ends(Answer::Granted),
    }
}
