//! Calls that leave one record.

ghost use Rattle.std.specs.Prelude.{◌≡◌};
ghost use Rattle.std.specs.Option.{option_map};
ghost use Rattle.qp_check_calls.specs.CallStateNext.{arm_next, disarm_next, only, rearm_next, subscribe_next, unsubscribe_next, was_armed};
ghost use Rattle.qp_check_calls.specs.CallState as rest;
ghost use Rattle.qp_check_calls.specs.AsCall.{as_answer};
ghost use Rattle.qp_check_calls.specs.AsStage.{as_stage};

use crate::call::Answer;
use crate::goes::only;
use crate::lookups::do_fit;
use crate::stage::CallStage;
use crate::told::{Known, Told};
use qp_model::Body;

/// The end of a call, where a test is passed.
fn whole(passed: bool, answer: Answer) -> Option<CallStage>
    ensures { option_map as_stage result ≡ only passed (rest.Whole (as_answer answer)) }
{
    only(passed, CallStage::Whole(answer))
}

pub(crate) fn subscribe_next(sig: u16, told: &Told) -> Option<CallStage>
    ensures { option_map as_stage result ≡ subscribe_next sig told.now.body told.now.known }
{
    match (&told.body, &told.known) {
        (Body::Sub { sig: s, .. }, Known::Nothing) => whole(*s == u64::from(sig), Answer::Granted),
        (Body::Same { sig: s, .. }, Known::Member { is: true }) => {
            whole(*s == u64::from(sig), Answer::Refused)
        }
        _ => None,
    }
}

pub(crate) fn unsubscribe_next(sig: u16, told: &Told) -> Option<CallStage>
    ensures { option_map as_stage result ≡ unsubscribe_next sig told.now.body told.now.known }
{
    match (&told.body, &told.known) {
        (Body::Unsub { sig: s, .. }, Known::Nothing) => whole(
            *s == u64::from(sig),
            Answer::Granted,
        ),
        (Body::Same { sig: s, .. }, Known::Member { is: false }) => {
            whole(*s == u64::from(sig), Answer::Refused)
        }
        _ => None,
    }
}

/// Behind the arming of a timer, or what asserts in its place.
#[tactic(auto, unfolding(crate::specs::CallStateNext::arm_next))]
pub(crate) fn arm_next(timer: u128, ticks: u64, interval: u64, told: &Told) -> Option<CallStage>
    ensures { option_map as_stage result ≡ arm_next timer ticks interval told.now.body told.now.known }
{
    let fits = do_fit(ticks, interval);
    match (&told.body, &told.known) {
        (
            Body::Arm {
                t,
                ticks: k,
                interval: i,
                ..
            },
            Known::Nothing,
        ) => {
            let is_timer = u128::from(*t) == timer;
            whole(
                is_timer && *k == ticks && *i == interval && fits,
                Answer::Granted,
            )
        }
        (Body::Armed { t, .. }, Known::Nothing) => {
            whole(u128::from(*t) == timer && fits, Answer::AtTimer)
        }
        (
            Body::BadTicks {
                t,
                ticks: k,
                interval: i,
            },
            Known::Nothing,
        ) => {
            let is_timer = u128::from(*t) == timer;
            whole(
                is_timer && *k == ticks && *i == interval && !fits,
                Answer::AtTicks,
            )
        }
        _ => None,
    }
}

/// The answer of a call that rearms: whether the former counter isn't 0.
fn was_armed(former: u64) -> Answer
    ensures { as_answer result ≡ was_armed former }
{
    if former == 0 {
        Answer::Refused
    } else {
        Answer::Granted
    }
}

#[tactic(auto, unfolding(crate::specs::CallStateNext::rearm_next))]
pub(crate) fn rearm_next(timer: u128, ticks: u64, told: &Told) -> Option<CallStage>
    ensures { option_map as_stage result ≡ rearm_next timer ticks told.now.body told.now.known }
{
    let fits = do_fit(ticks, 0);
    match (&told.body, &told.known) {
        (
            Body::Rearm {
                t,
                former,
                ticks: k,
                ..
            },
            Known::Nothing,
        ) => {
            whole(
                u128::from(*t) == timer && *k == ticks && fits,
                was_armed(*former),
            )
        }
        (
            Body::BadTicks {
                t,
                ticks: k,
                interval: i,
            },
            Known::Nothing,
        ) => {
            let is_timer = u128::from(*t) == timer;
            whole(is_timer && *k == ticks && *i == 0 && !fits, Answer::AtTicks)
        }
        _ => None,
    }
}

pub(crate) fn disarm_next(timer: u128, told: &Told) -> Option<CallStage>
    ensures { option_map as_stage result ≡ disarm_next timer told.now.body told.now.known }
{
    match (&told.body, &told.known) {
        (Body::Disarm { t, .. }, Known::Nothing) => whole(u128::from(*t) == timer, Answer::Granted),
        (Body::Idle { t, .. }, Known::Nothing) => whole(u128::from(*t) == timer, Answer::Refused),
        _ => None,
    }
}
