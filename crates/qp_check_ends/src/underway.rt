//! What is left of a stimulus behind its `stim`.

ghost use Rattle.std.specs.Prelude.{◌≡◌, IfOk};
ghost use Rattle.std.specs.Option.{option_map};
ghost use Rattle.qp_model.specs.Calls.{is_assertion};
ghost use Rattle.qp_check_calls.specs.AsCall.{as_answer, as_call};
ghost use Rattle.qp_check_ends.specs.Underway.{call_begin, underway_begin, underway_next, underway_done, underway_asserted, underway_tried, underway_open};
ghost use Rattle.qp_check_ends.specs.AsSource.{as_underway};

use crate::scene::is_able;
use crate::settle_state::SettleState;
use crate::tick_state::TickState;
use arrayvec::ArrayVec;
use qp_base::Ev;
use qp_check_calls::{Answer, Call, CallState, Kept, Told};
use qp_model::{Params, Stim, System};
use std::alloc::{AllocError, Global};

/// What is left of a stimulus behind its `stim`.
#[derive(Drop)]
pub enum Underway {
    Calling(CallState),
    Ticking(TickState),
    Settling(SettleState),
}

fn is_assertion(answer: Answer) -> bool
    ensures { result ≡ is_assertion (as_answer answer) }
{
    match answer {
        Answer::Granted | Answer::Refused | Answer::Flushed { .. } => false,
        _ => true,
    }
}

/// The parameters of an event, as a call has them.
fn params_of(ev: &Ev) -> Params
    ensures { result ≡ ev.now.pars.items }
{
    let mut items = ArrayVec::new();
    let _ = items.try_extend_from_slice(&ev.pars);
    Params { items }
}

/// A call begins, where it has what it asks for.
#[tactic(auto, unfolding(crate::specs::Underway::call_begin))]
fn call_begin(alloc: Global, sys: &System, call: Call) -> Result<Option<Underway>, AllocError>
    ensures { IfOk result (λ u. option_map (as_underway sys.now) u ≡ call_begin sys.now (as_call call)) }
{
    if is_able(sys, &call) {
        Ok(Some(Underway::Calling(CallState::begin(0, Kept::none(alloc), call))))
    } else {
        Ok(None)
    }
}

impl Underway {
    /// A stimulus begins. None does whose event has neither a static signal nor a pool: no records fit it.
    #[tactic(auto, unfolding(crate::specs::Underway::underway_begin, crate::specs::AsStates::dues_from))]
    pub fn begin(alloc: Global, sys: &System, stim: &Stim) -> Result<Option<Underway>, AllocError>
        ensures { IfOk result (λ u. option_map (as_underway sys.now) u ≡ underway_begin sys.now stim.now) }
    {
        match stim {
            Stim::Post {
                to,
                ev,
                margin,
                reserve,
            } => call_begin(
                alloc,
                sys,
                Call::Post {
                    to: *to,
                    sig: ev.sig,
                    pars: params_of(ev),
                    margin: *margin,
                    reserve: *reserve,
                },
            ),
            Stim::Publish { ev, reserve } => call_begin(
                alloc,
                sys,
                Call::Publish {
                    sig: ev.sig,
                    pars: params_of(ev),
                    reserve: *reserve,
                },
            ),
            Stim::Tick { rate } => Ok(Some(Underway::Ticking(TickState::Reaching {
                rate: *rate,
                at: 0,
            }))),
            Stim::Settle => Ok(Some(Underway::Settling(SettleState::Before { tried: false }))),
        }
    }

    /// What is left behind the next record.
    #[tactic(auto, unfolding(crate::specs::Underway::underway_next))]
    pub fn next(self, sys: &System, kernel: u8, told: &Told) -> Result<Option<Underway>, AllocError>
        ensures { IfOk result (λ u. option_map (as_underway sys.now) u ≡ underway_next sys.now kernel (as_underway sys.now self) told.now) }
    {
        match self {
            Underway::Calling(rest) => Ok(rest.next(sys, 0, None, told)?.map(Underway::Calling)),
            Underway::Ticking(rest) => Ok(rest.next(sys, told).map(Underway::Ticking)),
            Underway::Settling(rest) => Ok(rest.next(sys, kernel, told).map(Underway::Settling)),
        }
    }

    /// Whether the stimulus is done.
    pub fn is_done(&self, sys: &System) -> bool
        ensures { result ≡ underway_done (as_underway sys.now self.now) }
    {
        match self {
            Underway::Calling(rest) => match rest.answer() {
                Some(answer) => !is_assertion(answer),
                None => false,
            },
            Underway::Ticking(rest) => rest.is_done(sys),
            Underway::Settling(rest) => rest.is_done(sys),
        }
    }

    /// Whether an assertion ended it.
    pub fn is_asserted(&self, sys: &System) -> bool
        ensures { result ≡ underway_asserted (as_underway sys.now self.now) }
    {
        match self {
            Underway::Calling(rest) => match rest.answer() {
                Some(answer) => is_assertion(answer),
                None => false,
            },
            Underway::Ticking(rest) => rest.is_asserted(sys),
            Underway::Settling(_) => false,
        }
    }

    /// Whether a try of a `settle` has just ended.
    pub fn is_tried(&self, sys: &System, kernel: u8) -> bool
        ensures { result ≡ underway_tried kernel (as_underway sys.now self.now) }
    {
        match self {
            Underway::Settling(rest) => rest.is_tried(sys, kernel),
            _ => false,
        }
    }

    /// Whether more records may follow.
    pub fn is_open(&self, sys: &System) -> bool
        ensures { result ≡ underway_open (as_underway sys.now self.now) }
    {
        match self {
            Underway::Calling(rest) => rest.answer().is_none(),
            Underway::Ticking(rest) => rest.is_open(sys),
            Underway::Settling(rest) => rest.is_open(sys),
        }
    }
}
