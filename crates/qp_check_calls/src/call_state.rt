//! The reader of one call's records.

ghost use Rattle.std.specs.Prelude.{◌≡◌, ℕ, IfOk};
ghost use Rattle.std.specs.Option.{option_map};
ghost use Rattle.qp_check_calls.specs.CallStateNext.{call_state_begin, call_state_next, stage_answer, stage_begin, stage_next};
ghost use Rattle.qp_check_calls.specs.AsCall.{as_answer, as_call};
ghost use Rattle.qp_check_calls.specs.AsStage.{as_stage};

use crate::call::{Answer, Call};
use crate::ends::{drop_next, flush_next, raise_next, restore_next, return_next};
use crate::firsts::begin_next;
use crate::goes::flushes_on;
use crate::kept::Kept;
use crate::puts::{put_next, refer_next};
use crate::stage::CallStage;
use crate::told::Told;
use qp_model::{Entry, System};
use std::alloc::AllocError;
use std::marker::Model;

/// What is left to be read of a call's records, and the deferred list of its object before the next one.
#[derive(Drop)]
pub struct CallState {
    stage: CallStage,
    kept: Kept,
}

impl Model for CallState {
    ghost use Rattle.qp_check_calls.specs.CallState as reading;
    ghost use Rattle.qp_check_calls.specs.AsStage.{as_stage};

    ghost Value = { reading.CallState };

    ghost view = { λ r. record { stage = as_stage r.stage; kept = r.kept } };
}

/// The stage of a call that begins.
fn stage_begin(room: u8, kept: &Kept, call: Call) -> CallStage
    ensures { as_stage result ≡ stage_begin room kept.now (as_call call) }
{
    match call {
        Call::Flush => flushes_on(kept.len() as u64, kept.len()),
        _ => CallStage::Begins { room, call },
    }
}

/// The stage behind a record, where it fits.
#[tactic(auto, unfolding(crate::specs::CallStateNext::stage_next))]
fn stage_next(
    sys: &System,
    o: u8,
    now: Option<Entry>,
    kept: &Kept,
    stage: CallStage,
    told: &Told,
) -> Option<CallStage>
    ensures { option_map as_stage result ≡ stage_next sys.now o now kept.now (as_stage stage) told.now.body told.now.known }
{
    match stage {
        CallStage::Begins { room, call } => begin_next(sys, o, now, kept, room, &call, told),
        CallStage::Refers { p, b, goal } => refer_next(p, b, goal, told),
        CallStage::Puts { goal, e } => put_next(sys, o, kept, goal, e, told),
        CallStage::Raises { own, a, others } => raise_next(own, a, others, told),
        CallStage::Restores { own, former } => restore_next(own, former, told),
        CallStage::Drops { e, behind } => drop_next(kept, e, behind, told),
        CallStage::Returns { p, b, d, behind } => return_next(kept, p, b, d, behind, told),
        CallStage::Flushes { total } => flush_next(kept, total, told),
        CallStage::Whole(_) => None,
    }
}

impl CallState {
    /// A call that begins with this deferred list, whose capacity is the room.
    pub fn begin(room: u8, kept: Kept, call: Call) -> Self
        ensures { result ≡ call_state_begin room kept (as_call call) }
    {
        CallState {
            stage: stage_begin(room, &kept, call),
            kept,
        }
    }

    /// What is left behind a record of object `o` while it works on `now`, where the record fits; `o` is 0 at a source.
    #[tactic(auto, unfolding(crate::specs::CallStateNext::call_state_next))]
    pub fn next(
        self,
        sys: &System,
        o: u8,
        now: Option<Entry>,
        told: &Told,
    ) -> Result<Option<Self>, AllocError>
        ensures { IfOk result (λ next. next ≡ call_state_next sys.now o now self told.now) }
    {
        let CallState { stage, mut kept } = self;
        match stage_next(sys, o, now, &kept, stage, told) {
            Some(stage) => {
                kept.follow(&told.body)?;
                Ok(Some(CallState { stage, kept }))
            }
            None => Ok(None),
        }
    }

    /// The answer, where the call is whole.
    pub fn answer(&self) -> Option<Answer>
        ensures { option_map as_answer result ≡ stage_answer self.now.stage }
    {
        match &self.stage {
            CallStage::Whole(answer) => Some(*answer),
            _ => None,
        }
    }

    /// The deferred list.
    pub fn into_kept(self) -> Kept
        ensures { result ≡ self.kept }
    {
        self.kept
    }
}
