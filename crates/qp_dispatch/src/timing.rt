//! Time events.

ghost use Rattle.std.specs.Prelude.{◌≡◌, ◌<◌, ◌≤◌, None, false, [], ◌∷◌};
ghost use Rattle.qp_model.specs.Told.{plain};
ghost use Rattle.qp_model.specs.declared.bodies.Body.TheVariants.{BadTicks};
ghost use Rattle.qp_calls.specs.LaneView.{AddsTold};
ghost use Rattle.qp_model.specs.Calls as call;
ghost use Rattle.qp_model.specs.Parts.{timer_number};
ghost use Rattle.qp_model.specs.Shapes.{ticks_fit};
ghost use Rattle.qp_calls.specs.Clauses.{Owns};
ghost use Rattle.qp_calls.specs.Groups.{CallReturns};

use qp_base::Steps;
use qp_calls::{Arm, Did, Ops, RoomFault};
use qp_model::{Rec, stops};
use std::sync::ledger::Ledger;

/// Whether a timer takes so many ticks and this interval.
#[tactic(auto, unfolding(qp_model::specs::Shapes::ticks_fit))]
fn fits(ticks: u64, interval: u64) -> bool
    ensures { result ≡ ticks_fit ticks interval }
{
    0 < ticks && ticks < 65536 && interval < 65536
}

/// Adds assertion 4, with values that no timer takes.
fn refuse<O: Ops>(ops: &mut O, me: u8, t: u8, ticks: u64, interval: u64)
    requires mine { (O.lane ops.old).by ≡ me }
    requires room { 8 ≤ (O.lane ops.old).spare }
    requires values { ticks_fit ticks interval ≡ false }
    ensures { AddsTold (plain (BadTicks t ticks interval) ∷ []) (O.lane ops.old) (O.lane ops.new) }
{
    ops.note(Rec::bad_ticks(me, t, ticks, interval));
}

/// Arms the object's timer that its chart has at this place.
pub(crate) fn arm<O: Ops, L: Ledger>(
    ops: &mut O,
    me: u8,
    t: u8,
    place: u8,
    ticks: u64,
    interval: u64,
    steps: &mut Steps<L>,
) -> Result<Did, RoomFault>
    requires mine { (O.lane ops.old).by ≡ me }
    requires number { t ≡ timer_number (O.lane ops.old).sys.timers me place }
    requires owns { Owns (O.lane ops.old) t }
    ensures { CallReturns None (call.Arm place ticks interval) (O.lane ops.old) (O.lane ops.new) result }
{
    ops.room()?;
    if !fits(ticks, interval) {
        refuse(ops, me, t, ticks, interval);
        return Ok(Did::Assert {
            code: stops::BAD_TICKS,
        });
    }
    match ops.arm(t, ticks as u16, interval as u16, steps) {
        Arm::Done => Ok(Did::Value(1)),
        Arm::Armed { .. } => Ok(Did::Assert { code: stops::ARMED }),
    }
}

/// Sets the counter of the object's timer that its chart has at this place.
pub(crate) fn rearm<O: Ops, L: Ledger>(
    ops: &mut O,
    me: u8,
    t: u8,
    place: u8,
    ticks: u64,
    steps: &mut Steps<L>,
) -> Result<Did, RoomFault>
    requires mine { (O.lane ops.old).by ≡ me }
    requires number { t ≡ timer_number (O.lane ops.old).sys.timers me place }
    requires owns { Owns (O.lane ops.old) t }
    ensures { CallReturns None (call.Rearm place ticks) (O.lane ops.old) (O.lane ops.new) result }
{
    ops.room()?;
    if !fits(ticks, 0) {
        refuse(ops, me, t, ticks, 0);
        return Ok(Did::Assert {
            code: stops::BAD_TICKS,
        });
    }
    if ops.rearm(t, ticks as u16, steps) == 0 {
        return Ok(Did::Value(0));
    }
    Ok(Did::Value(1))
}

/// Disarms the timer of the object set by `by` that its chart has at this place.
pub(crate) fn disarm<O: Ops, L: Ledger>(
    ops: &mut O,
    t: u8,
    place: u8,
    steps: &mut Steps<L>,
) -> Result<Did, RoomFault>
    requires number { t ≡ timer_number (O.lane ops.old).sys.timers (O.lane ops.old).by place }
    requires owns { Owns (O.lane ops.old) t }
    ensures { CallReturns None (call.Disarm place) (O.lane ops.old) (O.lane ops.new) result }
{
    ops.room()?;
    if ops.disarm(t, steps) == 0 {
        return Ok(Did::Value(0));
    }
    Ok(Did::Value(1))
}
