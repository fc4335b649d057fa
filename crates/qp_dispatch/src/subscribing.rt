//! Subscriptions.

ghost use Rattle.std.specs.Prelude.{IsTrue, None};
ghost use Rattle.qp_model.specs.Calls as call;
ghost use Rattle.qp_model.specs.WordLaw.{is_object, is_signal};
ghost use Rattle.qp_calls.specs.Groups.{CallReturns};

use qp_calls::{Did, Ops, RoomFault};

/// Subscribes the object set by `by` to a signal.
pub(crate) fn subscribe<O: Ops>(ops: &mut O, sig: u16) -> Result<Did, RoomFault>
    requires object { IsTrue (is_object (O.lane ops.old).sys (O.lane ops.old).by) }
    requires serves { IsTrue ((O.lane ops.old).serves (O.lane ops.old).by) }
    requires signal { IsTrue (is_signal (O.lane ops.old).sys sig) }
    ensures { CallReturns None (call.Subscribe sig) (O.lane ops.old) (O.lane ops.new) result }
{
    ops.room()?;
    if ops.subscribe(sig) {
        return Ok(Did::Value(1));
    }
    Ok(Did::Value(0))
}

/// Unsubscribes the object set by `by` from a signal.
pub(crate) fn unsubscribe<O: Ops>(ops: &mut O, sig: u16) -> Result<Did, RoomFault>
    requires object { IsTrue (is_object (O.lane ops.old).sys (O.lane ops.old).by) }
    requires serves { IsTrue ((O.lane ops.old).serves (O.lane ops.old).by) }
    requires signal { IsTrue (is_signal (O.lane ops.old).sys sig) }
    ensures { CallReturns None (call.Unsubscribe sig) (O.lane ops.old) (O.lane ops.new) result }
{
    ops.room()?;
    if ops.unsubscribe(sig) {
        return Ok(Did::Value(1));
    }
    Ok(Did::Value(0))
}
