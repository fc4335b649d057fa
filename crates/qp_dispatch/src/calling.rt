//! The calls of actions.

ghost use Rattle.std.specs.Prelude.{◌≡◌, IsTrue, None, true};
ghost use Rattle.qp_model.specs.Calls.{Call, Calls, deed_of};
ghost use Rattle.qp_calls.specs.Deferring.{StandAll};
ghost use Rattle.qp_calls.specs.Groups.{CallReturns};
ghost use Rattle.qp_dispatch.specs.CallsDone.{CallDone, StandsIn, is_single, is_timing};
ghost use Rattle.qp_dispatch.specs.Lasts.{entry_in, names_at};
ghost use Rattle.qp_dispatch.specs.SoundFor.{MayAct};

use crate::lasting::Lasting;
use crate::subscribing::{subscribe, unsubscribe};
use crate::timing::{arm, disarm, rearm};
use crate::values::{bits, event, receiver, surroundings, timer};
use crate::work::Work;
use qp_base::Steps;
use qp_calls::{Did, Ops, RoomFault, defer, flush, forward, lifo_new, post, recall};
use qp_chart::Plain;
use qp_model::System;
use std::sync::ledger::Ledger;

/// Makes the call of an action. An assignment, `say` and a publication are none of these, and do nothing here.
pub(crate) fn call<O: Ops, L: Ledger>(
    ops: &mut O,
    sys: &System,
    me: u8,
    lasting: &mut Lasting,
    work: &Work,
    plain: &Plain,
    steps: &mut Steps<L>,
) -> Result<Did, RoomFault>
    requires of { (O.lane ops.old).sys ≡ sys.now }
    requires mine { (O.lane ops.old).by ≡ me }
    requires serves { IsTrue ((O.lane ops.old).serves me) }
    requires may { MayAct sys.now me work.now.entry plain.now }
    requires stands { StandsIn work.now.entry (O.lane ops.old) }
    requires kept { StandAll lasting.old.list.entries.items (O.lane ops.old) }
    ensures done { (x : Call) → deed_of (names_at me lasting.old work.now) plain.now ≡ Calls x → is_single x ≡ true →
        CallDone (entry_in work.now.entry) x lasting.old.list lasting.new.list (O.lane ops.old) (O.lane ops.new) result }
    ensures rest { lasting.new ≡ record lasting.old { list = lasting.new.list } }
{
    match plain {
        Plain::Post {
            to,
            sig,
            pars,
            margin,
            reserve,
        } => {
            let ev = event(
                *sig,
                pars.items.as_slice(),
                &surroundings(me, lasting, work),
            );
            post(ops, sys, receiver(me, to), &ev, *margin, *reserve, steps)
        }
        Plain::Lifo { sig, pars, reserve } => {
            let ev = event(
                *sig,
                pars.items.as_slice(),
                &surroundings(me, lasting, work),
            );
            lifo_new(ops, sys, &ev, *reserve, steps)
        }
        Plain::Forward { to, margin } => match &work.entry {
            Some(now) => forward(ops, receiver(me, to), now, *margin, steps),
            None => Ok(Did::Value(0)),
        },
        Plain::Defer => match &work.entry {
            Some(now) => defer(ops, &mut lasting.list, now),
            None => Ok(Did::Value(0)),
        },
        Plain::Recall => recall(ops, &mut lasting.list, steps),
        Plain::Flush => flush(ops, &mut lasting.list),
        Plain::Subscribe(sig) => subscribe(ops, *sig),
        Plain::Unsubscribe(sig) => unsubscribe(ops, *sig),
        _ => time(ops, sys, me, lasting, work, plain, steps),
    }
}

/// Makes the call of an action on a time event. Other actions do nothing here.
fn time<O: Ops, L: Ledger>(
    ops: &mut O,
    sys: &System,
    me: u8,
    lasting: &Lasting,
    work: &Work,
    plain: &Plain,
    steps: &mut Steps<L>,
) -> Result<Did, RoomFault>
    requires of { (O.lane ops.old).sys ≡ sys.now }
    requires mine { (O.lane ops.old).by ≡ me }
    requires may { MayAct sys.now me work.now.entry plain.now }
    ensures { (x : Call) → deed_of (names_at me lasting.now work.now) plain.now ≡ Calls x → is_timing x ≡ true →
        CallReturns None x (O.lane ops.old) (O.lane ops.new) result }
{
    match plain {
        Plain::Arm {
            timer: place,
            ticks,
            interval,
        } => {
            let env = surroundings(me, lasting, work);
            let (n, i) = (bits(ticks, &env), bits(interval, &env));
            arm(ops, me, timer(sys, me, *place), *place, n, i, steps)
        }
        Plain::Rearm {
            timer: place,
            ticks,
        } => {
            let n = bits(ticks, &surroundings(me, lasting, work));
            rearm(ops, me, timer(sys, me, *place), *place, n, steps)
        }
        Plain::Disarm { timer: place } => disarm(ops, timer(sys, me, *place), *place, steps),
        _ => Ok(Did::Value(0)),
    }
}
