//! Posts of one event, and the end of a step.

ghost use Rattle.std.specs.Prelude.{◌≡◌, IsTrue, IsFalse, IfOk, IfErr, Some, None, [], true};
ghost use Rattle.qp_model.specs.Calls as call;
ghost use Rattle.qp_model.specs.Parts.{is_static};
ghost use Rattle.qp_model.specs.Sound.{IsSound};
ghost use Rattle.qp_model.specs.WordLaw.{is_object};
ghost use Rattle.qp_calls.specs.Clauses.{IsEvent, EntryStands, entry_of, event_of};
ghost use Rattle.qp_calls.specs.Groups.{CallReturns, EndsStep, Refused};

use crate::answers::RoomFault;
use crate::did::Did;
use crate::entries::{again, drop_entry, make, make_entry, post_entry, post_front};
use crate::ops::Ops;
use crate::tokens::HeldEntry;
use qp_base::{Ev, Steps};
use qp_model::System;
use std::sync::ledger::Ledger;

/// Posts a new event in a block of the first pool with room for it. 0 where no more blocks are free than the reserve,
/// or no more entries of the queue than the margin; without a reserve or a margin that is an assertion.
pub fn post_new<O: Ops, L: Ledger>(
    ops: &mut O,
    sys: &System,
    to: u8,
    ev: &Ev,
    margin: Option<u8>,
    reserve: Option<u8>,
    steps: &mut Steps<L>,
) -> Result<Did, RoomFault>
    requires of { (O.lane ops.old).sys ≡ sys.now }
    requires sound { IsSound sys.now }
    requires object { IsTrue (is_object sys.now to) }
    requires event { IsEvent sys.now (event_of ev.now) }
    requires pooled { IsFalse (is_static sys.now ev.now.sig) }
    ensures { CallReturns None (call.Post to ev.now.sig ev.now.pars.items margin reserve)
        (O.lane ops.old) (O.lane ops.new) result }
{
    ops.room()?;
    match make(ops, sys, ev, reserve, steps) {
        Err(did) => Ok(did),
        Ok(e) => Ok(post_entry(ops, to, e, margin, steps)),
    }
}

/// Posts a static event.
#[inline(always)]
pub fn post_static<O: Ops, L: Ledger>(
    ops: &mut O,
    to: u8,
    sig: u16,
    margin: Option<u8>,
    steps: &mut Steps<L>,
) -> Result<Did, RoomFault>
    requires object { IsTrue (is_object (O.lane ops.old).sys to) }
    requires fixed { IsTrue (is_static (O.lane ops.old).sys sig) }
    ensures { CallReturns None (call.Post to sig [] margin None) (O.lane ops.old) (O.lane ops.new) result }
{
    ops.room()?;
    Ok(post_entry(ops, to, HeldEntry::Static(sig), margin, steps))
}

/// Posts a new event: as `post_static` where its signal is static, and else as `post_new`.
pub fn post<O: Ops, L: Ledger>(
    ops: &mut O,
    sys: &System,
    to: u8,
    ev: &Ev,
    margin: Option<u8>,
    reserve: Option<u8>,
    steps: &mut Steps<L>,
) -> Result<Did, RoomFault>
    requires of { (O.lane ops.old).sys ≡ sys.now }
    requires sound { IsSound sys.now }
    requires object { IsTrue (is_object sys.now to) }
    requires event { IsEvent sys.now (event_of ev.now) }
    requires reserve { is_static sys.now ev.now.sig ≡ true → reserve ≡ None }
    ensures { CallReturns None (call.Post to ev.now.sig ev.now.pars.items margin reserve)
        (O.lane ops.old) (O.lane ops.new) result }
{
    if sys.is_static(u64::from(ev.sig)) {
        return post_static(ops, to, ev.sig, margin, steps);
    }
    post_new(ops, sys, to, ev, margin, reserve, steps)
}

/// Posts the event of an entry once more, with a reference of its own.
pub fn forward<O: Ops, L: Ledger>(
    ops: &mut O,
    to: u8,
    now: &HeldEntry,
    margin: Option<u8>,
    steps: &mut Steps<L>,
) -> Result<Did, RoomFault>
    requires object { IsTrue (is_object (O.lane ops.old).sys to) }
    requires stands { EntryStands now.now (O.lane ops.old) }
    ensures { CallReturns (Some (entry_of now.now)) (call.Forward to margin) (O.lane ops.old) (O.lane ops.new) result }
{
    ops.room()?;
    let e = again(ops, now);
    Ok(post_entry(ops, to, e, margin, steps))
}

/// Posts a new event last-in to the object set by `by`; a static signal needs no block.
pub fn lifo_new<O: Ops, L: Ledger>(
    ops: &mut O,
    sys: &System,
    ev: &Ev,
    reserve: Option<u8>,
    steps: &mut Steps<L>,
) -> Result<Did, RoomFault>
    requires of { (O.lane ops.old).sys ≡ sys.now }
    requires sound { IsSound sys.now }
    requires object { IsTrue (is_object (O.lane ops.old).sys (O.lane ops.old).by) }
    requires serves { IsTrue ((O.lane ops.old).serves (O.lane ops.old).by) }
    requires event { IsEvent sys.now (event_of ev.now) }
    ensures { CallReturns None (call.Lifo ev.now.sig ev.now.pars.items reserve) (O.lane ops.old) (O.lane ops.new) result }
{
    ops.room()?;
    match make_entry(ops, sys, ev, reserve, steps) {
        Err(did) => Ok(did),
        Ok(e) => Ok(post_front(ops, e, steps)),
    }
}

/// Ends a step: drops the reference of its entry. The answer is 1.
#[inline(always)]
pub fn end_step<O: Ops>(ops: &mut O, e: HeldEntry) -> Result<Did, RoomFault>
    requires { EntryStands e (O.lane ops.old) }
    ensures ok { IfOk result (λ did. EndsStep (entry_of e) did (O.lane ops.old) (O.lane ops.new)) }
    ensures err { IfErr result (λ fault. Refused fault (O.lane ops.old) (O.lane ops.new)) }
{
    ops.room()?;
    drop_entry(ops, e);
    Ok(Did::Value(1))
}
