//! Entries that are made, posted and dropped: the parts of groups.

ghost use Rattle.std.specs.Prelude.{◌≡◌, ◌<◌, ◌≤◌, IsTrue, IsFalse, false};
ghost use Rattle.qp_model.specs.Record.{entry};
ghost use Rattle.qp_model.specs.Parts.{is_static};
ghost use Rattle.qp_model.specs.Sound.{IsSound};
ghost use Rattle.qp_model.specs.WordLaw.{is_object};
ghost use Rattle.qp_calls.specs.Clauses.{IsEvent, EntryStands, StandsHold, entry_of, event_of};
ghost use Rattle.qp_calls.specs.Entries.{Again, MakesEntry, PostsEntry, PostsFirst, Refuses, Release, Unposted};

use crate::answers::{Claim, Dec, Give};
use crate::did::Did;
use crate::ops::Ops;
use crate::pools::pool_for;
use crate::tokens::{HeldEntry, Hold};
use qp_base::{Ev, Steps};
use qp_model::{System, stops};
use std::sync::ledger::Ledger;

/// What a refused call answers.
fn refused(margin: Option<u8>, code: u8) -> Did
    ensures { Refuses margin code result }
{
    match margin {
        Some(_) => Did::Value(0),
        None => Did::Assert { code },
    }
}

/// Drops a reference, and gives the block back if it was the last.
pub(crate) fn release<O: Ops>(ops: &mut O, h: Hold)
    requires room { 2 ≤ (O.lane ops.old).spare }
    requires stands { StandsHold h (O.lane ops.old) }
    ensures { Release (entry h.pool h.block h.name) (O.lane ops.old) (O.lane ops.new) }
{
    match ops.dec(h) {
        Dec::Kept => {}
        Dec::Last(f) => ops.back(f),
    }
}

/// Drops an entry's reference, if it has one.
#[inline(always)]
pub(crate) fn drop_entry<O: Ops>(ops: &mut O, e: HeldEntry)
    requires room { 2 ≤ (O.lane ops.old).spare }
    requires stands { EntryStands e (O.lane ops.old) }
    ensures { Release (entry_of e) (O.lane ops.old) (O.lane ops.new) }
{
    match e {
        HeldEntry::Static(_) => {}
        HeldEntry::Pool(h) => release(ops, h),
    }
}

/// Makes another entry of the same event, with a reference of its own.
pub(crate) fn again<O: Ops>(ops: &mut O, e: &HeldEntry) -> HeldEntry
    requires room { 0 < (O.lane ops.old).spare }
    requires stands { EntryStands e.now (O.lane ops.old) }
    ensures { Again (entry_of e.now) result (O.lane ops.old) (O.lane ops.new) }
{
    match e {
        HeldEntry::Static(sig) => HeldEntry::Static(*sig),
        HeldEntry::Pool(h) => HeldEntry::Pool(ops.inc(h)),
    }
}

/// Drops the entry of a post that found no room, or leaves it where that is an assertion.
fn unposted<O: Ops>(ops: &mut O, e: HeldEntry, margin: Option<u8>) -> Did
    requires room { 2 ≤ (O.lane ops.old).spare }
    requires stands { EntryStands e (O.lane ops.old) }
    ensures did { Refuses margin 1 result }
    ensures adds { Unposted margin (entry_of e) (O.lane ops.old) (O.lane ops.new) }
{
    match margin {
        Some(_) => {
            drop_entry(ops, e);
            Did::Value(0)
        }
        None => {
            ops.leave(e);
            Did::Assert {
                code: stops::NO_ENTRY,
            }
        }
    }
}

/// Posts an entry.
#[inline(always)]
pub(crate) fn post_entry<O: Ops, L: Ledger>(
    ops: &mut O,
    to: u8,
    e: HeldEntry,
    margin: Option<u8>,
    steps: &mut Steps<L>,
) -> Did
    requires room { 3 ≤ (O.lane ops.old).spare }
    requires object { IsTrue (is_object (O.lane ops.old).sys to) }
    requires stands { EntryStands e (O.lane ops.old) }
    ensures { PostsEntry to margin (entry_of e) result (O.lane ops.old) (O.lane ops.new) }
{
    match ops.claim(to, e, margin, steps) {
        Claim::Done => Did::Value(1),
        Claim::Short { entry, .. } => unposted(ops, entry, margin),
    }
}

/// Posts an entry last-in to the object set by `by`.
pub(crate) fn post_front<O: Ops, L: Ledger>(ops: &mut O, e: HeldEntry, steps: &mut Steps<L>) -> Did
    requires room { 0 < (O.lane ops.old).spare }
    requires object { IsTrue (is_object (O.lane ops.old).sys (O.lane ops.old).by) }
    requires serves { IsTrue ((O.lane ops.old).serves (O.lane ops.old).by) }
    requires stands { EntryStands e (O.lane ops.old) }
    ensures { PostsFirst (entry_of e) result (O.lane ops.old) (O.lane ops.new) }
{
    match ops.lifo(e, steps) {
        Claim::Done => Did::Value(1),
        Claim::Short { entry, .. } => {
            ops.leave(entry);
            Did::Assert {
                code: stops::NO_LIFO,
            }
        }
    }
}

/// Makes the first reference to a block for the event, if there are blocks enough.
pub(crate) fn make<O: Ops, L: Ledger>(
    ops: &mut O,
    sys: &System,
    ev: &Ev,
    reserve: Option<u8>,
    steps: &mut Steps<L>,
) -> Result<HeldEntry, Did>
    requires room { 2 ≤ (O.lane ops.old).spare }
    requires of { (O.lane ops.old).sys ≡ sys.now }
    requires sound { IsSound sys.now }
    requires event { IsEvent sys.now (event_of ev.now) }
    requires pooled { IsFalse (is_static sys.now ev.now.sig) }
    ensures { MakesEntry false (event_of ev.now) reserve (O.lane ops.old) (O.lane ops.new) result }
{
    let pool = pool_for(sys, ev.pars.len());
    match ops.give(pool, reserve, ev, steps) {
        Give::Short { .. } => Err(refused(reserve, 2)),
        Give::Given(f) => Ok(HeldEntry::Pool(ops.first(f))),
    }
}

/// Makes an entry for the event: a static one where its signal is static.
pub(crate) fn make_entry<O: Ops, L: Ledger>(
    ops: &mut O,
    sys: &System,
    ev: &Ev,
    reserve: Option<u8>,
    steps: &mut Steps<L>,
) -> Result<HeldEntry, Did>
    requires room { 2 ≤ (O.lane ops.old).spare }
    requires of { (O.lane ops.old).sys ≡ sys.now }
    requires sound { IsSound sys.now }
    requires event { IsEvent sys.now (event_of ev.now) }
    ensures { MakesEntry (is_static sys.now ev.now.sig) (event_of ev.now) reserve (O.lane ops.old) (O.lane ops.new) result }
{
    if sys.is_static(u64::from(ev.sig)) {
        return Ok(HeldEntry::Static(ev.sig));
    }
    make(ops, sys, ev, reserve, steps)
}
