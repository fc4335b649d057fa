//! Deferral: entries that wait in their object's own list.

ghost use Rattle.std.specs.Prelude.{◌≡◌, ◌<◌, ◌≤◌, IsTrue, Some, None, length};
ghost use Rattle.qp_model.specs.Calls as call;
ghost use Rattle.qp_model.specs.WordLaw.{is_object};
ghost use Rattle.qp_calls.specs.Clauses.{EntryStands, entry_of};
ghost use Rattle.qp_calls.specs.Deferring.{DefersCall, FlushesAll, FlushesOne, RecallsOne, StandAll};

use crate::answers::RoomFault;
use crate::deferred::Deferred;
use crate::did::Did;
use crate::entries::{again, drop_entry, post_front};
use crate::ops::Ops;
use crate::tokens::HeldEntry;
use qp_base::Steps;
use qp_model::Rec;
use std::sync::ledger::Ledger;

/// The object set by `by`.
pub(crate) fn object<O: Ops>(ops: &mut O) -> u8
    ensures object { result ≡ (O.lane ops.old).by }
    ensures stays { O.lane ops.new ≡ O.lane ops.old }
{
    let o = ops.by(0);
    let _ = ops.by(o);
    o
}

/// An entry as records state it.
#[tactic(auto, unfolding(crate::specs::Clauses::entry_of))]
fn stated(e: &HeldEntry) -> qp_model::Entry
    ensures { result ≡ entry_of e.now }
{
    match e {
        HeldEntry::Static(sig) => qp_model::Entry {
            pool: 0,
            block: u64::from(*sig),
            name: 0,
        },
        HeldEntry::Pool(h) => qp_model::Entry {
            pool: u64::from(h.pool()),
            block: u64::from(h.block()),
            name: h.name(),
        },
    }
}

/// Defers the entry that a step works on, with a reference of its own, and answers 1; 0 where the list is full.
pub fn defer<O: Ops>(ops: &mut O, list: &mut Deferred, now: &HeldEntry) -> Result<Did, RoomFault>
    requires stands { EntryStands now.now (O.lane ops.old) }
    requires kept { StandAll list.old.entries.items (O.lane ops.old) }
    ensures { DefersCall (Some (entry_of now.now)) call.Defer list.old list.new (O.lane ops.old) (O.lane ops.new) result }
{
    ops.room()?;
    let o = object(ops);
    if list.is_full() {
        ops.note(Rec::no_defer(o));
        return Ok(Did::Value(0));
    }
    let e = again(ops, now);
    ops.note(Rec::defer(o, stated(&e)));
    let _ = list.entries.push_back(e);
    Ok(Did::Value(1))
}

/// Takes the oldest deferred entry, posts it last-in to its object with a new reference, drops the deferral's, and
/// answers 1; 0 where the list is empty.
pub fn recall<O: Ops, L: Ledger>(
    ops: &mut O,
    list: &mut Deferred,
    steps: &mut Steps<L>,
) -> Result<Did, RoomFault>
    requires object { IsTrue (is_object (O.lane ops.old).sys (O.lane ops.old).by) }
    requires serves { IsTrue ((O.lane ops.old).serves (O.lane ops.old).by) }
    requires kept { StandAll list.old.entries.items (O.lane ops.old) }
    ensures { DefersCall None call.Recall list.old list.new (O.lane ops.old) (O.lane ops.new) result }
{
    ops.room()?;
    let o = object(ops);
    match list.entries.pop_front() {
        None => {
            ops.note(Rec::no_recall(o));
            Ok(Did::Value(0))
        }
        Some(k) => Ok(recall_entry(ops, k, o, steps)),
    }
}

/// Posts a deferred entry last-in with a new reference, and drops the deferral's.
fn recall_entry<O: Ops, L: Ledger>(ops: &mut O, k: HeldEntry, o: u8, steps: &mut Steps<L>) -> Did
    requires room { 8 ≤ (O.lane ops.old).spare }
    requires mine { o ≡ (O.lane ops.old).by }
    requires object { IsTrue (is_object (O.lane ops.old).sys (O.lane ops.old).by) }
    requires serves { IsTrue ((O.lane ops.old).serves (O.lane ops.old).by) }
    requires stands { EntryStands k (O.lane ops.old) }
    ensures { RecallsOne (entry_of k) result (O.lane ops.old) (O.lane ops.new) }
{
    ops.note(Rec::recall(o, stated(&k)));
    let e = again(ops, &k);
    match post_front(ops, e, steps) {
        Did::Value(n) => {
            drop_entry(ops, k);
            Did::Value(n)
        }
        Did::Assert { code } => {
            ops.leave(k);
            Did::Assert { code }
        }
    }
}

/// Drops the oldest deferred entry.
fn flush_one<O: Ops>(ops: &mut O, list: &mut Deferred) -> Result<(), RoomFault>
    requires some { 0 < length list.old.entries.items }
    requires kept { StandAll list.old.entries.items (O.lane ops.old) }
    ensures { FlushesOne list.old list.new (O.lane ops.old) (O.lane ops.new) result }
{
    ops.room()?;
    let o = object(ops);
    if let Some(k) = list.entries.pop_front() {
        ops.note(Rec::flush(o, stated(&k)));
        drop_entry(ops, k);
    }
    Ok(())
}

/// Drops all deferred entries, the oldest first, and answers how many. Where it is refused room, entries are left.
pub fn flush<O: Ops>(ops: &mut O, list: &mut Deferred) -> Result<Did, RoomFault>
    requires kept { StandAll list.old.entries.items (O.lane ops.old) }
    ensures { FlushesAll list.old list.new (O.lane ops.old) (O.lane ops.new) result }
{
    let count = list.len();
    for _i in 0..count {
        flush_one(ops, list)?;
    }
    Ok(Did::Value(count))
}
