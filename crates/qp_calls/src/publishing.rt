//! Publications: one event posted to each subscriber.

ghost use Rattle.std.specs.Prelude.{◌≡◌, ◌<◌, ◌≤◌, IsTrue};
ghost use Rattle.qp_model.specs.Parts.{is_static, members};
ghost use Rattle.qp_model.specs.Shapes.{raising, restoring};
ghost use Rattle.qp_model.specs.Sound.{IsSound};
ghost use Rattle.qp_model.specs.WordLaw.{is_object};
ghost use Rattle.qp_calls.specs.LaneView.{ceiling_in};
ghost use Rattle.qp_calls.specs.Clauses.{IsEvent, EntryStands, entry_of, event_of};
ghost use Rattle.qp_calls.specs.Publishing.{Announces, MembersAreObjects, Begins, EndsPublication, PublishingGoesOn, Marks, PostsAgain, PostsAll, PublishesAll};

use crate::answers::RoomFault;
use crate::deferral::object;
use crate::did::Did;
use crate::entries::{again, drop_entry, make_entry, post_entry, release};
use crate::members::highest;
use crate::ops::Ops;
use crate::publication::{Begun, Publication};
use crate::tokens::HeldEntry;
use qp_base::{Ev, Steps};
use qp_model::{Rec, System};
use std::sync::ledger::Ledger;

/// Makes an event's entry, and reads the subscribers.
fn announce<O: Ops, L: Ledger>(
    ops: &mut O,
    sys: &System,
    ev: &Ev,
    reserve: Option<u8>,
    steps: &mut Steps<L>,
) -> Result<(HeldEntry, u32), Did>
    requires room { 3 ≤ (O.lane ops.old).spare }
    requires of { (O.lane ops.old).sys ≡ sys.now }
    requires sound { IsSound sys.now }
    requires event { IsEvent sys.now (event_of ev.now) }
    ensures { Announces (is_static sys.now ev.now.sig) (event_of ev.now) reserve (O.lane ops.old) (O.lane ops.new) result }
{
    match make_entry(ops, sys, ev, reserve, steps) {
        Err(did) => Err(did),
        Ok(e) => {
            let set = ops.subscribers(ev.sig);
            Ok((e, set))
        }
    }
}

/// Raises the ceiling to the highest member, if there is one. `former` is the ceiling of the lane.
fn raise<O: Ops>(ops: &mut O, former: u8, all: u32)
    requires room { 0 < (O.lane ops.old).spare }
    requires former { former ≡ ceiling_in 0 (O.lane ops.old).told }
    ensures { Marks (raising 1 former (members all)) (O.lane ops.old) (O.lane ops.new) }
{
    if all == 0 {
        return;
    }
    let (top, _) = highest(all);
    let o = object(ops);
    ops.note(Rec::lock(o, former.max(top)));
}

/// Restores the ceiling, if it was raised.
fn lower<O: Ops>(ops: &mut O, former: u8, all: u32)
    requires room { 0 < (O.lane ops.old).spare }
    ensures { Marks (restoring 1 former (members all)) (O.lane ops.old) (O.lane ops.new) }
{
    if all == 0 {
        return;
    }
    let o = object(ops);
    ops.note(Rec::unlock(o, former));
}

/// Posts the event of an entry to one subscriber, with a reference of its own.
fn post_one<O: Ops, L: Ledger>(ops: &mut O, e: &HeldEntry, to: u8, steps: &mut Steps<L>) -> Did
    requires room { 4 ≤ (O.lane ops.old).spare }
    requires object { IsTrue (is_object (O.lane ops.old).sys to) }
    requires stands { EntryStands e.now (O.lane ops.old) }
    ensures { PostsAgain (entry_of e.now) to result (O.lane ops.old) (O.lane ops.new) }
{
    let made = again(ops, e);
    post_entry(ops, to, made, None, steps)
}

/// Begins a handler's publication: a reference of its own, the subscribers, and the ceiling raised to the highest of
/// them. `ceiling` is that of the lane.
pub fn publish_begin<O: Ops, L: Ledger>(
    ops: &mut O,
    sys: &System,
    ev: &Ev,
    reserve: Option<u8>,
    ceiling: u8,
    steps: &mut Steps<L>,
) -> Result<Begun, RoomFault>
    requires of { (O.lane ops.old).sys ≡ sys.now }
    requires sound { IsSound sys.now }
    requires event { IsEvent sys.now (event_of ev.now) }
    requires ceiling { ceiling ≡ ceiling_in 0 (O.lane ops.old).told }
    ensures { Begins (event_of ev.now) reserve ceiling (O.lane ops.old) (O.lane ops.new) result }
{
    ops.room()?;
    match announce(ops, sys, ev, reserve, steps) {
        Err(did) => Ok(Begun::Did(did)),
        Ok((entry, all)) => {
            raise(ops, ceiling, all);
            Ok(Begun::Going(Publication {
                entry,
                all,
                left: all,
                former: ceiling,
            }))
        }
    }
}

/// Posts to the highest member that is left.
pub fn publish_post<O: Ops, L: Ledger>(
    ops: &mut O,
    p: Publication,
    steps: &mut Steps<L>,
) -> Result<Begun, RoomFault>
    requires some { 0 < p.left }
    requires objects { MembersAreObjects (O.lane ops.old).sys p.left }
    requires stands { EntryStands p.entry (O.lane ops.old) }
    ensures { PublishingGoesOn p (O.lane ops.old) (O.lane ops.new) result }
{
    ops.room()?;
    let Publication {
        entry,
        all,
        left,
        former,
    } = p;
    let (to, left) = highest(left);
    match post_one(ops, &entry, to, steps) {
        Did::Assert { code } => Ok(Begun::Did(Did::Assert { code })),
        Did::Value(_) => Ok(Begun::Going(Publication {
            entry,
            all,
            left,
            former,
        })),
    }
}

/// Ends a handler's publication: the ceiling is restored, and the publication's own reference dropped. The answer is 1.
pub fn publish_end<O: Ops>(ops: &mut O, p: Publication) -> Result<Did, RoomFault>
    requires none { p.left ≡ 0 }
    requires stands { EntryStands p.entry (O.lane ops.old) }
    ensures { EndsPublication p (O.lane ops.old) (O.lane ops.new) result }
{
    ops.room()?;
    let Publication {
        entry,
        all,
        former,
        ..
    } = p;
    lower(ops, former, all);
    drop_entry(ops, entry);
    Ok(Did::Value(1))
}

/// A source's whole publication, which raises no ceiling. The answer is 1, or 0 where no more blocks are free than
/// the reserve.
pub fn publish<O: Ops, L: Ledger>(
    ops: &mut O,
    sys: &System,
    ev: &Ev,
    reserve: Option<u8>,
    steps: &mut Steps<L>,
) -> Result<Did, RoomFault>
    requires of { (O.lane ops.old).sys ≡ sys.now }
    requires sound { IsSound sys.now }
    requires event { IsEvent sys.now (event_of ev.now) }
    ensures { PublishesAll (event_of ev.now) reserve (O.lane ops.old) (O.lane ops.new) result }
{
    ops.room()?;
    match announce(ops, sys, ev, reserve, steps) {
        Err(did) => Ok(did),
        Ok((entry, all)) => post_all(ops, entry, all, steps),
    }
}

/// Posts to all members, and drops the publication's own reference.
fn post_all<O: Ops, L: Ledger>(
    ops: &mut O,
    entry: HeldEntry,
    all: u32,
    steps: &mut Steps<L>,
) -> Result<Did, RoomFault>
    requires objects { MembersAreObjects (O.lane ops.old).sys all }
    requires stands { EntryStands entry (O.lane ops.old) }
    ensures { PostsAll (entry_of entry) all (O.lane ops.old) (O.lane ops.new) result }
{
    let mut left = all;
    while left != 0 {
        let (to, rest) = highest(left);
        ops.room()?;
        if let Did::Assert { code } = post_one(ops, &entry, to, steps) {
            return Ok(Did::Assert { code });
        }
        left = rest;
    }
    match entry {
        HeldEntry::Static(_) => Ok(Did::Value(1)),
        HeldEntry::Pool(h) => {
            ops.room()?;
            release(ops, h);
            Ok(Did::Value(1))
        }
    }
}
