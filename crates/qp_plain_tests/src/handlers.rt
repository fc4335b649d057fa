//! A handler's publication, whole.

ghost use Rattle.std.specs.Prelude.{◌≡◌};
ghost use Rattle.qp_model.specs.Sound.{IsSound};
ghost use Rattle.qp_calls.specs.Clauses.{IsEvent, EntryStands, entry_of, event_of};
ghost use Rattle.qp_calls.specs.Publishing.{MembersAreObjects};
ghost use Rattle.qp_plain_tests.specs.Desk.{EndsIt, LocksOnce, StaysSteady};

use qp_base::{Ev, Steps};
use qp_calls::{Begun, Did, Ops, Publication, publish_begin, publish_end, publish_post};
use qp_model::{Rec, System};
use std::sync::ledger::Ledger;

/// Notes a `locked` list with nothing in it. The ceiling of the lane is then 0.
fn locked<O: Ops>(ops: &mut O, o: u8) -> Option<()>
    ensures { LocksOnce (O.lane ops.old) (O.lane ops.new) result }
{
    ops.room().ok()?;
    ops.note(Rec::lock(o, 1));
    ops.note(Rec::unlock(o, 0));
    Some(())
}

/// Posts to all members, and ends the publication.
fn go_on<O: Ops, L: Ledger>(ops: &mut O, p: Publication, steps: &mut Steps<L>) -> Option<Did>
    requires objects { MembersAreObjects (O.lane ops.old).sys p.left }
    requires stands { EntryStands p.entry (O.lane ops.old) }
    ensures { EndsIt (entry_of p.entry) (O.lane ops.old) (O.lane ops.new) result }
{
    let mut going = p;
    for _member in 0..33 {
        if going.left() == 0 {
            return publish_end(ops, going).ok();
        }
        match publish_post(ops, going, steps).ok()? {
            Begun::Did(did) => return Some(did),
            Begun::Going(on) => going = on,
        }
    }
    None
}

/// Publishes an event after a `locked` list.
pub(crate) fn announce<O: Ops, L: Ledger>(
    ops: &mut O,
    sys: &System,
    o: u8,
    ev: &Ev,
    reserve: Option<u8>,
    steps: &mut Steps<L>,
) -> Option<Did>
    requires of { (O.lane ops.old).sys ≡ sys.now }
    requires sound { IsSound sys.now }
    requires event { IsEvent sys.now (event_of ev.now) }
    ensures { StaysSteady (O.lane ops.old) (O.lane ops.new) result }
{
    locked(ops, o)?;
    match publish_begin(ops, sys, ev, reserve, 0, steps).ok()? {
        Begun::Did(did) => Some(did),
        Begun::Going(p) => go_on(ops, p, steps),
    }
}
