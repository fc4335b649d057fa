//! Posts: an entry is claimed and laid, or comes back.

ghost use Rattle.std.specs.Prelude.{◌≡◌, ◌+◌, ◌<◌, IsTrue};
ghost use Rattle.std.specs.Bool.{MatchBool};
ghost use Rattle.qp_model.specs.declared.words.Word.TheVariants as word;
ghost use Rattle.qp_model.specs.Record.{entry, item_of};
ghost use Rattle.qp_model.specs.WordLaw.{is_object};
ghost use Rattle.qp_calls.specs.Clauses.{ClaimsEntry, ClaimsFront, EntryStands, FewTries, draws_claimed};
ghost use Rattle.qp_shared_lane.specs.Lane.{state_view};
ghost use Rattle.qp_shared_queues.specs.Bodies.{IsPutAs, lifo_body, post_body};

use crate::counting::counts_in;
use qp_base::Steps;
use qp_calls::{Claim, Counts, HeldEntry};
use qp_calls_log::Log;
use qp_model::Rec;
use qp_shared_lane::{LaneState, put};
use qp_shared_loops::cells::{post_entry, post_entry_last_in};
use qp_shared_loops::takes::parts;
use qp_table::Numbers;
use std::sync::ledger::Ledger;

/// An entry as records state it.
pub(crate) fn stated(pool: u8, block: u16, name: u64) -> qp_model::Entry
    ensures { result ≡ entry pool block name }
{
    qp_model::Entry {
        pool: u64::from(pool),
        block: u64::from(block),
        name,
    }
}

/// Adds the record of a post at these counts: of the entry posted, or of too few free entries.
// Each of the three goes straight to its place; one that is chosen among them before would go by the stack.
#[inline(always)]
fn put_post(
    log: &mut Log,
    numbers: &mut Numbers,
    by: u8,
    to: u8,
    margin: Option<u8>,
    now: Counts,
    e: qp_model::Entry,
    posted: bool,
)
    requires room { 0 < log.old.spare }
    requires counts { now.f < 2097152 }
    ensures put { IsPutAs (record { of = by; body = post_body posted margin to now.f now.l now.m e }) log.old numbers.old.list log.new numbers.new.list }
    ensures spare { log.new.spare + 1 ≡ log.old.spare }
{
    if posted {
        let rec = Rec::post(by, to, now.f + 1, now.l, now.m, e);
        put(log, numbers, rec, 0);
        return;
    }
    if let Some(margin) = margin {
        let rec = Rec::full(by, to, now.f, now.l, now.m, margin);
        put(log, numbers, rec, 0);
        return;
    }
    let rec = Rec::no_entry(by, to, now.f, now.l, now.m);
    put(log, numbers, rec, 0);
}

/// The record of a last-in post at these counts: of the entry posted, or of none that is free.
fn lifo_rec(a: u8, now: Counts, e: qp_model::Entry, posted: bool) -> Rec
    requires { now.l < 2097152 }
    ensures { item_of result ≡ record { of = a; body = lifo_body posted a now.f now.l now.m e } }
{
    if posted {
        Rec::lifo(a, now.f, now.l + 1, now.m, e)
    } else {
        Rec::no_lifo(a, a, now.f, now.l, now.m)
    }
}

/// The answer of a post.
fn answer(posted: bool, e: HeldEntry, now: Counts) -> Claim
    ensures { MatchBool posted (result ≡ Claim.Done) (result ≡ Claim.Short e now.f now.l now.m) }
{
    if posted {
        Claim::Done
    } else {
        Claim::Short {
            entry: e,
            f: now.f,
            l: now.l,
            m: now.m,
        }
    }
}

/// Posts an entry, where more entries of the queue are free than the margin, None counting as 0. Otherwise the entry comes back, and the
/// record is `full`, or `assert` 1 for None.
#[inline(always)]
pub fn claim<L: Ledger>(
    lane: &mut LaneState<'_>,
    to: u8,
    e: HeldEntry,
    margin: Option<u8>,
    steps: &mut Steps<L>,
) -> Claim
    requires room { 0 < (state_view lane.old).spare }
    requires object { IsTrue (is_object (state_view lane.old).sys to) }
    requires stands { EntryStands e (state_view lane.old) }
    ensures claims { ClaimsEntry to e margin (state_view lane.old) (state_view lane.new) result }
    ensures tries { FewTries (word.Queue to) (draws_claimed result)
        steps.old steps.new (state_view lane.old) (state_view lane.new) }
{
    let ring = lane.rings.ring_of(to);
    let (pool, block, name) = parts(&e);
    let (found, posted) = post_entry(
        lane.words,
        &mut lane.seat,
        lane.by,
        to,
        ring,
        margin,
        pool,
        block,
        name,
        steps,
    );
    let now = counts_in(found);
    let said = stated(pool, block, name);
    put_post(
        &mut lane.log,
        &mut lane.numbers,
        lane.by,
        to,
        margin,
        now,
        said,
        posted,
    );
    answer(posted, e, now)
}

/// Posts an entry last-in to the object set by `by`, where an entry is free. Otherwise it comes back, and the record is `assert` 5.
pub fn lifo<L: Ledger>(lane: &mut LaneState<'_>, e: HeldEntry, steps: &mut Steps<L>) -> Claim
    requires room { 0 < (state_view lane.old).spare }
    requires object { IsTrue (is_object (state_view lane.old).sys (state_view lane.old).by) }
    requires serves { IsTrue ((state_view lane.old).serves (state_view lane.old).by) }
    requires stands { EntryStands e (state_view lane.old) }
    ensures claims { ClaimsFront e (state_view lane.old) (state_view lane.new) result }
    ensures tries { FewTries (word.Queue (state_view lane.old).by) (draws_claimed result)
        steps.old steps.new (state_view lane.old) (state_view lane.new) }
{
    let ring = lane.rings.ring_of(lane.by);
    let (pool, block, name) = parts(&e);
    let (found, posted) = post_entry_last_in(
        lane.words,
        &mut lane.seat,
        lane.by,
        ring,
        pool,
        block,
        name,
        steps,
    );
    let now = counts_in(found);
    let rec = lifo_rec(lane.by, now, stated(pool, block, name), posted);
    put(&mut lane.log, &mut lane.numbers, rec, 0);
    answer(posted, e, now)
}
