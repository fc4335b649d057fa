//! The calls of one lane.

ghost use Rattle.std.specs.Prelude.{◌≡◌, ◌<◌, ◌≤◌, OnOk, OnErr, IsTrue, IsFalse, length, slice_get, Some};
ghost use Rattle.qp_model.specs.Record.{entry};
ghost use Rattle.qp_model.specs.WordLaw.{is_object, is_signal, is_timer};
ghost use Rattle.qp_model.specs.declared.words.Word.TheVariants as word;
ghost use Rattle.qp_calls.specs.LaneView.{GrowsOf, LaneView, Roomier, Sets};
ghost use Rattle.qp_calls.specs.LaneLaws.{HasCauses, IsWithinLimit};
ghost use Rattle.qp_calls.specs.Notes.{MayNote, MayStop, spare_after, told_note};
ghost use Rattle.qp_calls.specs.Clauses.{CallArms, ClaimsEntry, ClaimsFront, Counted, CallDisarms, Faults, FitsPool, GivesBlock, GoesBack, IsEvent, LetsGo, Makes, MakesMore, Owns, ReadsSubscribers, CallRearms, Sees, EntryStands, StandsFresh, StandsHold, Stopped, Stops, Subscribing, Takes, AnswersTick, FewTries, Unsubscribing, draws_armed, draws_claimed, draws_disarmed, draws_given, draws_ticked, event_of};

use crate::answers::{Arm, Claim, Counts, Dec, Give, RoomFault, Take, Tick};
use crate::tokens::{Fresh, HeldEntry, Hold};
use qp_base::{Ev, Steps};
use qp_model::Rec;
use std::sync::Wait;
use std::sync::ledger::Ledger;

/// The calls of one lane: what one thread does, in order. A world of one thread and one of many threads meet it, so
/// it speaks of no word but by what the lane knows of it.
///
/// Each call that adds records needs spare for them and takes no memory; only `room` allocates. A token handed in
/// stands in the hands; a call that spends it takes it out of them, and one that gives a token adds it.
pub trait Ops {
    ghost lane: { Self → LaneView };

    /// Makes spare for at least eight records. The place of one `spill` is kept apart from it. A refusal changes
    /// nothing: a lane with no room for eight more, or else want of memory. A full lane never answers want of memory.
    fn room(&mut self) -> Result<(), RoomFault>
        ensures ok { OnOk result (8 ≤ (lane self.new).spare) }
        ensures err { Faults (lane self.old) result }
        ensures refused { OnErr result (lane self.new ≡ lane self.old) }
        ensures stays { Roomier (lane self.old) (lane self.new) };

    /// Sets the object for which records are added, 0 for none, and answers the former one.
    fn by(&mut self, o: u8) -> u8
        ensures former { result ≡ (lane self.old).by }
        ensures set { Sets o (lane self.old) (lane self.new) };

    /// Adds one record, of a note's kind, for the object that it states. An `assert` has code 4 and values that no
    /// timer takes. A `spill` states the length of this lane, which exceeds 999,992 and has none yet; it needs no
    /// spare.
    fn note(&mut self, r: Rec)
        requires { MayNote r (lane self.old) }
        ensures grows { GrowsOf r.of (told_note r (lane self.old)) (lane self.old) (lane self.new) }
        ensures spare { (lane self.new).spare ≡ spare_after r (lane self.old).spare };

    /// Gives out the lowest free block of a pool for the event, where more than the reserve are free, None counting
    /// as 0. Otherwise the record is `short`, or `assert` 2 for None.
    fn give<L: Ledger>(
        &mut self,
        pool: u8,
        reserve: Option<u8>,
        ev: &Ev,
        steps: &mut Steps<L>,
    ) -> Give
        requires room { 0 < (lane self.old).spare }
        requires fits { FitsPool (lane self.old).sys pool (event_of ev.now) }
        ensures gives { GivesBlock pool reserve (event_of ev.now) (lane self.old) (lane self.new) result }
        ensures tries { FewTries (word.Pool pool) (draws_given result)
            steps.old steps.new (lane self.old) (lane self.new) };

    /// Makes the first reference to a block.
    fn first(&mut self, f: Fresh) -> Hold
        requires room { 0 < (lane self.old).spare }
        requires stands { StandsFresh f (lane self.old) }
        requires unused { IsFalse f.used }
        ensures { Makes f.pool f.block 1 (lane self.old) (lane self.new) result };

    /// Makes another reference to the block.
    fn inc(&mut self, h: &Hold) -> Hold
        requires room { 0 < (lane self.old).spare }
        requires stands { StandsHold h.now (lane self.old) }
        ensures { MakesMore h.now (lane self.old) (lane self.new) result };

    /// Drops the reference. `Last` exactly where no other was left.
    fn dec(&mut self, h: Hold) -> Dec
        requires room { 0 < (lane self.old).spare }
        requires stands { StandsHold h (lane self.old) }
        ensures { LetsGo h (lane self.old) (lane self.new) result };

    /// Gives the block back.
    fn back(&mut self, f: Fresh)
        requires room { 0 < (lane self.old).spare }
        requires stands { StandsFresh f (lane self.old) }
        requires used { IsTrue f.used }
        ensures { GoesBack f (lane self.old) (lane self.new) };

    /// The signal of the event.
    fn sig(&mut self, h: &Hold) -> u16
        requires stands { StandsHold h.now (lane self.old) }
        ensures value { result ≡ ((lane self.old).event (entry h.now.pool h.now.block h.now.name)).sig }
        ensures event { IsEvent (lane self.old).sys ((lane self.old).event (entry h.now.pool h.now.block h.now.name)) }
        ensures stays { lane self.new ≡ lane self.old };

    /// Parameter `j` of the event, from 0.
    fn par(&mut self, h: &Hold, j: usize) -> u64
        requires stands { StandsHold h.now (lane self.old) }
        requires within { j < length ((lane self.old).event (entry h.now.pool h.now.block h.now.name)).pars }
        ensures value { slice_get ((lane self.old).event (entry h.now.pool h.now.block h.now.name)).pars j ≡ Some result }
        ensures stays { lane self.new ≡ lane self.old };

    /// Posts an entry, where more entries of the queue are free than the margin, None counting as 0. Otherwise the
    /// entry comes back, and the record is `full`, or `assert` 1 for None.
    fn claim<L: Ledger>(
        &mut self,
        to: u8,
        e: HeldEntry,
        margin: Option<u8>,
        steps: &mut Steps<L>,
    ) -> Claim
        requires room { 0 < (lane self.old).spare }
        requires object { IsTrue (is_object (lane self.old).sys to) }
        requires stands { EntryStands e (lane self.old) }
        ensures claims { ClaimsEntry to e margin (lane self.old) (lane self.new) result }
        ensures tries { FewTries (word.Queue to) (draws_claimed result)
            steps.old steps.new (lane self.old) (lane self.new) };

    /// Posts an entry last-in to the object set by `by`, where an entry is free. Otherwise it comes back, and the
    /// record is `assert` 5.
    fn lifo<L: Ledger>(&mut self, e: HeldEntry, steps: &mut Steps<L>) -> Claim
        requires room { 0 < (lane self.old).spare }
        requires object { IsTrue (is_object (lane self.old).sys (lane self.old).by) }
        requires serves { IsTrue ((lane self.old).serves (lane self.old).by) }
        requires stands { EntryStands e (lane self.old) }
        ensures claims { ClaimsFront e (lane self.old) (lane self.new) result }
        ensures tries { FewTries (word.Queue (lane self.old).by) (draws_claimed result)
            steps.old steps.new (lane self.old) (lane self.new) };

    /// Takes the front entry. Where a poster has claimed it and not yet laid it, an implementation may wait for it.
    fn take<R: Wait>(&mut self, rt: &R, me: u8) -> Take
        requires room { 0 < (lane self.old).spare }
        requires object { IsTrue (is_object (lane self.old).sys me) }
        requires serves { IsTrue ((lane self.old).serves me) }
        ensures { Takes me (lane self.old) (lane self.new) result };

    /// Looks at a queue, and adds the record of it.
    fn seen(&mut self, p: u8) -> Counts
        requires room { 0 < (lane self.old).spare }
        requires object { IsTrue (is_object (lane self.old).sys p) }
        ensures { Sees p (lane self.old) (lane self.new) result };

    /// Looks at a queue, and adds nothing.
    fn counts(&mut self, p: u8) -> Counts
        requires object { IsTrue (is_object (lane self.old).sys p) }
        ensures { Counted p (lane self.old) (lane self.new) result };

    /// The object set by `by` subscribes to a signal. The answer tells whether the set changed.
    fn subscribe(&mut self, sig: u16) -> bool
        requires room { 0 < (lane self.old).spare }
        requires object { IsTrue (is_object (lane self.old).sys (lane self.old).by) }
        requires serves { IsTrue ((lane self.old).serves (lane self.old).by) }
        requires signal { IsTrue (is_signal (lane self.old).sys sig) }
        ensures { Subscribing sig (lane self.old) (lane self.new) result };

    /// The object set by `by` unsubscribes from a signal. The answer tells whether the set changed.
    fn unsubscribe(&mut self, sig: u16) -> bool
        requires room { 0 < (lane self.old).spare }
        requires object { IsTrue (is_object (lane self.old).sys (lane self.old).by) }
        requires serves { IsTrue ((lane self.old).serves (lane self.old).by) }
        requires signal { IsTrue (is_signal (lane self.old).sys sig) }
        ensures { Unsubscribing sig (lane self.old) (lane self.new) result };

    /// The subscribers of a signal, bit `p - 1` for object `p`.
    fn subscribers(&mut self, sig: u16) -> u32
        requires room { 0 < (lane self.old).spare }
        requires signal { IsTrue (is_signal (lane self.old).sys sig) }
        ensures { ReadsSubscribers sig (lane self.old) (lane self.new) result };

    /// Arms a timer of the object set by `by`. `Armed` exactly where its counter isn't 0.
    fn arm<L: Ledger>(&mut self, t: u8, ticks: u16, interval: u16, steps: &mut Steps<L>) -> Arm
        requires room { 0 < (lane self.old).spare }
        requires some { 0 < ticks }
        requires owns { Owns (lane self.old) t }
        ensures arms { CallArms t ticks interval (lane self.old) (lane self.new) result }
        ensures tries { FewTries (word.Timer t) (draws_armed result) steps.old steps.new (lane self.old) (lane self.new) };

    /// Disarms a timer of the object set by `by`, and answers the former counter.
    fn disarm<L: Ledger>(&mut self, t: u8, steps: &mut Steps<L>) -> u16
        requires room { 0 < (lane self.old).spare }
        requires owns { Owns (lane self.old) t }
        ensures disarms { CallDisarms t (lane self.old) (lane self.new) result }
        ensures tries { FewTries (word.Timer t) (draws_disarmed result)
            steps.old steps.new (lane self.old) (lane self.new) };

    /// Sets the counter of a timer of the object set by `by`, and answers the former one. The interval stays.
    fn rearm<L: Ledger>(&mut self, t: u8, ticks: u16, steps: &mut Steps<L>) -> u16
        requires room { 0 < (lane self.old).spare }
        requires some { 0 < ticks }
        requires owns { Owns (lane self.old) t }
        ensures rearms { CallRearms t ticks (lane self.old) (lane self.new) result }
        ensures tries { FewTries (word.Timer t) 1 steps.old steps.new (lane self.old) (lane self.new) };

    /// A tick of a timer. It posts nothing.
    fn tick_one<L: Ledger>(&mut self, t: u8, steps: &mut Steps<L>) -> Tick
        requires room { 0 < (lane self.old).spare }
        requires timer { IsTrue (is_timer (lane self.old).sys t) }
        ensures ticks { AnswersTick t (lane self.old) (lane self.new) result }
        ensures tries { FewTries (word.Timer t) (draws_ticked result)
            steps.old steps.new (lane self.old) (lane self.new) };

    /// Sets the stop word where it is 0: by the code of the `assert` that is the lane's last record, by 6 where that
    /// is a `spent` or a `spill`, or by 7 for want of memory.
    fn stop(&mut self, code: u8)
        requires { MayStop code (lane self.old) }
        ensures { Stops code (lane self.old) (lane self.new) };

    /// The code in the stop word. None exactly where it is 0.
    fn stopped(&mut self) -> Option<u8>
        ensures { Stopped (lane self.old) (lane self.new) result };

    /// Gives an entry up without a record: its reference stays in the hands.
    fn leave(&mut self, e: HeldEntry)
        requires { EntryStands e (lane self.old) }
        ensures { lane self.new ≡ lane self.old };

    /// Gives a block up without a record: it stays in the hands.
    fn leave_fresh(&mut self, f: Fresh)
        requires { StandsFresh f (lane self.old) }
        ensures { lane self.new ≡ lane self.old };

    /// A lane's records besides a `spill` and its spare are together at most 1,000,000.
    ghost within: { (s : Self) → IsWithinLimit (lane s) };

    /// Each code below 7 that a lane handed to `stop` has its record.
    ghost causes: { (s : Self) → HasCauses (lane s) };
}
