//! The lanes of a world, and the lane of each record in the order of the calls.

ghost use Rattle.std.specs.Prelude.{◌≡◌, ◌+◌, ◌<◌, ◌≤◌, true, false, [], length, not, OnOk, OnErr, IfErr, IfOk};
ghost use Rattle.std.specs.List.{count_by};
ghost use Rattle.std.specs.Vec.{vec_capacity, vec_len};
ghost use Rattle.qp_model.specs.Record.{item_of};
ghost use Rattle.qp_model.specs.declared.bodies.Body.TheVariants.{Nil};
ghost use Rattle.qp_model.specs.Ends.{is_spill};
ghost use Rattle.qp_calls_log.specs.Lane.{is_plain, last_nil_in};
ghost use Rattle.qp_calls.specs.LaneLaws.{is_caused_in};
ghost use Rattle.qp_calls.specs.LaneView.{NotShown};
ghost use Rattle.qp_calls.specs.Clauses.{same_counts};
ghost use Rattle.qp_model.specs.History.{lane_items};
ghost use Rattle.qp_plain.specs.Books.{all_logs, all_places};

use crate::ending::shelve;
use crate::tables;
use qp_base::Memory;
use qp_calls::{Counts, RoomFault};
use qp_calls_log::Log;
use qp_model::{Lane, Lanes, Rec};
use std::alloc::Global;
use std::mem;

/// The lane that is chosen stands in `here`, with an empty one in its place among the others. `promised` is how many
/// records all lanes have room for.
#[derive(Drop)]
pub struct Book {
    pub others: Vec<Log>,
    pub here: Log,
    pub at: usize,
    pub order: Vec<u8>,
    pub promised: usize,
    ghost within: { at < length others.items },
    ghost few: { length others.items ≤ 49 },
    ghost room: { promised ≡ all_places (all_logs others.items at here) },
    ghost ordered: { vec_len order + promised ≤ vec_capacity order },
}

impl Book {
    ghost use Rattle.qp_plain.specs.Book.{BookAnswers, BookGains, Hands, IsRoomFault, BookKeeps, lists_of, logs_of};
    ghost use Rattle.qp_plain.specs.Fresh.{IsNewBook};

    /// Adds a record that is neither a `nil` nor a `spill` to the lane chosen.
    pub fn add(&mut self, rec: Rec)
        requires room { 0 < self.old.here.spare }
        requires plain { is_plain (item_of rec).body ≡ true }
        ensures gains { BookGains rec self.old self.new }
        ensures spare { self.new.here.spare + 1 ≡ self.old.here.spare }
    {
        self.here.add(rec);
        self.order.push_reserved(self.at as u8);
        self.promised -= 1;
    }

    /// Adds the `nil` of a queue.
    pub fn add_nil(&mut self, rec: Rec, me: u8, now: Counts)
        requires room { 0 < self.old.here.spare }
        requires nil { item_of rec ≡ record { of = me; body = Nil now.f now.l now.m } }
        requires queue { me < 33 }
        ensures gains { BookGains rec self.old self.new }
        ensures spare { self.new.here.spare + 1 ≡ self.old.here.spare }
    {
        self.here.add_nil(rec, me, now);
        self.order.push_reserved(self.at as u8);
        self.promised -= 1;
    }

    /// Adds the `spill`.
    pub fn add_spill(&mut self, rec: Rec)
        requires spill { is_spill (item_of rec).body ≡ true }
        requires first { self.old.here.spilled ≡ false }
        ensures gains { BookGains rec self.old self.new }
        ensures spare { self.new.here.spare ≡ self.old.here.spare }
    {
        self.here.add_spill(rec);
        self.order.push_reserved(self.at as u8);
        self.promised -= 1;
    }

    /// Makes spare for at least eight records in the lane chosen.
    pub fn room(&mut self) -> Result<(), RoomFault>
        ensures ok { OnOk result (8 ≤ self.new.here.spare) }
        ensures free { OnOk result (length self.old.here.recs.items + 8 ≤ 1000000) }
        ensures err { IfErr result (IsRoomFault self.old) }
        ensures refused { OnErr result (self.new.here.spare ≡ self.old.here.spare) }
        ensures more { self.old.here.spare ≤ self.new.here.spare }
        ensures keeps { BookKeeps self.old self.new }
    {
        let len = self.here.recs.len();
        if len + 8 > 1_000_000 {
            return Err(RoomFault::LaneFull { len: len as u32 });
        }
        if self.here.spare >= 8 {
            return Ok(());
        }
        let Ok(()) = self.order.reserve(self.promised + 8) else {
            return Err(RoomFault::Memory);
        };
        let Ok(more) = self.here.make_room() else {
            return Err(RoomFault::Memory);
        };
        self.promised += more as usize;
        Ok(())
    }

    /// Makes spare for a record in the lane chosen, where there is none.
    pub fn place(&mut self) -> Result<(), Memory>
        requires { count_by (λ i. not (is_spill i.body)) (lane_items self.old.here.recs.items) < 1000000 }
        ensures ok { OnOk result (0 < self.new.here.spare) }
        ensures keeps { BookKeeps self.old self.new }
    {
        if self.here.spare > 0 {
            return Ok(());
        }
        let Ok(()) = self.order.reserve(self.promised + 1) else {
            return Err(Memory);
        };
        let Ok(()) = self.here.make_place() else {
            return Err(Memory);
        };
        self.promised += 1;
        Ok(())
    }

    /// Notes a code that the lane chosen hands to `stop`, in proofs alone.
    pub fn hand(&mut self, code: u8)
        requires { is_caused_in (lane_items self.old.here.recs.items) code ≡ true }
        ensures { Hands code self.old self.new }
    {
        self.here.hand(code);
    }

    /// Notes a code that `stopped` answers to the lane chosen, in proofs alone.
    pub fn answer(&mut self, code: u8)
        ensures { BookAnswers code self.old self.new }
    {
        self.here.answer(code);
    }

    /// Whether the last `nil` of a queue in the lane chosen showed these counts.
    pub fn tells(&self, me: u8, now: Counts) -> bool
        requires { me < 33 }
        ensures { result ≡ same_counts (last_nil_in me NotShown (lane_items self.now.here.recs.items)) now.f now.l now.m }
    {
        self.here.tells(me, now)
    }

    /// So many lanes without a record. Lane 0 is chosen.
    pub fn new(alloc: Global, n: u32) -> Result<Book, Memory>
        requires some { 0 < n }
        requires few { n ≤ 49 }
        ensures { IfOk result (λ b. IsNewBook n b) }
    {
        let others = tables::lanes(alloc, n)?;
        let here = Log::new(alloc)?;
        let Ok(order) = Vec::with_capacity(alloc, n as usize) else {
            return Err(Memory);
        };
        Ok(Book {
            others,
            here,
            at: 0,
            order,
            promised: n as usize,
        })
    }

    /// Chooses a lane, and answers the one chosen before.
    pub fn go(&mut self, lane: u32) -> u32
        requires { lane < length self.old.others.items }
        ensures former { result ≡ self.old.at }
        ensures at { self.new.at ≡ lane }
        ensures logs { logs_of self.new ≡ logs_of self.old }
        ensures lanes { length self.new.others.items ≡ length self.old.others.items }
        ensures order { self.new.order.items ≡ self.old.order.items }
    {
        let former = self.at;
        mem::swap(&mut self.here, &mut self.others[former]);
        let next = lane as usize;
        mem::swap(&mut self.here, &mut self.others[next]);
        self.at = next;
        former as u32
    }

    /// The records of the lanes, moved into the room.
    pub fn finish(self, room: Vec<Lane>) -> Lanes
        requires none { room.items ≡ [] }
        requires wide { 49 ≤ vec_capacity room }
        ensures { result ≡ lists_of self }
    {
        let Book {
            mut others,
            mut here,
            at,
            order: _,
            promised: _,
        } = self;
        mem::swap(&mut here, &mut others[at]);
        Lanes {
            items: shelve(others, room),
        }
    }
}
