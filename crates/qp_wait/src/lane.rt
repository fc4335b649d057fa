//! What a lane of the waiting port is, and tells of itself.

ghost use Rattle.std.specs.Prelude.{◌≡◌, ℕ, ◌+◌, ◌%◌, ◌^◌, ◌++◌, ◌∷◌, [], IsTrue, OnErr, OnOk, Some, true, length};
ghost use Rattle.std.specs.List.{count_by, list_all};
ghost use Rattle.qp_model.specs.History.{lane_items};
ghost use Rattle.qp_model.specs.WordLaw.{is_object};
ghost use Rattle.qp_model_order.specs.SourceRun.{untold_all};
ghost use Rattle.qp_wait_rings.specs.Handed.{lane_view};
ghost use Rattle.qp_wait_rings.specs.Lane.{ringing_view};
ghost use Rattle.qp_wait_rings.specs.Records.{is_claim, tells_refusal, posts_on};
ghost use Rattle.qp_wait.specs.Parked.{HasParked, HasParked-prop, HasPerch, is_park_place, parked_object, parks_of, parks_shown};

use crate::closings::Closings;
use crate::farewells::Farewells;
use crate::perch::Perch;
use qp_base::Memory;
use qp_model::Rec;
use qp_wait_rings::{RingingLane, SharedLane};
use std::sync::Wait;

/// A lane of the waiting port. Its posts ring; beside that it notes every parker at a farewell, takes off the count what its turns
/// finished, and parks where it serves an object.
#[derive(Drop)]
pub struct BellLane<'a> {
    pub ringing: RingingLane<'a>,
    pub farewells: Farewells,
    pub closings: Closings<'a>,
    pub perch: Option<Perch>,
    ghost parked: { HasParked farewells.cords.items perch (ringing_view ringing) } by { HasParked-prop farewells.cords.items perch (ringing_view ringing) },
}

impl<'a> BellLane<'a> {
    ghost use Rattle.qp_wait.specs.Lane.{ClosesOne, IsAway, KeepsPerch, LooksAtCount, OpensFor, SaysOne, bell_view, notes_to};

    /// The records of the lane so far.
    pub fn records(&self) -> &[Rec]
        ensures { lane_items result.now ≡ untold_all (bell_view self.now).told }
    {
        self.ringing.records()
    }

    /// What the lane added to the count for its claims: one for each.
    pub fn opened(&self) -> u64
        ensures claims { result ≡ count_by is_claim (bell_view self.now).told }
        ensures seats { result ≡ self.now.ringing.seat.me.0.added }
    {
        self.ringing.opened
    }

    /// What it took off, modulo 2^64: one for each claim that was refused, for each step that its turns finished and for each end.
    pub fn closed(&self) -> u64
        ensures refusals { result ≡ (count_by tells_refusal (bell_view self.now).told + self.now.closings.ended) % 2 ^ 64 }
        ensures seats { result ≡ (self.now.ringing.seat.me.0.taken + self.now.closings.seat.me.0.taken) % 2 ^ 64 }
    {
        self.ringing.refused.wrapping_add(self.closings.ended)
    }

    /// The notes that its posts gave to object `a`: the posts on that queue.
    pub fn rings(&self, a: u8) -> u32
        ensures { result ≡ count_by (posts_on a) (bell_view self.now).told }
    {
        self.ringing.rings(a)
    }

    /// For each park the place in the lane, from 0, of the look that found the queue of its object empty before it: of a `nil`, or of
    /// the look in the place of a take where the object is at its budget.
    pub fn parks(&self) -> &[u32]
        ensures parks { result.now ≡ parks_of self.now.perch }
        ensures places { list_all (is_park_place (parked_object self.now.perch) (bell_view self.now).told) result.now ≡ true }
        ensures made { parks_shown self.now.perch ≡ length result.now }
    {
        match &self.perch {
            Some(perch) => perch.parks.as_slice(),
            None => &[],
        }
    }

    /// Its farewells, modulo 2^64. With the notes that its posts gave they are all notes that it gave to an object.
    pub fn farewells(&self) -> u64
        ensures said { result ≡ self.now.farewells.said }
        ensures notes { (a : ℕ) → IsTrue (is_object (bell_view self.now).sys a) → notes_to a self.now % 2 ^ 64 ≡ (count_by (posts_on a) (bell_view self.now).told + result) % 2 ^ 64 }
    {
        self.farewells.said
    }

    /// So many sources take a turn next, and are added to the count. No object is within a turn.
    pub fn phase(&mut self, n: u32)
        ensures { OpensFor n self.old self.new }
    {
        self.closings.open(n);
    }

    /// Its source is at its end: one is taken off the count. Where that leaves nothing there, every parker is noted.
    pub fn away(&mut self)
        ensures { IsAway self.old self.new }
    {
        if self.closings.take_off() {
            self.farewells.say();
        }
    }

    /// Notes every parker once.
    pub fn farewell(&mut self)
        ensures { SaysOne self.old self.new }
    {
        self.farewells.say();
    }

    /// A step is finished: one is taken off the count. Whether that leaves nothing there.
    pub fn close(&mut self) -> bool
        ensures { ClosesOne result self.old self.new }
    {
        self.closings.take_off()
    }

    /// Whether nothing is on the count.
    pub fn is_over(&mut self) -> bool
        ensures { LooksAtCount result self.old self.new }
    {
        self.closings.is_zero()
    }

    /// Whether it has the parker of object `me`.
    pub fn parks_for(&self, me: u8) -> bool
        ensures { result ≡ true → HasPerch me self.now.perch }
    {
        match &self.perch {
            Some(perch) => perch.object == me,
            None => false,
        }
    }

    /// Whether its last look, or take, was at the queue of object `me`, and found it empty.
    pub fn has_found(&self, me: u8) -> bool
        ensures found { result ≡ true → self.now.ringing.found ≡ Some me }
        ensures told { self.now.ringing.found ≡ Some me → result ≡ true }
    {
        self.ringing.has_found(me)
    }

    /// Parks behind the look at this place, until a note is there. Where the list of places can't grow it doesn't park. What its last look found is used up: no two parks
    /// stand behind one look.
    pub fn park<R: Wait>(&mut self, rt: &R, place: u32) -> Result<(), Memory>
        requires some { HasPerch (parked_object self.old.perch) self.old.perch }
        requires found { self.old.ringing.found ≡ Some (parked_object self.old.perch) }
        requires look { is_park_place (parked_object self.old.perch) (bell_view self.old).told place ≡ true }
        ensures lane { KeepsPerch self.old self.new }
        ensures parked { OnOk result (parks_of self.new.perch ≡ parks_of self.old.perch ++ place ∷ []) }
        ensures refused { OnErr result (parks_of self.new.perch ≡ parks_of self.old.perch) }
    {
        match &mut self.perch {
            Some(perch) => {
                self.ringing.forget();
                perch.park(rt, place)
            }
            None => unreachable!(),
        }
    }

    /// Gives the lane back.
    pub fn done(self) -> SharedLane<'a>
        ensures { result ≡ self.entry.ringing.lane }
    {
        let BellLane {
            ringing,
            farewells: _,
            closings: _,
            perch: _,
        } = self;
        ringing.done()
    }
}
