//! What a ringing lane tells of itself.

ghost use Rattle.std.specs.Prelude.{◌≡◌, ◌<◌, [], Some, true};
ghost use Rattle.std.specs.List.{count_by};
ghost use Rattle.qp_model.specs.History.{lane_items};
ghost use Rattle.qp_shared.specs.Lane.{lane_view};
ghost use Rattle.qp_model_order.specs.SourceRun.{untold_all};
ghost use Rattle.qp_wait_rings.specs.Lane.{found_at};
ghost use Rattle.qp_wait_rings.specs.Records.{posts_on};

use crate::cord::Cord;
use crate::cords::pulls_of;
use crate::ringing::RingingLane;
use atomic_table::Seat;
use qp_calls::{Counts, Ops};
use qp_model::Rec;
use qp_shared::SharedLane;
use qp_wait_bells::{Tallies, Tally};

/// The object for which a lane adds records.
pub(crate) fn object_of(lane: &mut SharedLane<'_>) -> u8
    ensures object { result ≡ (lane_view lane.old).by }
    ensures stays { lane_view lane.new ≡ lane_view lane.old }
{
    let o = lane.by(0);
    let _ = lane.by(o);
    o
}

/// What a look with these counts found empty.
pub(crate) fn empty_at(p: u8, now: &Counts) -> Option<u8>
    ensures { result ≡ found_at p now.now }
{
    if u64::from(now.f) + u64::from(now.l) <= u64::from(now.m) {
        Some(p)
    } else {
        None
    }
}

impl<'a> RingingLane<'a> {
    ghost use Rattle.qp_wait_rings.specs.Lane.{BeginsToRing, Forgets, ringing_view};
    ghost use Rattle.qp_wait_rings.specs.Cords.{AreLoose};
    ghost use Rattle.qp_wait_bells.specs.Tallies.{no_tally};

    /// A lane without records, with these parts, whose posts ring.
    pub fn new(
        lane: SharedLane<'a>,
        count: &'a Tallies,
        seat: Seat<(), Tally>,
        cords: Vec<Cord>,
    ) -> RingingLane<'a>
        requires fresh { (lane_view lane).told ≡ [] }
        requires own { seat.table_id ≡ count.now.shared.table_id }
        requires some { 0 < count.now.shared.table_id.words }
        requires none { seat.me.0 ≡ no_tally }
        requires loose { AreLoose (lane_view lane).sys cords.items }
        ensures begins { BeginsToRing (lane_view lane.entry) result }
        ensures cords { result.cords.items ≡ cords.items }
    {
        RingingLane {
            lane,
            count,
            seat,
            cords,
            opened: 0,
            refused: 0,
            found: None,
        }
    }

    /// The records of the lane so far.
    pub fn records(&self) -> &[Rec]
        ensures { lane_items result.now ≡ untold_all (ringing_view self.now).told }
    {
        self.lane.records()
    }

    /// The notes that its posts gave to object `a`: the posts on that queue.
    pub fn rings(&self, a: u8) -> u32
        ensures { result ≡ count_by (posts_on a) (ringing_view self.now).told }
    {
        pulls_of(self.cords.as_slice(), a) as u32
    }

    /// Whether its last look, or take, was at the queue of object `me`, and found it empty.
    pub fn has_found(&self, me: u8) -> bool
        ensures found { result ≡ true → self.now.found ≡ Some me }
        ensures told { self.now.found ≡ Some me → result ≡ true }
    {
        match self.found {
            Some(a) => a == me,
            None => false,
        }
    }

    /// What it found is used up.
    pub fn forget(&mut self)
        ensures { Forgets self.old self.new }
    {
        self.found = None;
    }

    /// Gives the lane back.
    pub fn done(self) -> SharedLane<'a>
        ensures { result ≡ self.entry.lane }
    {
        let RingingLane {
            lane,
            count: _,
            seat: _,
            cords: _,
            opened: _,
            refused: _,
            found: _,
        } = self;
        lane
    }
}
