//! The parkers of a system and the count of what keeps their threads awake.

ghost use Rattle.std.specs.Prelude.{◌≡◌, ◌<◌, [], map, IfOk, IfSome, OnErr, IfErr};
ghost use Rattle.qp_model.specs.Sources.{priorities};
ghost use Rattle.qp_wait_rings.specs.Handed.{lane_view};

use crate::closings::Closings;
use crate::farewells::Farewells;
use crate::hanging::{Rope, Waking, add_cords, hang, perch_of};
use crate::lane::BellLane;
use atomic_table::Seat;
use qp_base::Memory;
use qp_model::System;
use qp_wait_bells::{Tallies, Tally, new_tallies, seat_of};
use qp_wait_rings::{Cord, RingingLane, SharedLane};
use std::alloc::Global;

/// What threads share: a parker for each object, and a count of the sources that aren't at their end and of the entries that were
/// claimed and whose step isn't finished.
#[derive(Drop)]
pub struct Bells {
    pub(crate) count: Tallies,
    pub(crate) wakers: Vec<Waking>,
    ghost some: { 0 < count.shared.table_id.words },
}

/// The first seat on the count and the first pass on each parker. What lanes have is split from it.
#[derive(Drop)]
pub struct BellRoot {
    pub(crate) seat: Seat<(), Tally>,
    pub(crate) ropes: Vec<Rope>,
}

/// Memory was refused: the lane comes back.
#[derive(Drop)]
pub struct BellFault<'a> {
    pub lane: SharedLane<'a>,
}

impl Bells {
    ghost use Rattle.qp_wait.specs.Rooted.{AreBellsOf, AreLooseFor, HangsOn, IsBellRootOf};
    ghost use Rattle.qp_wait.specs.Lane.{IsNewBellLane};

    /// The bells of a system, on whose count is nothing, and their root.
    pub fn new(alloc: Global, sys: &System) -> Result<(Bells, BellRoot), Memory>
        ensures bells { IfOk result (λ b. AreBellsOf sys.now b.0) }
        ensures root { IfOk result (λ b. IsBellRootOf b.0 b.1) }
    {
        let mut wakers = Vec::new(alloc);
        let mut ropes = Vec::new(alloc);
        hang(alloc, sys.objects.items.as_slice(), &mut wakers, &mut ropes)?;
        let Ok((count, seat)) = new_tallies(alloc) else {
            return Err(Memory);
        };
        Ok((Bells { count, wakers }, BellRoot { seat, ropes }))
    }

    /// A cord for each object.
    fn cords(&self, alloc: Global, root: &mut BellRoot) -> Result<Vec<Cord>, Memory>
        requires root { IsBellRootOf self.now root.old }
        ensures root { IsBellRootOf self.now root.new }
        ensures cords { IfOk result (λ cs. AreLooseFor self.now cs.items) }
    {
        let mut cords = Vec::new(alloc);
        add_cords(
            self.wakers.as_slice(),
            root.ropes.as_mut_slice(),
            &mut cords,
        )?;
        Ok(cords)
    }

    /// Wraps a lane without records, whose posts ring. It gets the parker of object `me`, unless another lane has it; 0 is for a lane that
    /// parks for none. Want of memory alone refuses it.
    pub fn bell<'a>(
        &'a self,
        alloc: Global,
        root: &mut BellRoot,
        lane: SharedLane<'a>,
        me: u8,
    ) -> Result<BellLane<'a>, BellFault<'a>>
        requires root { IsBellRootOf self.now root.old }
        requires fresh { (lane_view lane).told ≡ [] }
        requires system { AreBellsOf (lane_view lane).sys self.now }
        ensures root { IsBellRootOf self.now root.new }
        ensures begins { IfOk result (IsNewBellLane (lane_view lane.entry)) }
        ensures hangs { IfOk result (HangsOn self.now) }
        ensures parks { IfOk result (λ l. IfSome l.perch (λ p. p.object ≡ me)) }
        ensures refused { IfErr result (λ fault. fault.lane ≡ lane.entry) }
    {
        let Ok(posts) = self.cords(alloc, root) else {
            return Err(BellFault { lane });
        };
        let Ok(cords) = self.cords(alloc, root) else {
            return Err(BellFault { lane });
        };
        let perch = perch_of(alloc, self.wakers.as_slice(), root.ropes.as_mut_slice(), me);
        let seat = seat_of(&self.count, &mut root.seat);
        let closing = seat_of(&self.count, &mut root.seat);
        let ringing = RingingLane::new(lane, &self.count, seat, posts);
        Ok(BellLane {
            ringing,
            farewells: Farewells { cords, said: 0 },
            closings: Closings {
                count: &self.count,
                seat: closing,
                ended: 0,
            },
            perch,
        })
    }
}
