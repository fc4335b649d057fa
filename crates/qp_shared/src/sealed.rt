//! A journal of all lanes of a table.

ghost use Rattle.std.specs.Prelude.{◌≡◌, ◌≤◌, [], map, length, IfOk};
ghost use Rattle.std.specs.Vec.{vec_capacity};
ghost use Rattle.qp_port_law.specs.Sealed.{SealsLanes};
ghost use Rattle.qp_shared.specs.Lane.{lane_view, shared_records};
ghost use Rattle.qp_shared.specs.Ending.{AreAll};
ghost use Rattle.qp_shared.specs.WasSealed.{WasSealed, WasSealed-prop, WasSealedFor};

use crate::ending::{end_of, gather};
use crate::lane::SharedLane;
use crate::shared::Shared;
use qp_base::Memory;
use qp_calls_log::Log;
use qp_model::{Journal, Lane, Lanes};
use qp_shared_ends::table;
use qp_shared_lane::{LaneState, SideSeat};

/// A journal into which all lanes of one table were sealed, and which carries that it is so.
#[derive(Drop)]
pub struct Sealed {
    journal: Journal,
    ghost of: { WasSealed journal } by { WasSealed-prop journal },
}

impl Sealed {
    /// The journal.
    pub fn journal(&self) -> &Journal
        ensures is { result.now ≡ self.now.journal }
        ensures of { WasSealed result.now }
    {
        &self.journal
    }
}

impl Shared<'_> {
    /// The lanes that the root became, all of them and in any order, end: their records are sealed into a journal, one lane after
    /// another. After a refusal the lanes are gone.
    pub fn finish(
        &self,
        lanes: Vec<SharedLane<'_>>,
        kernel: u8,
        budget: u32,
    ) -> Result<Sealed, Memory>
        requires all { AreAll self.now (map lane_view lanes.items) }
        ensures records { IfOk result (λ s. s.journal.lanes ≡ map shared_records lanes.entry.items) }
        ensures seals { IfOk result (λ s. SealsLanes self.now.sys.now kernel budget (map lane_view lanes.entry.items) s.journal) }
        ensures sealed { IfOk result (λ s. WasSealedFor self.now.sys.now s.journal) }
    {
        let Ok(room) = Vec::with_capacity(self.alloc, lanes.len()) else {
            return Err(Memory);
        };
        let journal = self.seal(lanes, room, kernel, budget);
        Ok(Sealed { journal })
    }

    fn seal(&self, lanes: Vec<SharedLane<'_>>, room: Vec<Lane>, kernel: u8, budget: u32) -> Journal
        requires all { AreAll self.now (map lane_view lanes.items) }
        requires empty { room.items ≡ [] }
        requires room { length lanes.items ≤ vec_capacity room }
        ensures records { result.lanes ≡ map shared_records lanes.entry.items }
        ensures seals { SealsLanes self.now.sys.now kernel budget (map lane_view lanes.entry.items) result }
    {
        let mut others = lanes;
        let mut records = room;
        let SharedLane { state } = others.remove(0);
        let LaneState {
            mut seat,
            side,
            log,
            ..
        } = state;
        let SideSeat {
            seat: mut beside,
            ..
        } = side;
        let Log { recs, .. } = log;
        records.push_reserved(Lane { items: recs });
        let records = gather(
            &self.words,
            &self.side,
            &mut seat,
            &mut beside,
            others,
            records,
        );
        table::know_end(&self.words, &mut seat);
        qp_side::words::know_whole(&self.side, &mut beside);
        let lanes = Lanes { items: records };
        let end = end_of(&lanes);
        Journal {
            kernel,
            budget,
            lanes,
            end,
        }
    }
}
