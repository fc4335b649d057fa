//! How many steps the objects of a lane began and ended.

ghost use Rattle.std.specs.Prelude.{◌≡◌, ◌++◌, ◌∷◌, [], nat_lt, IfOk, List};
ghost use Rattle.qp_model.specs.OutputSummary.{is_done_record, is_took};
ghost use Rattle.qp_model.specs.History.{lane_items};
ghost use Rattle.qp_model.specs.Record.{Item, body_of, item_of};
ghost use Rattle.qp_summary.specs.Counting.{AreTurns, IsTold, done_of, took_of};

use crate::counts::Counts;
use qp_model::{Body, Rec, kinds};
use std::alloc::{AllocError, Global};

/// One more than the highest priority.
const PRIORITIES: usize = 33;

/// How many events each object took, and how often it was done, by priority.
#[derive(Drop)]
pub struct TurnCounts {
    taken: Counts,
    done: Counts,
}

/// Whether the object of the record takes an event.
fn is_took(r: &Rec) -> bool
    ensures { result ≡ is_took (body_of r.now) }
{
    r.kind == kinds::TOOK && matches!(r.body(), Body::Took { .. })
}

/// Whether it is done with its start or a step.
fn is_done(r: &Rec) -> bool
    ensures { result ≡ is_done_record (body_of r.now) }
{
    r.kind == kinds::DONE && matches!(r.body(), Body::Done)
}

impl TurnCounts {
    fn none(alloc: Global) -> Result<Self, AllocError>
        ensures { IfOk result (λ turns. AreTurns turns []) }
    {
        Ok(TurnCounts {
            taken: Counts::none(alloc, PRIORITIES)?,
            done: Counts::none(alloc, PRIORITIES)?,
        })
    }

    /// Counts a record more.
    fn add(&mut self, r: &Rec)
        ensures { (items : List Item) → AreTurns self.old items → AreTurns self.new (items ++ item_of r.now ∷ []) }
    {
        if is_took(r) {
            self.taken.add(usize::from(r.of));
        } else if is_done(r) {
            self.done.add(usize::from(r.of));
        }
    }

    /// Those of the records of a lane.
    pub fn of(alloc: Global, lane: &[Rec]) -> Result<Self, AllocError>
        ensures { IfOk result (λ turns. AreTurns turns (lane_items lane.now)) }
    {
        let mut turns = TurnCounts::none(alloc)?;
        for r in lane {
            turns.add(r);
        }
        Ok(turns)
    }

    /// How many events the object of this priority took; None exactly for what is no priority, and where a `usize` can't hold one more.
    pub fn taken(&self, p: u8) -> Option<usize>
        ensures { (items : List Item) → AreTurns self.now items → IsTold (nat_lt p 33) (took_of p) items result }
    {
        self.taken.at(usize::from(p))
    }

    /// How often its start or a step of it was done.
    pub fn done(&self, p: u8) -> Option<usize>
        ensures { (items : List Item) → AreTurns self.now items → IsTold (nat_lt p 33) (done_of p) items result }
    {
        self.done.at(usize::from(p))
    }
}
