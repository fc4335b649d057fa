//! How many blocks the pools gave and got back.

ghost use Rattle.std.specs.Prelude.{ℕ, ◌≡◌, ◌++◌, ◌∷◌, [], nat_lt, IfOk, List};
ghost use Rattle.qp_model.specs.History.{all_items, lane_items};
ghost use Rattle.qp_model.specs.Record.{Item, body_of, item_of};
ghost use Rattle.qp_summary.specs.Counting.{AreBlocks, IsTold, pool_gets_back, pool_gives, giver, taker};

use crate::counts::Counts;
use qp_model::{Body, Lane, Rec, kinds};
use std::alloc::{AllocError, Global};

/// How many blocks each pool gave, and how many came back, by its number.
#[derive(Drop)]
pub struct Blocks {
    given: Counts,
    back: Counts,
}

/// The pool that gives a block.
fn giver(r: &Rec) -> Option<u64>
    ensures { result ≡ giver (body_of r.now) }
{
    if r.kind != kinds::NEW {
        return None;
    }
    match r.body() {
        Body::New { p, .. } => Some(p),
        _ => None,
    }
}

/// The pool that gets a block back.
fn taker(r: &Rec) -> Option<u64>
    ensures { result ≡ taker (body_of r.now) }
{
    if r.kind != kinds::BACK {
        return None;
    }
    match r.body() {
        Body::Back { p, .. } => Some(p),
        _ => None,
    }
}

impl Blocks {
    fn none(alloc: Global, size: usize) -> Result<Self, AllocError>
        ensures { IfOk result (λ blocks. AreBlocks size blocks []) }
    {
        Ok(Blocks {
            given: Counts::none(alloc, size)?,
            back: Counts::none(alloc, size)?,
        })
    }

    /// Counts a record more.
    fn add(&mut self, r: &Rec)
        ensures { (size : ℕ) (items : List Item) → AreBlocks size self.old items → AreBlocks size self.new (items ++ item_of r.now ∷ []) }
    {
        match giver(r) {
            Some(p) => self.given.add(p as usize),
            None => match taker(r) {
                Some(p) => self.back.add(p as usize),
                None => {}
            },
        }
    }

    /// Counts the records of a lane more.
    fn add_lane(&mut self, lane: &[Rec])
        ensures { (size : ℕ) (items : List Item) → AreBlocks size self.old items → AreBlocks size self.new (items ++ lane_items lane.now) }
    {
        for r in lane {
            self.add(r);
        }
    }

    /// Those of the records of all lanes, for pools below this number.
    pub fn of(alloc: Global, lanes: &[Lane], size: usize) -> Result<Self, AllocError>
        ensures { IfOk result (λ blocks. AreBlocks size blocks (all_items lanes.now)) }
    {
        let mut blocks = Blocks::none(alloc, size)?;
        for lane in lanes {
            blocks.add_lane(&lane.items);
        }
        Ok(blocks)
    }

    /// How many blocks the pool gave; None exactly for a pool past those that are counted, and where a `usize` can't hold one more.
    pub fn given(&self, p: u64) -> Option<usize>
        ensures { (size : ℕ) (items : List Item) → AreBlocks size self.now items → IsTold (nat_lt p size) (pool_gives p) items result }
    {
        self.given.at(p as usize)
    }

    /// How many came back.
    pub fn back(&self, p: u64) -> Option<usize>
        ensures { (size : ℕ) (items : List Item) → AreBlocks size self.now items → IsTold (nat_lt p size) (pool_gets_back p) items result }
    {
        self.back.at(p as usize)
    }
}
