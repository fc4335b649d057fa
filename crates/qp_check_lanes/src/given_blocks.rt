//! The operations of a pool by the blocks that they give out or back.

ghost use Rattle.std.specs.Prelude.{◌≡◌, ℕ, IfOk};
ghost use Rattle.qp_model.specs.Record.{item_of};
ghost use Rattle.qp_check_lanes.specs.GivenBlocks.{block_key};
ghost use Rattle.qp_check_lanes.specs.Groups.{of_key};
ghost use Rattle.qp_check_lanes.specs.Rows.{records_of_key};

use crate::groups::Group;
use crate::rows::KeyedRecords;
use qp_model::{Body, Rec};
use std::alloc::{AllocError, Global};
use std::marker::Model;

/// The operations of a pool, and those on each block. Contracts see the operations of the pool.
#[derive(Drop)]
pub struct GivenBlocks<'a> {
    pool: Group<'a>,
    rows: KeyedRecords<'a>,
    none: Group<'a>,
}

impl<'a> Model for GivenBlocks<'a> {
    ghost use Rattle.std.specs.Prelude.{List};
    ghost use Rattle.qp_model.specs.Record.{Item};
    ghost use Rattle.qp_check_lanes.specs.GivenBlocks.{HasGivesByBlock};

    ghost Value = { List Item };

    ghost view = { λ g. g.pool };

    ghost invariant = { λ g. HasGivesByBlock g.pool g.rows g.none };
}

/// The block that a record gives out or back.
#[tactic(auto, unfolding(qp_model::specs::Record::item_of))]
fn given_block(r: &Rec) -> Option<u64>
    ensures { result ≡ block_key (item_of r.now) }
{
    match r.body() {
        Body::New { b, .. } | Body::Back { b, .. } => Some(b),
        _ => None,
    }
}

fn rows_of<'a>(alloc: Global, pool: &Group<'a>) -> Result<KeyedRecords<'a>, AllocError>
    ensures { IfOk result (λ x. (b : ℕ) → records_of_key x (b, 0, 0) ≡ of_key block_key b pool.now) }
{
    let mut rows = KeyedRecords::none(alloc);
    for r in &pool.items {
        match given_block(r) {
            Some(b) => rows.put(alloc, (b, 0, 0), r)?,
            None => {}
        }
    }
    Ok(rows)
}

impl<'a> GivenBlocks<'a> {
    /// By the operations of a pool, in one pass over them.
    pub fn of(alloc: Global, pool: Group<'a>) -> Result<Self, AllocError>
        ensures { IfOk result (λ g. g ≡ pool.entry) }
    {
        let rows = rows_of(alloc, &pool)?;
        Ok(GivenBlocks {
            pool,
            rows,
            none: Group::new(alloc),
        })
    }

    /// The operations of the pool.
    pub fn all(&self) -> &Group<'a>
        ensures { result.now ≡ self.now }
    {
        &self.pool
    }

    /// Those that give this block out or back.
    pub fn on(&self, b: u64) -> &Group<'a>
        ensures { result.now ≡ of_key block_key b self.now }
    {
        self.rows.at((b, 0, 0), &self.none)
    }
}
