//! The lines of pools.

ghost use Rattle.std.specs.Prelude.{ℕ, ◌≡◌, ◌++◌, codes, decimal, IfOk, List, string_bytes};
ghost use Rattle.qp_model.specs.History.{all_items};
ghost use Rattle.qp_model.specs.OutputSummary.{pool_line, pool_lines};
ghost use Rattle.qp_model.specs.Record.{Item};
ghost use Rattle.qp_summary.specs.Counting.{AreBlocks};

use crate::Blocks;
use crate::lines::Lines;
use qp_model::{Journal, System};
use std::alloc::{AllocError, Global};

fn line_of(alloc: Global, p: u64, given: usize, back: usize) -> Result<String, AllocError>
    ensures { IfOk result (λ line. string_bytes line ≡ codes "pool " ++ decimal p ++ codes " given " ++ decimal given ++ codes " back " ++
        decimal back ++ codes "\n") }
{
    format!(in alloc; "pool {p} given {given} back {back}\n")
}

/// The line of a pool. A count that a `usize` can't hold finds no memory.
fn pool_line(alloc: Global, blocks: &Blocks, p: u64) -> Result<String, AllocError>
    ensures { IfOk result (λ line. (size : ℕ) (items : List Item) → AreBlocks size blocks.now items → string_bytes line ≡ pool_line items p) }
{
    match blocks.given(p) {
        Some(given) => match blocks.back(p) {
            Some(back) => line_of(alloc, p, given, back),
            None => Err(AllocError),
        },
        None => Err(AllocError),
    }
}

/// The lines of all pools.
pub(crate) fn pool_lines(alloc: Global, sys: &System, j: &Journal) -> Result<Lines, AllocError>
    ensures { IfOk result (λ lines. lines ≡ pool_lines (all_items j.now.lanes) 1 sys.now.pools) }
{
    let count = sys.pools.items.len();
    let blocks = Blocks::of(alloc, &j.lanes.items, count.saturating_add(1))?;
    let mut lines = Lines::none(alloc);
    for i in 0..count {
        lines.push(pool_line(alloc, &blocks, i as u64 + 1)?)?;
    }
    Ok(lines)
}
