//! The words where nothing has happened.

ghost use Rattle.std.specs.Prelude.{◌≡◌, ℕ, ◌<◌, IfOk, length, slice_index};
ghost use Rattle.qp_model.specs.Sound.{IsSound};
ghost use Rattle.qp_table.specs.After.{newcomer};
ghost use Rattle.qp_table.specs.Whole.{later_lanes};
ghost use Rattle.qp_table.specs.First.{all_free, first_word, first_serves};
ghost use Rattle.qp_table.specs.Rule.{table_words};

use crate::steps::Words;
use atomic_table::{Seat, Table};
use qp_base::Memory;
use qp_model::System;
use qp_table::View;
use std::alloc::Global;

/// The map of so many blocks, all free.
fn all_free(blocks: u8) -> u64
    ensures { result ≡ all_free blocks }
{
    if blocks < 64 { (1 << blocks) - 1 } else { 0 }
}

/// A word where nothing has happened: all blocks are free.
fn first_word(sys: &System, at: usize) -> u64
    ensures { result ≡ first_word sys.now at }
{
    if at >= 128 || at % 8 != 0 {
        return 0;
    }
    let pool = at / 8;
    if 0 < pool && pool <= sys.pools.items.len() {
        all_free(sys.blocks_of(pool as u64))
    } else {
        0
    }
}

/// All words where nothing has happened.
fn first_words(alloc: Global, sys: &System) -> Result<Vec<u64>, Memory>
    ensures wide { IfOk result (λ w. length w.items ≡ table_words) }
    ensures each { IfOk result (λ w. (k : ℕ) → k < table_words → slice_index w.items k ≡ first_word sys.now k) }
{
    let mut items = Vec::new(alloc);
    for at in 0..21128 {
        items.push(first_word(sys, at)).map_err(|_| Memory)?;
    }
    Ok(items)
}

/// The words of a system where nothing has happened, and the seat of a view that has lane 0, all other lane numbers, and serves
/// every object.
pub fn new_words(alloc: Global, sys: &System) -> Result<(Words, Seat<(), View>), Memory>
    requires sound { IsSound sys.now }
    ensures wide { IfOk result (λ t. t.0.shared.table_id.words ≡ table_words) }
    ensures key { IfOk result (λ t. t.0.shared.key ≡ sys.now) }
    ensures seat { IfOk result (λ t. (t.1.table_id ≡ t.0.shared.table_id) × (t.1.id ≡ 0)) }
    ensures view { IfOk result (λ t. t.1.me.0 ≡ newcomer later_lanes (first_serves sys.now 32)) }
{
    let words = first_words(alloc, sys)?;
    Table::of_words(alloc, words.as_slice(), sys).map_err(|_| Memory)
}
