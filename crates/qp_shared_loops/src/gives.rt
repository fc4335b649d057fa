//! Gives: the lowest free block of a pool is given out by tries, until a try succeeds or too few blocks are free; then its event is
//! written, and its own word is looked at.

ghost use Rattle.std.specs.Prelude.{◌≡◌, ◌+◌, ◌%◌, ◌<◌, ◌≤◌, ℕ, [], ◌∷◌, IsFalse, IsTrue, get_or, length};
ghost use Rattle.std.specs.List.{list_any};
ghost use Rattle.qp_model.specs.declared.words.Word.TheVariants as word;
ghost use Rattle.qp_model.specs.WordLaw.{is_pool};
ghost use Rattle.qp_table.specs.Counting.{many};
ghost use Rattle.qp_table.specs.Rule.{pool_at, mark_in, is_spot, IsContent, table_words};
ghost use Rattle.qp_table.specs.After.{HasRoom, fills_for};
ghost use Rattle.qp_table.specs.Words.{value_seen};
ghost use Rattle.qp_table.specs.Asked.{size_of, is_unfinished, is_asked};
ghost use Rattle.qp_table.specs.Told.{free_of, HasPlace, IsLowest};
ghost use Rattle.qp_shared_loops.specs.Ends.{BlockEnds, GiveEnds, filling};

use atomic_table::Seat;
use qp_base::{Ev, Steps};
use qp_shared_words::Words;
use qp_shared_words::blocks::{fill, look_at_pool, read_beginning, try_give};
use qp_table::{UNIT, View};
use std::sync::ledger::Ledger;

/// A block that was given out, and the number of operations of its word at which its life begins.
#[derive(Clone, Copy, Drop)]
pub struct Life {
    pub block: u8,
    pub from: u64,
}

/// How many blocks are free by a pool's word.
pub fn free_of(word: u64) -> u8
    ensures { result ≡ free_of word }
{
    ((word % UNIT) as u32).count_ones() as u8
}

/// The lowest free block by a pool's word.
fn lowest(word: u64) -> u8
    requires some { 0 < free_of word }
    ensures lowest { IsLowest result (word % 4294967296) }
    ensures within { result < 32 }
{
    ((word % UNIT) as u32).trailing_zeros() as u8
}

/// Gives out the lowest free block, where more blocks are free than the reserve and no give is unfinished. Its event is still to be written.
fn give_lowest<L: Ledger>(
    words: &Words,
    seat: &mut Seat<(), View>,
    by: u8,
    pool: u8,
    reserve: Option<u8>,
    ev: &Ev,
    steps: &mut Steps<L>,
) -> (u64, Option<u8>)
    requires own { seat.old.table_id ≡ words.now.shared.table_id }
    requires wide { words.now.shared.table_id.words ≡ table_words }
    requires small { pool < 16 }
    requires pool { IsTrue (is_pool words.now.shared.key pool) }
    requires room { HasRoom seat.old.me.0 }
    requires fits { length ev.now.pars.items ≤ size_of words.now.shared.key pool }
    requires done { IsFalse (list_any (is_unfinished seat.old.me.0.fills) seat.old.me.0.gives) }
    requires content { IsContent words.now.shared.key ev.now.sig ev.now.pars.items }
    ensures same { (seat.new.table_id ≡ seat.old.table_id) × (seat.new.id ≡ seat.old.id) }
    ensures ends { BlockEnds words.now.shared.key pool by reserve ev.now.sig ev.now.pars.items seat.old.me.0 result.0 result.1 seat.new.me.0 }
    ensures up { steps.old ≤ steps.new }
    ensures tries { steps.new + mark_in (pool_at pool) (value_seen words.now.shared.key (word.Pool pool) seat.old.me.0.seen) ≤ steps.old + 1 + mark_in (pool_at pool) result.0 }
{
    let least = reserve.unwrap_or(0);
    let mut found = look_at_pool(words, seat, by, pool, reserve);
    if free_of(found) <= least {
        return (found, None);
    }
    loop {
        let block = lowest(found);
        let now = try_give(words, seat, by, pool, reserve, block, ev, found, steps);
        if now == found {
            return (now, Some(block));
        }
        if free_of(now) <= least {
            return (now, None);
        }
        found = now;
    }
}

/// Writes the event of a block that was given out: its signal, then its parameters.
fn write_event(words: &Words, seat: &mut Seat<(), View>, pool: u8, block: u8, ev: &Ev)
    requires own { seat.old.table_id ≡ words.now.shared.table_id }
    requires wide { words.now.shared.table_id.words ≡ table_words }
    requires place { HasPlace pool block }
    requires fresh { 0 < many (is_spot pool block) seat.old.me.0.fresh }
    requires left { seat.old.me.0.fills ≡ fills_for pool block 0 (ev.now.sig ∷ ev.now.pars.items) }
    requires asked { (j : ℕ) → j < length (ev.now.sig ∷ ev.now.pars.items) → IsTrue (list_any (is_asked pool block j (get_or (ev.now.sig ∷ ev.now.pars.items) j 0)) seat.old.me.0.gives) }
    ensures same { (seat.new.table_id ≡ seat.old.table_id) × (seat.new.id ≡ seat.old.id) }
    ensures written { seat.new.me.0 ≡ filling [] seat.old.me.0 }
{
    fill(words, seat, pool, block, 0, u64::from(ev.sig));
    let pars = ev.pars.as_slice();
    for (at, value) in pars.iter().enumerate() {
        fill(words, seat, pool, block, at as u8 + 1, *value);
    }
}

/// Gives out the lowest free block of a pool for an event, where more blocks are free than the reserve, None counting as 0.
/// It looks, and then tries until the word is still as it was last seen, or shows too few free blocks; a block that is given
/// out gets its event, and its word is looked at, so the give is finished. Answers the pool's word as it was when the block was given
/// out or too few were free, and the block.
///
/// Tries are at most one more than others made operations on the word meanwhile.
pub fn give_block<L: Ledger>(
    words: &Words,
    seat: &mut Seat<(), View>,
    by: u8,
    pool: u8,
    reserve: Option<u8>,
    ev: &Ev,
    steps: &mut Steps<L>,
) -> (u64, Option<Life>)
    requires own { seat.old.table_id ≡ words.now.shared.table_id }
    requires wide { words.now.shared.table_id.words ≡ table_words }
    requires small { pool < 16 }
    requires pool { IsTrue (is_pool words.now.shared.key pool) }
    requires room { HasRoom seat.old.me.0 }
    requires fits { length ev.now.pars.items ≤ size_of words.now.shared.key pool }
    requires done { IsFalse (list_any (is_unfinished seat.old.me.0.fills) seat.old.me.0.gives) }
    requires content { IsContent words.now.shared.key ev.now.sig ev.now.pars.items }
    requires still { seat.old.me.0.fills ≡ [] }
    ensures same { (seat.new.table_id ≡ seat.old.table_id) × (seat.new.id ≡ seat.old.id) }
    ensures ends { GiveEnds words.now.shared.key pool by reserve ev.now.sig ev.now.pars.items seat.old.me.0 result.0 result.1 seat.new.me.0 }
    ensures up { steps.old ≤ steps.new }
    ensures tries { steps.new + mark_in (pool_at pool) (value_seen words.now.shared.key (word.Pool pool) seat.old.me.0.seen) ≤ steps.old + 1 + mark_in (pool_at pool) result.0 }
{
    let (found, given) = give_lowest(words, seat, by, pool, reserve, ev, steps);
    match given {
        Some(block) => {
            write_event(words, seat, pool, block, ev);
            let from = read_beginning(words, seat, pool, block) / UNIT;
            (found, Some(Life { block, from }))
        }
        None => (found, None),
    }
}
