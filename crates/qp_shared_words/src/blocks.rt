//! The steps on pools and blocks. Each is one atomic operation, under the rule of the event table.

ghost use Rattle.std.specs.Prelude.{◌≡◌, ℕ, ◌+◌, ◌-◌, ◌%◌, ◌^◌, ◌<◌, ◌≤◌, IsFalse, IsTrue, length};
ghost use Rattle.std.specs.List.{list_any};
ghost use Rattle.qp_model.specs.declared.words.Word.TheVariants as word;
ghost use Rattle.qp_model.specs.WordLaw.{is_pool};
ghost use Rattle.qp_table.specs.Counting.{many};
ghost use Rattle.qp_table.specs.Rule.{is_ref, is_spot, is_spot_at, fills_of, fills_with, IsContent, table_words};
ghost use Rattle.qp_table.specs.After.{HasRoom, ref};
ghost use Rattle.qp_table.specs.Words.{value_seen};
ghost use Rattle.qp_table.specs.Lane.{has_content};
ghost use Rattle.qp_table.specs.Asked.{size_of, is_unfinished, is_begun, is_asked};
ghost use Rattle.qp_table.specs.Told.{HasPlace, DropTold, FirstTold, FromTold, FillTold, ReadTold, EyePoolTold, IsLowest, GiveTold};

use crate::places::{block_at, event_at, pool_at};
use crate::steps::{About, NOTHING, Words, add, exchange, look, store};
use atomic_table::Seat;
use qp_base::{Ev, Steps};
use qp_table::{UNIT, View};
use std::marker::Brand;
use std::sync::ledger::Ledger;

/// The bit of a block in its pool's map.
pub fn bit_of(block: u8) -> u64
    requires { block < 32 }
    ensures value { result ≡ 2 ^ block }
    ensures most { result ≤ 2147483648 }
{
    1 << block
}

/// Drops a reference in hand, and answers the block's word as it was.
pub fn drop_reference(
    words: &Words,
    seat: &mut Seat<(), View>,
    by: u8,
    pool: u8,
    block: u8,
    name: u64,
) -> u64
    requires own { seat.old.table_id ≡ words.now.shared.table_id }
    requires wide { words.now.shared.table_id.words ≡ table_words }
    requires place { HasPlace pool block }
    requires room { HasRoom seat.old.me.0 }
    requires hand { 0 < many (is_ref pool block name) seat.old.me.0.hands }
    ensures same { (seat.new.table_id ≡ seat.old.table_id) × (seat.new.id ≡ seat.old.id) }
    ensures told { DropTold words.now.shared.key by pool block name seat.old.me.0 result seat.new.me.0 }
{
    let about = About {
        by,
        pool,
        block,
        name,
        ..NOTHING
    };
    add::<Brand>(words, seat, block_at(pool, block), UNIT - 1, about)
}

/// Makes the first reference to a fresh block whose give is finished, and answers its word as it was.
pub fn first_reference(words: &Words, seat: &mut Seat<(), View>, by: u8, pool: u8, block: u8) -> u64
    requires own { seat.old.table_id ≡ words.now.shared.table_id }
    requires wide { words.now.shared.table_id.words ≡ table_words }
    requires place { HasPlace pool block }
    requires room { HasRoom seat.old.me.0 }
    requires fresh { 0 < many (is_spot pool block) seat.old.me.0.fresh }
    requires begun { 0 < many (is_begun pool block) seat.old.me.0.gives }
    requires written { many (fills_of pool block) seat.old.me.0.fills ≡ 0 }
    ensures same { (seat.new.table_id ≡ seat.old.table_id) × (seat.new.id ≡ seat.old.id) }
    ensures told { FirstTold words.now.shared.key by pool block seat.old.me.0 result seat.new.me.0 }
{
    let about = About {
        by,
        pool,
        block,
        ..NOTHING
    };
    add::<Brand>(words, seat, block_at(pool, block), UNIT + 1, about)
}

/// Reads the word of a fresh block. Its number of operations is where the block's life begins.
pub fn read_beginning(words: &Words, seat: &mut Seat<(), View>, pool: u8, block: u8) -> u64
    requires own { seat.old.table_id ≡ words.now.shared.table_id }
    requires wide { words.now.shared.table_id.words ≡ table_words }
    requires place { HasPlace pool block }
    requires fresh { 0 < many (is_spot pool block) seat.old.me.0.fresh }
    ensures same { (seat.new.table_id ≡ seat.old.table_id) × (seat.new.id ≡ seat.old.id) }
    ensures told { (at : ℕ) → 0 < many (is_spot_at pool block at) seat.old.me.0.fresh → FromTold words.now.shared.key pool block at seat.old.me.0 result seat.new.me.0 }
{
    let about = About {
        pool,
        block,
        ..NOTHING
    };
    look::<Brand>(words, seat, block_at(pool, block), about)
}

/// Writes an event word of a fresh block, which its give asks for.
pub fn fill(words: &Words, seat: &mut Seat<(), View>, pool: u8, block: u8, place: u8, value: u64)
    requires own { seat.old.table_id ≡ words.now.shared.table_id }
    requires wide { words.now.shared.table_id.words ≡ table_words }
    requires place { HasPlace pool block }
    requires low { place < 9 }
    requires fresh { 0 < many (is_spot pool block) seat.old.me.0.fresh }
    requires left { 0 < many (fills_with pool block place value) seat.old.me.0.fills }
    requires asked { IsTrue (list_any (is_asked pool block place value) seat.old.me.0.gives) }
    ensures same { (seat.new.table_id ≡ seat.old.table_id) × (seat.new.id ≡ seat.old.id) }
    ensures told { FillTold pool block place value seat.old.me.0 value seat.new.me.0 }
{
    let about = About {
        to: place,
        pool,
        block,
        new: value,
        ..NOTHING
    };
    store::<Brand>(words, seat, event_at(pool, block, place), value, about)
}

/// Reads a word of the event of a reference in hand, which the lane has learned.
pub fn read_event(
    words: &Words,
    seat: &mut Seat<(), View>,
    pool: u8,
    block: u8,
    name: u64,
    place: u8,
) -> u64
    requires own { seat.old.table_id ≡ words.now.shared.table_id }
    requires wide { words.now.shared.table_id.words ≡ table_words }
    requires place { HasPlace pool block }
    requires low { place < 9 }
    requires hand { 0 < many (is_ref pool block name) seat.old.me.0.hands }
    requires known { IsTrue (has_content seat.old.me.0.contents (ref pool block name)) }
    ensures same { (seat.new.table_id ≡ seat.old.table_id) × (seat.new.id ≡ seat.old.id) }
    ensures told { ReadTold words.now.shared.key pool block name place seat.old.me.0 result seat.new.me.0 }
{
    let about = About {
        to: place,
        pool,
        block,
        name,
        ..NOTHING
    };
    look::<Brand>(words, seat, event_at(pool, block, place), about)
}

/// Looks at a pool for a give, with a record where at most the reserve is free.
pub fn look_at_pool(
    words: &Words,
    seat: &mut Seat<(), View>,
    by: u8,
    pool: u8,
    reserve: Option<u8>,
) -> u64
    requires own { seat.old.table_id ≡ words.now.shared.table_id }
    requires wide { words.now.shared.table_id.words ≡ table_words }
    requires small { pool < 16 }
    requires pool { IsTrue (is_pool words.now.shared.key pool) }
    requires room { HasRoom seat.old.me.0 }
    ensures same { (seat.new.table_id ≡ seat.old.table_id) × (seat.new.id ≡ seat.old.id) }
    ensures told { EyePoolTold words.now.shared.key pool by reserve seat.old.me.0 result seat.new.me.0 }
    ensures few { result < 9223372036854775808 }
{
    let about = About {
        by,
        pool,
        margin: reserve,
        ..NOTHING
    };
    look::<Brand>(words, seat, pool_at(pool), about)
}

/// Tries to give out the pool's lowest free block where the pool's word is `old`, as it was last seen, and answers the word that was found.
/// No give of the seat is unfinished. The try is counted.
pub fn try_give<L: Ledger>(
    words: &Words,
    seat: &mut Seat<(), View>,
    by: u8,
    pool: u8,
    reserve: Option<u8>,
    block: u8,
    ev: &Ev,
    old: u64,
    steps: &mut Steps<L>,
) -> u64
    requires own { seat.old.table_id ≡ words.now.shared.table_id }
    requires wide { words.now.shared.table_id.words ≡ table_words }
    requires small { (pool < 16) × (block < 32) × (old < 9223372036854775808) }
    requires pool { IsTrue (is_pool words.now.shared.key pool) }
    requires room { HasRoom seat.old.me.0 }
    requires fits { length ev.now.pars.items ≤ size_of words.now.shared.key pool }
    requires done { IsFalse (list_any (is_unfinished seat.old.me.0.fills) seat.old.me.0.gives) }
    requires content { IsContent words.now.shared.key ev.now.sig ev.now.pars.items }
    requires last { value_seen words.now.shared.key (word.Pool pool) seat.old.me.0.seen ≡ old }
    requires lowest { IsLowest block (old % 4294967296) }
    ensures same { (seat.new.table_id ≡ seat.old.table_id) × (seat.new.id ≡ seat.old.id) }
    ensures counted { steps.new ≡ steps.old + 1 }
    ensures told { GiveTold words.now.shared.key pool by reserve block ev.now.sig ev.now.pars.items seat.old.me.0 old (old + 4294967296 - 2 ^ block) result seat.new.me.0 }
    ensures few { result < 9223372036854775808 }
{
    steps.step();
    let about = About {
        by,
        pool,
        block,
        old,
        margin: reserve,
        ..NOTHING
    };
    exchange::<Brand, (About, &Ev)>(
        words,
        seat,
        pool_at(pool),
        old,
        old + UNIT - bit_of(block),
        (about, ev),
    )
}
