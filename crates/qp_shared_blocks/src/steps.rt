//! Steps on blocks that tell more than those of qp_shared_words: another reference, and that by which a used block comes back. Each is one
//! of its atomic operations.

ghost use Rattle.std.specs.Prelude.{◌≡◌, ◌<◌};
ghost use Rattle.qp_table.specs.Counting.{many};
ghost use Rattle.qp_table.specs.Rule.{is_ref, is_spot_at, table_words};
ghost use Rattle.qp_table.specs.After.{HasRoom};
ghost use Rattle.qp_table.specs.Told.{HasPlace};
ghost use Rattle.qp_shared_blocks.specs.Ends.{AnotherTold, ReturnTold};

use atomic_table::Seat;
use qp_shared_words::Words;
use qp_shared_words::blocks::bit_of;
use qp_shared_words::places::{block_at, pool_at};
use qp_shared_words::steps::{About, NOTHING, add};
use qp_table::{UNIT, View};
use std::marker::Brand;

/// Puts back a used block, whose life ended at `at` operations, and answers the pool's word as it was.
pub fn put_back(
    words: &Words,
    seat: &mut Seat<(), View>,
    by: u8,
    pool: u8,
    block: u8,
    at: u64,
) -> u64
    requires own { seat.old.table_id ≡ words.now.shared.table_id }
    requires wide { words.now.shared.table_id.words ≡ table_words }
    requires place { HasPlace pool block }
    requires room { HasRoom seat.old.me.0 }
    requires used { 0 < many (is_spot_at pool block at) seat.old.me.0.used }
    ensures same { (seat.new.table_id ≡ seat.old.table_id) × (seat.new.id ≡ seat.old.id) }
    ensures told { ReturnTold words.now.shared.key by pool block at seat.old.me.0 result seat.new.me.0 }
{
    let about = About {
        by,
        pool,
        block,
        old: at,
        ..NOTHING
    };
    add::<Brand>(words, seat, pool_at(pool), UNIT + bit_of(block), about)
}

/// Makes a reference beside the one in hand, and answers the block's word as it was.
pub(crate) fn another(
    words: &Words,
    seat: &mut Seat<(), View>,
    by: u8,
    pool: u8,
    block: u8,
    name: u64,
) -> u64
    requires own { seat.old.table_id ≡ words.now.shared.table_id }
    requires wide { words.now.shared.table_id.words ≡ table_words }
    requires place { HasPlace pool block }
    requires room { HasRoom seat.old.me.0 }
    requires hand { 0 < many (is_ref pool block name) seat.old.me.0.hands }
    ensures same { (seat.new.table_id ≡ seat.old.table_id) × (seat.new.id ≡ seat.old.id) }
    ensures told { AnotherTold words.now.shared.key by pool block seat.old.me.0 result seat.new.me.0 }
{
    let about = About {
        by,
        pool,
        block,
        name,
        ..NOTHING
    };
    add::<Brand>(words, seat, block_at(pool, block), 4294967297, about)
}
