//! The steps on queues and their cells. Each is one atomic operation, under the rule of the event table.

ghost use Rattle.std.specs.Prelude.{◌≡◌, ◌+◌, ◌/◌, ◌<◌, ◌≤◌, IsTrue};
ghost use Rattle.std.specs.Option.{unwrap_or};
ghost use Rattle.qp_model.specs.declared.words.Word.TheVariants as word;
ghost use Rattle.qp_model.specs.Sites.{ring_of};
ghost use Rattle.qp_model.specs.WordLaw.{is_object};
ghost use Rattle.qp_table.specs.Counting.{many};
ghost use Rattle.qp_table.specs.Rule.{is_place, code, table_words};
ghost use Rattle.qp_table.specs.After.{HasRoom, InHand};
ghost use Rattle.qp_table.specs.QueueLaws.{cells_of};
ghost use Rattle.qp_table.specs.Words.{value_seen};
ghost use Rattle.qp_shared_words.specs.Fronts.{KnowsFront};
ghost use Rattle.qp_shared_words.specs.Nils.{is_new};
ghost use Rattle.qp_table.specs.Asked.{IsOldest};
ghost use Rattle.qp_table.specs.Told.{LookTold, SeenTold, NilTold, EyeTold, free_in, TryTold, LayTold, SwapTold};

use crate::places::{cell_at, queue_at};
use crate::steps::{About, NOTHING, Words, exchange, look, store, swap};
use atomic_table::Seat;
use qp_base::Steps;
use qp_calls::Counts;
use qp_table::View;
use std::marker::Brand;
use std::sync::ledger::Ledger;

/// Looks at a queue.
pub fn look_at_queue(words: &Words, seat: &mut Seat<(), View>, object: u8) -> u64
    requires own { seat.old.table_id ≡ words.now.shared.table_id }
    requires wide { words.now.shared.table_id.words ≡ table_words }
    requires object { IsTrue (is_object words.now.shared.key object) }
    ensures same { (seat.new.table_id ≡ seat.old.table_id) × (seat.new.id ≡ seat.old.id) }
    ensures told { LookTold words.now.shared.key object seat.old.me.0 result seat.new.me.0 }
{
    let about = About {
        to: object,
        ..NOTHING
    };
    look::<Brand>(words, seat, queue_at(object), about)
}

/// Looks at a queue, with a record of its counts.
pub fn see_queue(words: &Words, seat: &mut Seat<(), View>, object: u8) -> u64
    requires own { seat.old.table_id ≡ words.now.shared.table_id }
    requires wide { words.now.shared.table_id.words ≡ table_words }
    requires object { IsTrue (is_object words.now.shared.key object) }
    requires room { HasRoom seat.old.me.0 }
    ensures same { (seat.new.table_id ≡ seat.old.table_id) × (seat.new.id ≡ seat.old.id) }
    ensures told { SeenTold words.now.shared.key object seat.old.me.0 result seat.new.me.0 }
{
    let about = About {
        to: object,
        ..NOTHING
    };
    look::<Brand>(words, seat, queue_at(object), about)
}

/// Looks at a queue for a take, with a record where it is empty, unless the last such record has these counts.
pub fn look_before_take(
    words: &Words,
    seat: &mut Seat<(), View>,
    object: u8,
    last: Option<Counts>,
) -> u64
    requires own { seat.old.table_id ≡ words.now.shared.table_id }
    requires wide { words.now.shared.table_id.words ≡ table_words }
    requires object { IsTrue (is_object words.now.shared.key object) }
    requires room { HasRoom seat.old.me.0 }
    ensures same { (seat.new.table_id ≡ seat.old.table_id) × (seat.new.id ≡ seat.old.id) }
    ensures told { NilTold words.now.shared.key (is_new last) object seat.old.me.0 result seat.new.me.0 }
{
    let about = About {
        to: object,
        last,
        ..NOTHING
    };
    look::<Brand>(words, seat, queue_at(object), about)
}

/// Looks at a queue for a post, with a record where at most the margin is free.
pub fn look_before_post(
    words: &Words,
    seat: &mut Seat<(), View>,
    by: u8,
    object: u8,
    margin: Option<u8>,
) -> u64
    requires own { seat.old.table_id ≡ words.now.shared.table_id }
    requires wide { words.now.shared.table_id.words ≡ table_words }
    requires object { IsTrue (is_object words.now.shared.key object) }
    requires room { HasRoom seat.old.me.0 }
    ensures same { (seat.new.table_id ≡ seat.old.table_id) × (seat.new.id ≡ seat.old.id) }
    ensures told { EyeTold words.now.shared.key object by margin seat.old.me.0 result seat.new.me.0 }
{
    let about = About {
        by,
        to: object,
        margin,
        ..NOTHING
    };
    look::<Brand>(words, seat, queue_at(object), about)
}

/// Tries to claim an entry where the queue's word is `old`, as it was last seen, and answers the word that was found.
/// The try is counted.
pub fn claim<L: Ledger>(
    words: &Words,
    seat: &mut Seat<(), View>,
    by: u8,
    object: u8,
    margin: Option<u8>,
    pool: u8,
    block: u16,
    name: u64,
    old: u64,
    steps: &mut Steps<L>,
) -> u64
    requires own { seat.old.table_id ≡ words.now.shared.table_id }
    requires wide { words.now.shared.table_id.words ≡ table_words }
    requires object { IsTrue (is_object words.now.shared.key object) }
    requires room { HasRoom seat.old.me.0 }
    requires hand { InHand words.now.shared.key (record { pool = pool; block = block; name = name }) seat.old.me.0 }
    requires last { value_seen words.now.shared.key (word.Queue object) seat.old.me.0.seen ≡ old }
    requires free { unwrap_or margin 0 < free_in (ring_of words.now.shared.key object) old }
    requires small { old / 4398046511104 ≤ 3000000 }
    ensures same { (seat.new.table_id ≡ seat.old.table_id) × (seat.new.id ≡ seat.old.id) }
    ensures counted { steps.new ≡ steps.old + 1 }
    ensures told { TryTold words.now.shared.key object by margin (record { pool = pool; block = block; name = name }) seat.old.me.0 old result seat.new.me.0 }
{
    steps.step();
    let about = About {
        by,
        to: object,
        pool,
        low: block,
        name,
        old,
        margin,
        ..NOTHING
    };
    exchange::<Brand, About>(words, seat, queue_at(object), old, old + 1, about)
}

/// Writes the cell of the seat's oldest claim on the queue: the code of its entry.
pub fn lay(
    words: &Words,
    seat: &mut Seat<(), View>,
    object: u8,
    cell: u16,
    pool: u8,
    block: u16,
    name: u64,
    value: u64,
)
    requires own { seat.old.table_id ≡ words.now.shared.table_id }
    requires wide { words.now.shared.table_id.words ≡ table_words }
    requires object { IsTrue (is_object words.now.shared.key object) }
    requires low { (object < 33) × (cell < 256) }
    requires inside { cell < cells_of words.now.shared.key object }
    requires claim { 0 < many (is_place object cell (record { pool = pool; block = block; name = name })) seat.old.me.0.claims }
    requires oldest { IsOldest object cell (record { pool = pool; block = block; name = name }) seat.old.me.0.claims }
    requires value { value ≡ code (record { pool = pool; block = block; name = name }) }
    ensures same { (seat.new.table_id ≡ seat.old.table_id) × (seat.new.id ≡ seat.old.id) }
    ensures told { LayTold object cell (record { pool = pool; block = block; name = name }) seat.old.me.0 value seat.new.me.0 }
{
    let about = About {
        to: object,
        pool,
        low: block,
        name,
        old: u64::from(cell),
        new: value,
        ..NOTHING
    };
    store::<Brand>(words, seat, cell_at(object, cell), value, about)
}

/// Looks at a cell, which tells the lane nothing.
pub fn look_at_cell(words: &Words, seat: &mut Seat<(), View>, object: u8, cell: u16) -> u64
    requires own { seat.old.table_id ≡ words.now.shared.table_id }
    requires wide { words.now.shared.table_id.words ≡ table_words }
    requires low { (object < 33) × (cell < 256) }
    ensures same { (seat.new.table_id ≡ seat.old.table_id) × (seat.new.id ≡ seat.old.id) }
    ensures still { seat.new.me.0 ≡ seat.old.me.0 }
{
    let about = About {
        to: object,
        ..NOTHING
    };
    look::<Brand>(words, seat, cell_at(object, cell), about)
}

/// Empties the front cell, which the lane that serves the queue knows by its own counts, and answers what was found there.
pub fn empty_front(words: &Words, seat: &mut Seat<(), View>, object: u8, cell: u16) -> u64
    requires own { seat.old.table_id ≡ words.now.shared.table_id }
    requires wide { words.now.shared.table_id.words ≡ table_words }
    requires object { IsTrue (is_object words.now.shared.key object) }
    requires low { (object < 33) × (cell < 256) }
    requires front { KnowsFront words.now.shared.key object cell seat.old.me.0 }
    ensures same { (seat.new.table_id ≡ seat.old.table_id) × (seat.new.id ≡ seat.old.id) }
    ensures told { SwapTold words.now.shared.key object cell seat.old.me.0 result seat.new.me.0 }
{
    let about = About {
        to: object,
        old: u64::from(cell),
        ..NOTHING
    };
    swap::<Brand>(words, seat, cell_at(object, cell), 0, about)
}
