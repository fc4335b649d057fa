//! Last-in posts: the cell before the front is claimed by tries, until a try succeeds or no entry is free.

ghost use Rattle.std.specs.Prelude.{◌≡◌, ◌+◌, ◌/◌, ◌<◌, ◌≤◌, IsTrue};
ghost use Rattle.std.specs.List.{list_any};
ghost use Rattle.qp_model.specs.declared.words.Word.TheVariants as word;
ghost use Rattle.qp_model.specs.Sites.{ring_of};
ghost use Rattle.qp_model.specs.WordLaw.{is_object};
ghost use Rattle.qp_table.specs.Counting.{many};
ghost use Rattle.qp_table.specs.Rule.{queue_at, mark_in, on_queue, is_serve, table_words};
ghost use Rattle.qp_table.specs.After.{HasRoom, InHand};
ghost use Rattle.qp_table.specs.Words.{value_seen};
ghost use Rattle.qp_table.specs.Told.{free_in, EyeLastTold, LastTold};
ghost use Rattle.qp_shared_loops.specs.Ends.{FitsCells, LastInEnds};

use crate::posts::free_in;
use atomic_table::Seat;
use qp_base::Steps;
use qp_shared_words::Words;
use qp_shared_words::places::queue_at;
use qp_shared_words::steps::{About, NOTHING, exchange, look};
use qp_table::View;
use std::marker::Brand;
use std::sync::ledger::Ledger;

/// Looks at a queue for a last-in post, with a record where it is full.
fn look_before_last_in(words: &Words, seat: &mut Seat<(), View>, object: u8) -> u64
    requires own { seat.old.table_id ≡ words.now.shared.table_id }
    requires wide { words.now.shared.table_id.words ≡ table_words }
    requires object { IsTrue (is_object words.now.shared.key object) }
    requires room { HasRoom seat.old.me.0 }
    ensures same { (seat.new.table_id ≡ seat.old.table_id) × (seat.new.id ≡ seat.old.id) }
    ensures told { EyeLastTold words.now.shared.key object seat.old.me.0 result seat.new.me.0 }
    ensures short { FitsCells words.now.shared.key object result }
{
    let about = About {
        to: object,
        ..NOTHING
    };
    look::<Brand>(words, seat, queue_at(object), about)
}

/// Tries to claim the cell before the front, by the lane that serves the queue, and answers the word that was found. The try is counted.
fn claim_last_in<L: Ledger>(
    words: &Words,
    seat: &mut Seat<(), View>,
    object: u8,
    pool: u8,
    block: u16,
    name: u64,
    old: u64,
    steps: &mut Steps<L>,
) -> u64
    requires own { seat.old.table_id ≡ words.now.shared.table_id }
    requires wide { words.now.shared.table_id.words ≡ table_words }
    requires object { IsTrue (is_object words.now.shared.key object) }
    requires room { HasRoom seat.old.me.0 }
    requires hand { InHand words.now.shared.key (record { pool = pool; block = block; name = name }) seat.old.me.0 }
    requires serves { IsTrue (list_any (is_serve object) seat.old.me.0.serves) }
    requires idle { many (on_queue object) seat.old.me.0.takes ≡ 0 }
    requires last { value_seen words.now.shared.key (word.Queue object) seat.old.me.0.seen ≡ old }
    requires free { 0 < free_in (ring_of words.now.shared.key object) old }
    requires small { old / 4398046511104 ≤ 3000000 }
    ensures same { (seat.new.table_id ≡ seat.old.table_id) × (seat.new.id ≡ seat.old.id) }
    ensures counted { steps.new ≡ steps.old + 1 }
    ensures told { LastTold words.now.shared.key object (record { pool = pool; block = block; name = name }) seat.old.me.0 old result seat.new.me.0 }
    ensures short { FitsCells words.now.shared.key object result }
{
    steps.step();
    let about = About {
        to: object,
        pool,
        low: block,
        name,
        ..NOTHING
    };
    exchange::<Brand, About>(words, seat, queue_at(object), old, old + 2097152, about)
}

/// Claims the cell before the front of a queue, by the lane that serves it, where an entry is free. It looks, and then
/// tries until the word is still as it was last seen, or shows no free entry. Answers the queue's word as it was
/// then, and whether the entry is claimed. `ring` is the queue's.
///
/// Tries are at most one more than others made operations on the word meanwhile.
pub fn claim_entry_last_in<L: Ledger>(
    words: &Words,
    seat: &mut Seat<(), View>,
    object: u8,
    ring: u8,
    pool: u8,
    block: u16,
    name: u64,
    steps: &mut Steps<L>,
) -> (u64, bool)
    requires own { seat.old.table_id ≡ words.now.shared.table_id }
    requires wide { words.now.shared.table_id.words ≡ table_words }
    requires object { IsTrue (is_object words.now.shared.key object) }
    requires ring { ring ≡ ring_of words.now.shared.key object }
    requires room { HasRoom seat.old.me.0 }
    requires hand { InHand words.now.shared.key (record { pool = pool; block = block; name = name }) seat.old.me.0 }
    requires serves { IsTrue (list_any (is_serve object) seat.old.me.0.serves) }
    requires idle { many (on_queue object) seat.old.me.0.takes ≡ 0 }
    ensures same { (seat.new.table_id ≡ seat.old.table_id) × (seat.new.id ≡ seat.old.id) }
    ensures ends { LastInEnds words.now.shared.key object (record { pool = pool; block = block; name = name }) seat.old.me.0 result.0 result.1 seat.new.me.0 }
    ensures up { steps.old ≤ steps.new }
    ensures tries { steps.new + mark_in (queue_at object) (value_seen words.now.shared.key (word.Queue object) seat.old.me.0.seen) ≤ steps.old + 1 + mark_in (queue_at object) result.0 }
{
    let mut found = look_before_last_in(words, seat, object);
    if free_in(ring, found) == 0 {
        return (found, false);
    }
    loop {
        let now = claim_last_in(words, seat, object, pool, block, name, found, steps);
        if now == found {
            return (now, true);
        }
        if free_in(ring, now) == 0 {
            return (now, false);
        }
        found = now;
    }
}
