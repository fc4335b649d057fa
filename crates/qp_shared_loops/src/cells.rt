//! Posts with their cells: an entry is claimed, and where it is, its cell is laid.

ghost use Rattle.std.specs.Prelude.{◌≡◌, ◌+◌, ◌*◌, ◌%◌, ◌<◌, ◌≤◌, IsTrue};
ghost use Rattle.std.specs.List.{list_any};
ghost use Rattle.qp_model.specs.declared.words.Word.TheVariants as word;
ghost use Rattle.qp_model.specs.Sites.{ring_of};
ghost use Rattle.qp_model.specs.WordLaw.{is_object};
ghost use Rattle.qp_table.specs.Counting.{many};
ghost use Rattle.qp_table.specs.Rule.{queue_at, mark_in, on_queue, is_serve, Codable, code, table_words};
ghost use Rattle.qp_table.specs.After.{HasRoom, InHand};
ghost use Rattle.qp_table.specs.Words.{value_seen};
ghost use Rattle.qp_shared_loops.specs.Ends.{PostEnds, PostFirstEnds};

use crate::last_in::claim_entry_last_in;
use crate::posts::claim_entry;
use crate::rings::in_ring;
use atomic_table::Seat;
use qp_base::Steps;
use qp_shared_words::Words;
use qp_shared_words::queues::lay;
use qp_table::View;
use std::sync::ledger::Ledger;

/// An entry as a cell has it.
fn code_of(pool: u8, block: u16, name: u64) -> u64
    requires pool { pool < 16 }
    requires block { 0 < pool → block < 32 }
    requires name { name < 281474976710656 }
    ensures { result ≡ code (record { pool = pool; block = block; name = name }) }
{
    let low = if pool == 0 {
        u64::from(block)
    } else {
        u64::from(pool) * 9007199254740992 + u64::from(block) * 281474976710656 + name
    };
    9223372036854775808 + low
}

/// The cell behind the last entry of a queue, by its first-in posts.
fn behind_last(ring: u8, posts: u64) -> u16
    ensures value { result ≡ posts % (ring + 1) }
    ensures within { result < 256 }
{
    in_ring(ring, posts)
}

/// The cell before the front entry of a queue, by its last-in posts and its takes.
fn before_front(ring: u8, lifos: u64, takes: u64) -> u16
    requires lifos { lifos < 2097152 }
    requires takes { takes < 4194304 }
    ensures value { result ≡ (takes + ring * lifos + ring) % (ring + 1) }
    ensures within { result < 256 }
{
    let size = u64::from(ring);
    in_ring(ring, takes + size * lifos + size)
}

/// Posts an entry, where more entries of the queue are free than the margin, None counting as 0: claims it as `claim_entry` does,
/// and then lays its cell. Answers the queue's word as it was when the entry was claimed or too few were free, and whether it is
/// posted. `ring` is the queue's, on which the seat has no claim.
#[inline(always)]
pub fn post_entry<L: Ledger>(
    words: &Words,
    seat: &mut Seat<(), View>,
    by: u8,
    object: u8,
    ring: u8,
    margin: Option<u8>,
    pool: u8,
    block: u16,
    name: u64,
    steps: &mut Steps<L>,
) -> (u64, bool)
    requires own { seat.old.table_id ≡ words.now.shared.table_id }
    requires wide { words.now.shared.table_id.words ≡ table_words }
    requires object { IsTrue (is_object words.now.shared.key object) }
    requires low { object < 33 }
    requires ring { ring ≡ ring_of words.now.shared.key object }
    requires room { HasRoom seat.old.me.0 }
    requires hand { InHand words.now.shared.key (record { pool = pool; block = block; name = name }) seat.old.me.0 }
    requires none { many (on_queue object) seat.old.me.0.claims ≡ 0 }
    requires codable { Codable words.now.shared.key (record { pool = pool; block = block; name = name }) }
    ensures same { (seat.new.table_id ≡ seat.old.table_id) × (seat.new.id ≡ seat.old.id) }
    ensures ends { PostEnds words.now.shared.key object by margin (record { pool = pool; block = block; name = name }) seat.old.me.0 result.0 result.1 seat.new.me.0 }
    ensures up { steps.old ≤ steps.new }
    ensures tries { steps.new + mark_in (queue_at object) (value_seen words.now.shared.key (word.Queue object) seat.old.me.0.seen) ≤ steps.old + 1 + mark_in (queue_at object) result.0 }
{
    let (found, claimed) = claim_entry(
        words, seat, by, object, ring, margin, pool, block, name, steps,
    );
    if !claimed {
        return (found, false);
    }
    let cell = behind_last(ring, found % 2097152);
    let value = code_of(pool, block, name);
    lay(words, seat, object, cell, pool, block, name, value);
    (found, true)
}

/// The same of a last-in post, by the lane that serves the queue, where an entry is free.
pub fn post_entry_last_in<L: Ledger>(
    words: &Words,
    seat: &mut Seat<(), View>,
    object: u8,
    ring: u8,
    pool: u8,
    block: u16,
    name: u64,
    steps: &mut Steps<L>,
) -> (u64, bool)
    requires own { seat.old.table_id ≡ words.now.shared.table_id }
    requires wide { words.now.shared.table_id.words ≡ table_words }
    requires object { IsTrue (is_object words.now.shared.key object) }
    requires low { object < 33 }
    requires ring { ring ≡ ring_of words.now.shared.key object }
    requires room { HasRoom seat.old.me.0 }
    requires hand { InHand words.now.shared.key (record { pool = pool; block = block; name = name }) seat.old.me.0 }
    requires none { many (on_queue object) seat.old.me.0.claims ≡ 0 }
    requires codable { Codable words.now.shared.key (record { pool = pool; block = block; name = name }) }
    requires serves { IsTrue (list_any (is_serve object) seat.old.me.0.serves) }
    requires idle { many (on_queue object) seat.old.me.0.takes ≡ 0 }
    ensures same { (seat.new.table_id ≡ seat.old.table_id) × (seat.new.id ≡ seat.old.id) }
    ensures ends { PostFirstEnds words.now.shared.key object (record { pool = pool; block = block; name = name }) seat.old.me.0 result.0 result.1 seat.new.me.0 }
    ensures up { steps.old ≤ steps.new }
    ensures tries { steps.new + mark_in (queue_at object) (value_seen words.now.shared.key (word.Queue object) seat.old.me.0.seen) ≤ steps.old + 1 + mark_in (queue_at object) result.0 }
{
    let (found, claimed) = claim_entry_last_in(words, seat, object, ring, pool, block, name, steps);
    if !claimed {
        return (found, false);
    }
    let cell = before_front(ring, found / 2097152 % 2097152, found / 4398046511104);
    let value = code_of(pool, block, name);
    lay(words, seat, object, cell, pool, block, name, value);
    (found, true)
}
