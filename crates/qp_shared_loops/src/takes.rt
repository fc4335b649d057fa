//! Takes: the front entry of a queue is taken by the lane that serves it, which waits for its cell to be laid.

ghost use Rattle.std.specs.Prelude.{◌≡◌, ◌+◌, ◌*◌, ◌%◌, ◌<◌, length, IfNone, IfSome, IsTrue};
ghost use Rattle.std.specs.List.{list_any};
ghost use Rattle.qp_model.specs.Record.{entry};
ghost use Rattle.qp_model.specs.Sites.{ring_of};
ghost use Rattle.qp_model.specs.WordLaw.{is_object};
ghost use Rattle.qp_calls.specs.Clauses.{entry_of};
ghost use Rattle.qp_table.specs.Counting.{many};
ghost use Rattle.qp_table.specs.Rule.{is_place, on_queue, is_serve, table_words};
ghost use Rattle.qp_table.specs.After.{HasRoom};
ghost use Rattle.qp_table.specs.Told.{FreeTold};
ghost use Rattle.qp_shared_words.specs.Fronts.{KnowsFront};
ghost use Rattle.qp_shared_words.specs.Nils.{is_new};
ghost use Rattle.qp_shared_loops.specs.Coded.{entry_of_cell};
ghost use Rattle.qp_shared_loops.specs.Ends.{Empties, IsReference, KnowsEvent, TakeEnds};

use crate::rings::in_ring;
use atomic_table::Seat;
use qp_calls::{Counts, HeldEntry, Hold};
use qp_shared_words::Words;
use qp_shared_words::places::queue_at;
use qp_shared_words::queues::{empty_front, look_at_cell, look_before_take};
use qp_shared_words::steps::{About, NOTHING, add};
use qp_table::View;
use std::marker::Brand;
use std::sync::Wait;

/// The entry of which a cell has the code.
fn entry_in(code: u64) -> HeldEntry
    ensures value { entry_of result ≡ entry_of_cell code }
    ensures named { IsReference result }
{
    let pool = (code / 9007199254740992 % 16) as u8;
    if pool == 0 {
        HeldEntry::Static((code % 65536) as u16)
    } else {
        HeldEntry::Pool(Hold::of(
            pool,
            (code / 281474976710656 % 32) as u8,
            code % 281474976710656,
        ))
    }
}

/// An entry's pool, block and reference, as records state them: a static one has pool 0 and its signal as its block.
pub fn parts(e: &HeldEntry) -> (u8, u16, u64)
    ensures { entry_of e.now ≡ entry result.0 result.1 result.2 }
{
    match e {
        HeldEntry::Static(sig) => (0, *sig, 0),
        HeldEntry::Pool(hold) => (hold.pool(), u16::from(hold.block()), hold.name()),
    }
}

/// The cell of the front entry of a queue, by its last-in posts and takes.
fn front(ring: u8, lifos: u64, takes: u64) -> u16
    requires lifos { lifos < 2097152 }
    requires takes { takes < 4194304 }
    ensures value { result ≡ (takes + ring * lifos) % (ring + 1) }
    ensures within { result < 256 }
{
    in_ring(ring, takes + u64::from(ring) * lifos)
}

/// Reads the front cell, and empties it where it is laid. None where it isn't, and nothing changes.
fn empty_if_laid(
    words: &Words,
    seat: &mut Seat<(), View>,
    object: u8,
    cell: u16,
) -> Option<HeldEntry>
    requires own { seat.old.table_id ≡ words.now.shared.table_id }
    requires wide { words.now.shared.table_id.words ≡ table_words }
    requires object { IsTrue (is_object words.now.shared.key object) }
    requires low { (object < 33) × (cell < 256) }
    requires front { KnowsFront words.now.shared.key object cell seat.old.me.0 }
    ensures same { (seat.new.table_id ≡ seat.old.table_id) × (seat.new.id ≡ seat.old.id) }
    ensures emptied { IfSome result (λ e. Empties words.now.shared.key object cell e seat.old.me.0 seat.new.me.0) }
    ensures still { IfNone result (seat.new.me.0 ≡ seat.old.me.0) }
{
    if look_at_cell(words, seat, object, cell) == 0 {
        return None;
    }
    let code = empty_front(words, seat, object, cell);
    if code == 0 {
        return None;
    }
    Some(entry_in(code))
}

/// Waits until the front cell is laid, and empties it. The lane only reads while it waits.
#[cold]
#[inline(never)]
fn empty_once_laid<R: Wait>(
    rt: &R,
    words: &Words,
    seat: &mut Seat<(), View>,
    object: u8,
    cell: u16,
) -> HeldEntry
    requires own { seat.old.table_id ≡ words.now.shared.table_id }
    requires wide { words.now.shared.table_id.words ≡ table_words }
    requires object { IsTrue (is_object words.now.shared.key object) }
    requires low { (object < 33) × (cell < 256) }
    requires front { KnowsFront words.now.shared.key object cell seat.old.me.0 }
    ensures same { (seat.new.table_id ≡ seat.old.table_id) × (seat.new.id ≡ seat.old.id) }
    ensures emptied { Empties words.now.shared.key object cell result seat.old.me.0 seat.new.me.0 }
{
    for _ in rt.forever() {
        if let Some(entry) = empty_if_laid(words, seat, object, cell) {
            return entry;
        }
    }
    unreachable!()
}

/// Empties the front cell, at once where it is laid.
fn empty_when_laid<R: Wait>(
    rt: &R,
    words: &Words,
    seat: &mut Seat<(), View>,
    object: u8,
    cell: u16,
) -> HeldEntry
    requires own { seat.old.table_id ≡ words.now.shared.table_id }
    requires wide { words.now.shared.table_id.words ≡ table_words }
    requires object { IsTrue (is_object words.now.shared.key object) }
    requires low { (object < 33) × (cell < 256) }
    requires front { KnowsFront words.now.shared.key object cell seat.old.me.0 }
    ensures same { (seat.new.table_id ≡ seat.old.table_id) × (seat.new.id ≡ seat.old.id) }
    ensures emptied { Empties words.now.shared.key object cell result seat.old.me.0 seat.new.me.0 }
{
    if let Some(entry) = empty_if_laid(words, seat, object, cell) {
        return entry;
    }
    empty_once_laid(rt, words, seat, object, cell)
}

/// Frees the entry of a take, and answers the queue's word as it was. The lane then knows the event of a reference.
fn free_entry(
    words: &Words,
    seat: &mut Seat<(), View>,
    object: u8,
    cell: u64,
    pool: u8,
    block: u16,
    name: u64,
) -> u64
    requires own { seat.old.table_id ≡ words.now.shared.table_id }
    requires wide { words.now.shared.table_id.words ≡ table_words }
    requires object { IsTrue (is_object words.now.shared.key object) }
    requires room { HasRoom seat.old.me.0 }
    requires serves { IsTrue (list_any (is_serve object) seat.old.me.0.serves) }
    requires take { 0 < many (is_place object cell (record { pool = pool; block = block; name = name })) seat.old.me.0.takes }
    ensures same { (seat.new.table_id ≡ seat.old.table_id) × (seat.new.id ≡ seat.old.id) }
    ensures told { FreeTold words.now.shared.key object cell (record { pool = pool; block = block; name = name }) seat.old.me.0 result seat.new.me.0 }
    ensures event { KnowsEvent words.now.shared.key (record { pool = pool; block = block; name = name }) seat.new.me.0 }
{
    let about = About {
        to: object,
        pool,
        low: block,
        name,
        old: cell,
        ..NOTHING
    };
    add::<Brand>(words, seat, queue_at(object), 4398046511104, about)
}

/// Takes the front entry of a queue, by the lane that serves it. It looks; where the queue isn't empty, it reads the front cell until
/// that is laid, empties it and frees the entry. Answers the queue's word as it was when the entry was freed or none was there,
/// and the entry. `ring` is the queue's, and `last` the counts that the lane last told of the empty queue.
///
/// Where a poster has claimed the front entry and not yet laid it, it waits, and only reads meanwhile. That it waits for nothing else is
/// read off the code: no clause says for what.
// Each locked step waits for the writes before it, so a call with its answer in memory costs some two nanoseconds.
#[inline(always)]
pub fn take_entry<R: Wait>(
    rt: &R,
    words: &Words,
    seat: &mut Seat<(), View>,
    object: u8,
    ring: u8,
    last: Option<Counts>,
) -> (u64, Option<HeldEntry>)
    requires own { seat.old.table_id ≡ words.now.shared.table_id }
    requires wide { words.now.shared.table_id.words ≡ table_words }
    requires object { IsTrue (is_object words.now.shared.key object) }
    requires low { object < 33 }
    requires ring { ring ≡ ring_of words.now.shared.key object }
    requires room { HasRoom seat.old.me.0 }
    requires serves { IsTrue (list_any (is_serve object) seat.old.me.0.serves) }
    requires idle { many (on_queue object) seat.old.me.0.takes ≡ 0 }
    ensures same { (seat.new.table_id ≡ seat.old.table_id) × (seat.new.id ≡ seat.old.id) }
    ensures ends { TakeEnds words.now.shared.key (is_new last) object seat.old.me.0 result.0 result.1 seat.new.me.0 }
{
    let found = look_before_take(words, seat, object, last);
    let lifos = found / 2097152 % 2097152;
    let takes = found / 4398046511104;
    if found % 2097152 + lifos == takes {
        return (found, None);
    }
    let cell = front(ring, lifos, takes);
    let entry = empty_when_laid(rt, words, seat, object, cell);
    let (pool, block, name) = parts(&entry);
    let now = free_entry(words, seat, object, u64::from(cell), pool, block, name);
    (now, Some(entry))
}
