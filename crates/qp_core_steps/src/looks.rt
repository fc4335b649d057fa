//! Looks.

ghost use Rattle.std.specs.Prelude.{◌≡◌, ◌+◌, ◌≤◌, ◌==◌, ◌&&◌, ◌++◌, None, Ok, OnOk, OnErr};
ghost use Rattle.qp_model.specs.Record.{body_of};
ghost use Rattle.qp_table.specs.After.{reading};
ghost use Rattle.qp_core_steps.specs.Words.{StepsAs};
ghost use Rattle.qp_table.specs.QueueLaws.{f_in, l_in, m_in};
ghost use Rattle.qp_core_steps.specs.Seats.{may_add, noting};
ghost use Rattle.qp_core_steps.specs.Looks.{ones, counts_match, entry_count, states_pool, states_queue, states, shown, may_look, looked, may_read, may_peek};
ghost use Rattle.qp_table.specs.Words.{is_here};

use crate::asked::{has_block, has_object, has_pool, size_of};
use crate::blocks::ONE;
use crate::entries::{lifos_in, posts_in, takes_in};
use crate::items::{Items, no_items};
use crate::queues::serves_it;
use crate::seats::{Seat, SeatGive, copy_of_give};
use crate::words::{Words, block_at, glance_at, pool_at, queue_at};
use arrayvec::ArrayVec;
use qp_base::Memory;
use qp_model::{Body, Rec, System, Word};
use qp_table::Glance;
use std::alloc::Global;

/// Whether it is a word of the event table that the system has.
pub fn is_word(sys: &System, word: Word) -> bool
    ensures { result ≡ is_here sys.now word }
{
    match word {
        Word::Pool(p) => has_pool(sys, p),
        Word::Block(p, b) => has_block(sys, p, b),
        Word::Queue(a) => has_object(sys, a),
        Word::Signal(_) | Word::Timer(_) => false,
    }
}

/// How many of so many bits are 1.
fn ones(left: u8, map: u64) -> u64
    ensures value { result ≡ ones left map }
    ensures most { result ≤ left }
{
    if left == 0 {
        0
    } else {
        map % 2 + ones(left - 1, map / 2)
    }
}

/// Whether the record states what the pool's word shows.
fn states_pool(word: u64, q: u8, by: u8, rec: &Rec) -> bool
    ensures { result ≡ states_pool word q by rec.now.of (body_of rec.now) }
{
    let q = u64::from(q);
    match rec.body() {
        Body::Short {
            p,
            n,
            free,
            reserve,
        } => {
            rec.of == by
                && p == q
                && n == word / ONE
                && free == ones(32, word % ONE)
                && free <= reserve
        }
        Body::NoBlock { p, n, free } => {
            rec.of == by && p == q && n == word / ONE && free == 0 && word % ONE == 0
        }
        _ => false,
    }
}

/// Whether a queue's word shows these counts.
fn counts_match(word: u64, f: u64, l: u64, m: u64) -> bool
    ensures { result ≡ counts_match word f l m }
{
    f == u64::from(posts_in(word))
        && l == u64::from(lifos_in(word))
        && m == u64::from(takes_in(word))
}

/// How many entries a queue's word counts.
fn entries_in(word: u64) -> u64
    ensures { result ≡ entry_count word }
{
    let posts = u64::from(posts_in(word)) + u64::from(lifos_in(word));
    posts.saturating_sub(u64::from(takes_in(word)))
}

/// Whether a queue's word counts as many takes as posts.
fn is_empty(word: u64) -> bool
    ensures { result ≡ (f_in word + l_in word == m_in word) }
{
    u64::from(posts_in(word)) + u64::from(lifos_in(word)) == u64::from(takes_in(word))
}

/// Whether the record states what the queue's word shows.
fn states_queue(ring: u8, word: u64, q: u8, by: u8, rec: &Rec) -> bool
    ensures { result ≡ states_queue ring word q by rec.now.of (body_of rec.now) }
{
    let object = u64::from(q);
    let cells = u64::from(ring) + 1;
    let of = rec.of;
    match rec.body() {
        Body::Nil { f, l, m } => {
            of == by && of == q && counts_match(word, f, l, m) && is_empty(word)
        }
        Body::Seen { p, f, l, m } => of == 0 && p == object && counts_match(word, f, l, m),
        Body::Full { a, f, l, m, margin } => {
            of == by
                && a == object
                && counts_match(word, f, l, m)
                && cells.saturating_sub(entries_in(word)) <= margin
        }
        Body::NoEntry { a, f, l, m } | Body::NoLifo { a, f, l, m } => {
            of == by && a == object && counts_match(word, f, l, m) && entries_in(word) == cells
        }
        _ => false,
    }
}

/// Whether the record is a shown record on the word, and states what it shows.
fn states(sys: &System, words: &Words, word: Word, by: u8, rec: &Rec) -> bool
    ensures { result ≡ states sys.now words.now word by rec.now }
{
    match word {
        Word::Pool(q) => states_pool(words.get(pool_at(q)), q, by, rec),
        Word::Queue(q) => {
            let ring = sys.ring_of(u64::from(q));
            states_queue(ring, words.get(queue_at(q)), q, by, rec)
        }
        _ => false,
    }
}

/// A copy of the record.
fn copy_of(rec: &Rec) -> Rec
    ensures { result ≡ rec.now }
{
    let mut nums = ArrayVec::new();
    let _ = nums.try_extend_from_slice(rec.nums.as_slice());
    Rec {
        kind: rec.kind,
        of: rec.of,
        nums,
    }
}

/// Adds copies of the gives, in which the beginning of the life of this block is read.
fn add_read(out: &mut Items<SeatGive>, gives: &[SeatGive], p: u8, b: u8) -> Result<(), Memory>
    ensures { OnOk result (out.new ≡ out.old ++ reading p b gives.now) }
{
    if let [give, rest @ ..] = gives {
        let now = give.pool == u64::from(p) && give.block == u64::from(b);
        let copy = copy_of_give(give, now || give.read);
        out.items.push(copy).map_err(|_| Memory)?;
        add_read(out, rest, p, b)?;
    }
    Ok(())
}

/// What the word shows.
fn shown(words: &Words, word: Word) -> Glance
    ensures { result ≡ shown words.now word }
{
    match word {
        Word::Pool(p) => glance_at(pool_at(p), words.get(pool_at(p))),
        Word::Block(p, b) => glance_at(block_at(p, b), words.get(block_at(p, b))),
        Word::Queue(a) => glance_at(queue_at(a), words.get(queue_at(a))),
        Word::Signal(_) | Word::Timer(_) => glance_at(0, 0),
    }
}

/// Adds the record, where it is a shown record on the word and states what it shows.
fn show(
    sys: &System,
    lanes: u32,
    words: &Words,
    seat: &mut Seat,
    word: Word,
    rec: &Rec,
) -> Result<bool, Memory>
    ensures { StepsAs (may_add lanes seat.old && states sys.now words.now word seat.old.by rec.now) (seat.new ≡ noting rec.now (shown words.now word) seat.old)
        (seat.new ≡ seat.old) result }
{
    if !(seat.may_add(lanes) && states(sys, words, word, seat.by, rec)) {
        return Ok(false);
    }
    seat.note(copy_of(rec), shown(words, word))?;
    Ok(true)
}

/// Reads a word. A look at a block's word reads where the life of a fresh block begins.
fn read_word(alloc: Global, words: &Words, seat: &mut Seat, word: Word) -> Result<(), Memory>
    ensures ok { OnOk result (seat.new ≡ looked words.now seat.old word None) }
    ensures err { OnErr result (seat.new ≡ seat.old) }
{
    if let Word::Block(p, b) = word {
        let mut gives = no_items(alloc);
        add_read(&mut gives, seat.gives.items.as_slice(), p, b)?;
        seat.gives = gives;
    }
    seat.see(shown(words, word));
    Ok(())
}

/// Reads a numbered word, and adds a record of what it shows.
pub fn look(
    alloc: Global,
    sys: &System,
    lanes: u32,
    words: &Words,
    seat: &mut Seat,
    word: Word,
    rec: &Option<Rec>,
) -> Result<bool, Memory>
    ensures { StepsAs (may_look sys.now lanes words.now seat.old word rec.now) (seat.new ≡ looked words.now seat.old word rec.now)
        (seat.new ≡ seat.old) result }
{
    if !is_word(sys, word) {
        return Ok(false);
    }
    let Some(rec) = rec else {
        read_word(alloc, words, seat, word)?;
        return Ok(true);
    };
    show(sys, lanes, words, seat, word, rec)
}

/// Whether the seat may read the event word.
pub fn may_read(sys: &System, seat: &Seat, p: u8, b: u8, j: u8) -> bool
    ensures { result ≡ may_read sys.now seat.now p b j }
{
    has_block(sys, p, b) && seat.has_reference_to(p, b) && j <= size_of(sys, p)
}

/// Whether the seat may read the cell of the object's front entry.
pub fn may_peek(sys: &System, lanes: u32, seat: &Seat, a: u8) -> bool
    ensures { result ≡ may_peek sys.now lanes seat.now a }
{
    seat.number < lanes && has_object(sys, a) && serves_it(seat, a)
}
