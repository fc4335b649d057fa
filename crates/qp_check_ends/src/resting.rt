//! Whether the lanes rest in the end: every queue is empty, and every block is free or held by deferred entries alone.

ghost use Rattle.std.specs.Prelude.{◌≡◌, ◌≤◌, ◌==◌, ◌&&◌, length, IfOk, IsTrue};
ghost use Rattle.qp_model.specs.End.{block_rests, blocks_rest, lines_empty, names_on};
ghost use Rattle.qp_model.specs.FreeBlocks.{free_blocks};
ghost use Rattle.qp_model.specs.History.{all_items, hist};
ghost use Rattle.qp_model.specs.Lawful.{deferred_of};
ghost use Rattle.qp_model.specs.Line.{line};
ghost use Rattle.qp_model.specs.Lists.{all_below};
ghost use Rattle.qp_model.specs.Machine.{after};
ghost use Rattle.qp_model.specs.References.{references};
ghost use Rattle.qp_model.specs.Sites.{blocks_of, ring_of};
ghost use Rattle.qp_model.specs.declared.words.Word.TheVariants as word;
ghost use Rattle.qp_check_words.specs.Numbers.{WordsFit};
ghost use Rattle.qp_check_ends.specs.Resting.{AreNamesCounted};

use crate::reference_counts::ReferenceCounts;
use qp_check_lanes::deferred_entries::deferred;
use qp_check_lanes::keys::named;
use qp_check_lanes::pools::FreeBlocks;
use qp_check_lanes::queues::Queue;
use qp_check_lanes::word_state;
use qp_check_words::histories::draw_count;
use qp_check_words::records_by_word::RecordsByWord;
use qp_model::{Entry, Journal, Named, System, Word};
use std::alloc::{AllocError, Global};

/// Whether the queue of an object is empty in the end.
fn line_is_empty(
    alloc: Global,
    sys: &System,
    records: &RecordsByWord,
    a: u8,
) -> Result<bool, AllocError>
    ensures { IfOk result (λ b. b ≡ (length (after (line (ring_of sys.now a)) (hist (word.Queue a) (all_items records.now))).entries == 0)) }
{
    let own = u64::from(a);
    let history = records.history(alloc, Named::Queue { a: own })?;
    let mut queue = Queue::new(alloc, sys.ring_of(own));
    word_state::run(&mut queue, &history)?;
    let empty = queue.is_empty();
    Ok(empty)
}

/// Whether every queue is empty in the end.
fn lines_empty(alloc: Global, sys: &System, records: &RecordsByWord) -> Result<bool, AllocError>
    ensures { IfOk result (λ b. b ≡ lines_empty sys.now (all_items records.now)) }
{
    for d in &sys.objects.items {
        if !line_is_empty(alloc, sys, records, d.priority)? {
            return Ok(false);
        }
    }
    Ok(true)
}

fn is_on(e: &Entry, p: u64, b: u64) -> bool
    ensures { result ≡ ((e.now.pool == p) && (e.now.block == b)) }
{
    e.pool == p && e.block == b
}

/// The references of these entries to a block.
fn names_on(alloc: Global, p: u64, b: u64, entries: &[Entry]) -> Result<Vec<u64>, AllocError>
    ensures { IfOk result (λ v. v.items ≡ names_on p b entries.now) }
{
    let mut names = Vec::new(alloc);
    for e in entries {
        if is_on(e, p, b) {
            names.push(e.name)?;
        }
    }
    Ok(names)
}

/// The free blocks of a pool in the end.
fn free_in(
    alloc: Global,
    sys: &System,
    records: &RecordsByWord,
    p: u8,
) -> Result<FreeBlocks, AllocError>
    ensures { IfOk result (λ f. f.free.keys ≡ (after (free_blocks (blocks_of sys.now p))
        (hist (word.Pool p) (all_items records.now))).free) }
{
    let own = u64::from(p);
    let history = records.history(alloc, Named::Pool { p: own })?;
    let mut free = FreeBlocks::new(alloc, sys.blocks_of(own))?;
    word_state::run(&mut free, &history)?;
    Ok(free)
}

/// The references to a block that stand in the end.
fn standing(
    alloc: Global,
    records: &RecordsByWord,
    p: u8,
    b: u8,
) -> Result<ReferenceCounts, AllocError>
    ensures { IfOk result (λ s. AreNamesCounted (after references (hist (word.Block p b) (all_items records.now))).names s.counts.items s.total) }
{
    let own = named(Word::Block(p, b));
    let size = draw_count(records.on(own));
    let history = records.history(alloc, own)?;
    ReferenceCounts::after(alloc, &history, size)
}

/// Whether a block is free in the end, or held by just these entries.
#[tactic(auto, unfolding(qp_model::specs::End::block_rests))]
fn block_rests(
    alloc: Global,
    sys: &System,
    records: &RecordsByWord,
    free: &FreeBlocks,
    deferred: &[Entry],
    p: u8,
    b: u8,
) -> Result<bool, AllocError>
    requires free { free.now.free.keys ≡ (after (free_blocks (blocks_of sys.now p)) (hist (word.Pool p) (all_items records.now))).free }
    ensures { IfOk result (λ r. r ≡ block_rests sys.now (all_items records.now) deferred.now p b) }
{
    if free.has(u64::from(b)) {
        return Ok(true);
    }
    let counts = standing(alloc, records, p, b)?;
    let names = names_on(alloc, u64::from(p), u64::from(b), deferred)?;
    counts.are(alloc, &names)
}

/// The same of all blocks of a pool.
fn pool_rests(
    alloc: Global,
    sys: &System,
    records: &RecordsByWord,
    deferred: &[Entry],
    p: u8,
) -> Result<bool, AllocError>
    ensures { IfOk result (λ r. r ≡ all_below (blocks_of sys.now p) (block_rests sys.now (all_items records.now) deferred.now p)) }
{
    let free = free_in(alloc, sys, records, p)?;
    let own = u64::from(p);
    for b in 0..sys.blocks_of(own) {
        if !block_rests(alloc, sys, records, &free, deferred, p, b)? {
            return Ok(false);
        }
    }
    Ok(true)
}

/// The same of all blocks.
#[tactic(auto, unfolding(qp_model::specs::End::blocks_rest))]
fn blocks_rest(
    alloc: Global,
    sys: &System,
    records: &RecordsByWord,
    deferred: &[Entry],
) -> Result<bool, AllocError>
    requires { WordsFit sys.now }
    ensures { IfOk result (λ r. r ≡ blocks_rest sys.now (all_items records.now) deferred.now) }
{
    for k in 0..sys.pools.items.len() {
        if !pool_rests(alloc, sys, records, deferred, k as u8 + 1)? {
            return Ok(false);
        }
    }
    Ok(true)
}

/// Whether every queue is empty in the end, and each block free or held by deferred entries alone.
pub fn rests(
    alloc: Global,
    sys: &System,
    j: &Journal,
    records: &RecordsByWord,
) -> Result<bool, AllocError>
    requires few { WordsFit sys.now }
    requires same { records.now ≡ j.now.lanes }
    ensures { IfOk result (λ b. b ≡ (lines_empty sys.now (all_items j.now.lanes) && blocks_rest sys.now (all_items j.now.lanes)
        (deferred_of sys.now j.now sys.now.objects))) }
{
    if !lines_empty(alloc, sys, records)? {
        return Ok(false);
    }
    let deferred = deferred(alloc, sys, j)?;
    let rest = blocks_rest(alloc, sys, records, &deferred)?;
    Ok(rest)
}
