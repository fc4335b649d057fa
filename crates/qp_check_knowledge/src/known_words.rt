//! Tables of what a word held, be it one of the system or not.

ghost use Rattle.std.specs.Prelude.{◌≡◌, IfOk};
ghost use Rattle.qp_model.specs.declared.words.Word.TheVariants as word_kind;
ghost use Rattle.qp_model.specs.History.{all_items, hist};
ghost use Rattle.qp_model.specs.Sites.{blocks_of};
ghost use Rattle.qp_check_knowledge.specs.KnownSteps.{AreSteps};
ghost use Rattle.qp_check_knowledge.specs.KnownTables.{free_counts, member_lists};
ghost use Rattle.qp_check_knowledge.specs.KnownWords.{IsKnownBlock};
ghost use Rattle.qp_check_lanes.specs.GivenBlocks.{block_key};
ghost use Rattle.qp_check_lanes.specs.Groups.{of_key};

use crate::known_steps::steps_of;
use crate::known_tables::{free_counts, left_counts, member_lists};
use qp_check_lanes::given_blocks::GivenBlocks;
use qp_check_lanes::groups::Group;
use qp_check_lanes::signals::Subscribed;
use qp_check_words::records_by_word::RecordsByWord;
use qp_model::{Named, System};
use std::alloc::{AllocError, Global};
use std::marker::Model;

/// A block: the references that stood after each of its operations, and the operations that gave it out or back, as far as they are
/// the last ones at some number of its own.
#[derive(Drop)]
pub struct KnownBlock<'a> {
    pub(crate) left: Vec<u64>,
    pub(crate) steps: Group<'a>,
}

/// A pool: how many of its blocks were free before each of its operations. Contracts see the numbers.
#[derive(Drop)]
pub struct KnownPool {
    pub(crate) free: Vec<u64>,
}

impl Model for KnownPool {
    ghost use Rattle.std.specs.Prelude.{List, ℕ};

    ghost Value = { List ℕ };

    ghost view = { λ b. b.free.items };
}

/// A signal: its subscribers after each number of its operations. Contracts see the lists.
#[derive(Drop)]
pub struct KnownSignal {
    pub(crate) lists: Vec<Subscribed>,
}

impl Model for KnownSignal {
    ghost use Rattle.std.specs.Prelude.{List, ℕ};

    ghost Value = { List (List ℕ) };

    ghost view = { λ b. b.lists.items };
}

pub(crate) fn known_pool(
    alloc: Global,
    sys: &System,
    records: &RecordsByWord,
    p: u64,
) -> Result<KnownPool, AllocError>
    ensures { IfOk result (λ t. t ≡ free_counts (blocks_of sys.now p) (hist (word_kind.Pool p) (all_items records.now))) }
{
    let history = records.history(alloc, Named::Pool { p })?;
    let free = free_counts(alloc, sys.blocks_of(p), &history)?;
    Ok(KnownPool { free })
}

/// The steps of a block by its pool's operations.
fn block_steps<'a>(
    alloc: Global,
    records: &RecordsByWord<'a>,
    p: u64,
    b: u64,
) -> Result<Group<'a>, AllocError>
    ensures { IfOk result (λ s. AreSteps (of_key block_key b (hist (word_kind.Pool p) (all_items records.now))) s) }
{
    match records.pool(p) {
        Some(pool) => steps_of(alloc, pool.on(b)),
        None => {
            let history = records.history(alloc, Named::Pool { p })?;
            let pool = GivenBlocks::of(alloc, history)?;
            steps_of(alloc, pool.on(b))
        }
    }
}

pub(crate) fn known_block<'a>(
    alloc: Global,
    records: &RecordsByWord<'a>,
    p: u64,
    b: u64,
) -> Result<KnownBlock<'a>, AllocError>
    ensures { IfOk result (λ t. IsKnownBlock (all_items records.now) p b t) }
{
    let history = records.history(alloc, Named::Block { p, b })?;
    Ok(KnownBlock {
        left: left_counts(alloc, &history)?,
        steps: block_steps(alloc, records, p, b)?,
    })
}

pub(crate) fn known_signal(
    alloc: Global,
    records: &RecordsByWord,
    sig: u64,
) -> Result<KnownSignal, AllocError>
    ensures { IfOk result (λ t. t ≡ member_lists (hist (word_kind.Signal sig) (all_items records.now))) }
{
    let history = records.history(alloc, Named::Signal { sig })?;
    let lists = member_lists(alloc, &history)?;
    Ok(KnownSignal { lists })
}
