//! Each definition of words at one word.

ghost use Rattle.std.specs.Prelude.{◌≡◌, IfOk};
ghost use Rattle.std.specs.List.{list_all};
ghost use Rattle.qp_model.specs.History.{touch};
ghost use Rattle.qp_model.specs.Record.{item_of};
ghost use Rattle.qp_model.specs.Machine.{is_allowed};
ghost use Rattle.qp_model.specs.References.{references};
ghost use Rattle.qp_check_words.specs.Judging.{shown_of};
ghost use Rattle.qp_check_words.specs.Marks.{shows_within};
ghost use Rattle.qp_check_words.specs.WordRules.{operations_allowed};
ghost use Rattle.qp_check_words.specs.Judging.{lives_of, shown_at};

use crate::marks::{Mark, ShownNumber, mark_of};
use qp_check_lanes::given_blocks::GivenBlocks;
use qp_check_lanes::groups::{Group, grouped};
use qp_check_lanes::pools::FreeBlocks;
use qp_check_lanes::queues::Queue;
use qp_check_lanes::references::empties;
use qp_check_lanes::signals::Members;
use qp_check_lanes::timers::TimeEvent;
use qp_check_lanes::word_state::WordState;
use qp_check_lanes::{lives, word_state};
use qp_model::{Rec, System, Word};
use std::alloc::{AllocError, Global};

/// Whether each operation of the word is allowed in its turn.
#[tactic(auto, unfolding(crate::specs::WordRules::operations_allowed))]
pub(crate) fn operations_allowed(
    alloc: Global,
    sys: &System,
    word: Word,
    history: &Group,
) -> Result<bool, AllocError>
    ensures { IfOk result (λ b. b ≡ operations_allowed sys.now word history.now) }
{
    match word {
        Word::Pool(p) => word_state::is_allowed(
            FreeBlocks::new(alloc, sys.blocks_of(u64::from(p)))?,
            history,
        ),
        Word::Block(..) => references_allowed(alloc, history),
        Word::Queue(a) => word_state::is_allowed(
            Queue::new(alloc, sys.ring_of(u64::from(a))),
            history,
        ),
        Word::Signal(_) => word_state::is_allowed(Members::new(alloc), history),
        Word::Timer(_) => word_state::is_allowed(TimeEvent::new(), history),
    }
}

fn references_allowed(alloc: Global, history: &Group) -> Result<bool, AllocError>
    ensures { IfOk result (λ b. b ≡ is_allowed references history.now) }
{
    match empties(alloc, history)? {
        Some(_) => Ok(true),
        None => Ok(false),
    }
}

/// Whether all that is shown of the word is as its history gives it.
#[tactic(auto, unfolding(crate::specs::Judging::shown_at))]
pub(crate) fn shown_at(
    alloc: Global,
    sys: &System,
    word: Word,
    touched: &Group,
    history: &Group,
) -> Result<bool, AllocError>
    ensures { IfOk result (λ b. b ≡ shown_at sys.now word touched.now history.now) }
{
    match word {
        Word::Pool(p) => shows(
            alloc,
            FreeBlocks::new(alloc, sys.blocks_of(u64::from(p)))?,
            touched,
            history,
        ),
        Word::Block(..) => Ok(true),
        Word::Queue(a) => shows(
            alloc,
            Queue::new(alloc, sys.ring_of(u64::from(a))),
            touched,
            history,
        ),
        Word::Signal(_) => shows(alloc, Members::new(alloc), touched, history),
        Word::Timer(_) => shows(alloc, TimeEvent::new(), touched, history),
    }
}

#[tactic(auto, unfolding(crate::specs::Judging::shown_of))]
fn shows<H: WordState + Drop>(
    alloc: Global,
    held: H,
    touched: &Group,
    history: &Group,
) -> Result<bool, AllocError>
    requires first { H.state held ≡ (H.machine held).first }
    requires none { (H.machine held).count (H.state held) ≡ 0 }
    ensures { IfOk result (λ b. b ≡ shown_of (H.machine held) history.now touched.now) }
{
    let count = history.items.len();
    if !all_within(touched, count) {
        return Ok(false);
    }
    let shown = grouped(alloc, touched, count + 1, &ShownNumber)?;
    word_state::is_shown(held, history, &shown)
}

/// Whether each number of operations that is shown is at most `count`.
fn all_within(touched: &Group, count: usize) -> bool
    ensures { result ≡ list_all (λ i. shows_within count (touch i)) touched.now }
{
    for r in &touched.items {
        if !is_within(r, count) {
            return false;
        }
    }
    true
}

fn is_within(r: &Rec, count: usize) -> bool
    ensures { result ≡ shows_within count (touch (item_of r.now)) }
{
    match mark_of(r) {
        Mark::Shown(n) => n <= count as u128,
        Mark::Drawn(_) | Mark::Unmarked => true,
    }
}

/// Whether the references of a block are allowed and its lives are as they must be, by its pool's history
/// and its own.
#[tactic(auto, unfolding(crate::specs::Judging::lives_of))]
pub(crate) fn lives_of(
    alloc: Global,
    b: u8,
    pool: &GivenBlocks,
    block: &Group,
) -> Result<bool, AllocError>
    ensures { IfOk result (λ r. r ≡ lives_of b pool.now block.now) }
{
    let own = pool.on(u64::from(b));
    match empties(alloc, block)? {
        Some(flags) => lives::has_lives(alloc, u64::from(b), own, &flags),
        None => Ok(false),
    }
}
