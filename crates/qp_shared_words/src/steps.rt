//! The table of the words under the rule, and the atomic operations on one of them.

ghost use Rattle.std.specs.Prelude.{◌≡◌, ℕ, ◌+◌, ◌%◌, ◌^◌, ◌<◌, ◌==◌};
ghost use prog.Atomic.{either};
ghost use Rattle.qp_table.specs.declared.view.View.{View};
ghost use Rattle.qp_table.specs.Rule.{Holds};
ghost use Rattle.qp_table.specs.After.{WordSteps, newcomer};
ghost use Rattle.qp_table.specs.First.{first_serves};
ghost use Rattle.qp_table.specs.Whole.{later_lanes};

use atomic_table::{Play, Seat, Table, TableRule};
use qp_calls::Counts;
use qp_model::System;
use qp_table::View;
use std::alloc::Global;
use std::marker::{Brand, PhantomData};

/// The rule of the event table. Its key is the system; the first view has lane 0, all other lane numbers, and every object.
pub struct TableLaw;

impl TableRule<(), View, System> for TableLaw {
    ghost holds = { λ sys s. Holds sys s.words s.views };

    ghost first = { λ sys. newcomer later_lanes (first_serves sys 32) };
}

/// What a step tells: of the view before, the number found and the view after. Its caller picks it.
pub trait StepTells {
    ghost tells: { View → ℕ → View → Type 0 };
}

impl StepTells for Brand {
    ghost tells = { λ v n u. Unit {0} };
}

pub struct Tell<T: StepTells>(PhantomData<T>);

impl<T: StepTells> Play<(), View> for Tell<T> {
    ghost then = { λ st m n m'. T.tells m.0 n m'.0 };
}

/// The 21,128 words of one event table, which threads share.
pub type Words = Table<(), View, System, TableLaw, Global>;

/// What a step is about, for its proof alone: the object for which the lane works, a queue, a block or an entry, and numbers of the step. `low` is an entry's block or, of a static one, its signal; `last` are the counts that the queue's last `nil` showed.
#[derive(Clone, Copy, Drop)]
pub struct About {
    pub by: u8,
    pub to: u8,
    pub pool: u8,
    pub block: u8,
    pub low: u16,
    pub name: u64,
    pub old: u64,
    pub new: u64,
    pub margin: Option<u8>,
    pub last: Option<Counts>,
}

/// What a step is about that needs no more than its word.
pub const NOTHING: About = About {
    by: 0,
    to: 0,
    pool: 0,
    block: 0,
    low: 0,
    name: 0,
    old: 0,
    new: 0,
    margin: None,
    last: None,
};

/// Reads a word.
pub fn look<T: StepTells>(
    words: &Words,
    seat: &mut Seat<(), View>,
    word: usize,
    _about: About,
) -> u64
    requires own { (seat.old.table_id ≡ words.now.shared.table_id) × (word < words.now.shared.table_id.words) }
    requires keeps { WordSteps words.now.shared.key seat.old.id seat.old.me.0 word (λ n. n) (T.tells seat.old.me.0) }
    ensures same { (seat.new.table_id ≡ seat.old.table_id) × (seat.new.id ≡ seat.old.id) }
    ensures told { T.tells seat.old.me.0 result seat.new.me.0 }
{
    words.shared.load::<Tell<T>>(seat, word)
}

/// Adds to a word.
pub fn add<T: StepTells>(
    words: &Words,
    seat: &mut Seat<(), View>,
    word: usize,
    k: u64,
    _about: About,
) -> u64
    requires own { (seat.old.table_id ≡ words.now.shared.table_id) × (word < words.now.shared.table_id.words) }
    requires keeps { WordSteps words.now.shared.key seat.old.id seat.old.me.0 word (λ n. (n + k) % 2 ^ 64) (T.tells seat.old.me.0) }
    ensures same { (seat.new.table_id ≡ seat.old.table_id) × (seat.new.id ≡ seat.old.id) }
    ensures told { T.tells seat.old.me.0 result seat.new.me.0 }
{
    words.shared.fetch_add::<Tell<T>>(seat, word, k)
}

/// Sets a word to `new` where it is `old`, and answers what was found. `A` is what the step is about: `About`, or that and an event.
pub fn exchange<T: StepTells, A: Copy>(
    words: &Words,
    seat: &mut Seat<(), View>,
    word: usize,
    old: u64,
    new: u64,
    _about: A,
) -> u64
    requires own { (seat.old.table_id ≡ words.now.shared.table_id) × (word < words.now.shared.table_id.words) }
    requires keeps { WordSteps words.now.shared.key seat.old.id seat.old.me.0 word (λ n. either (n == old) new n) (T.tells seat.old.me.0) }
    ensures same { (seat.new.table_id ≡ seat.old.table_id) × (seat.new.id ≡ seat.old.id) }
    ensures told { T.tells seat.old.me.0 result seat.new.me.0 }
{
    words
        .shared
        .compare_exchange::<Tell<T>>(seat, word, old, new)
}

/// Puts a value into a word, and answers what was found.
pub(crate) fn swap<T: StepTells>(
    words: &Words,
    seat: &mut Seat<(), View>,
    word: usize,
    new: u64,
    _about: About,
) -> u64
    requires own { (seat.old.table_id ≡ words.now.shared.table_id) × (word < words.now.shared.table_id.words) }
    requires keeps { WordSteps words.now.shared.key seat.old.id seat.old.me.0 word (λ n. new) (T.tells seat.old.me.0) }
    ensures same { (seat.new.table_id ≡ seat.old.table_id) × (seat.new.id ≡ seat.old.id) }
    ensures told { T.tells seat.old.me.0 result seat.new.me.0 }
{
    words.shared.swap::<Tell<T>>(seat, word, new)
}

/// Writes a word.
pub(crate) fn store<T: StepTells>(
    words: &Words,
    seat: &mut Seat<(), View>,
    word: usize,
    new: u64,
    _about: About,
)
    requires own { (seat.old.table_id ≡ words.now.shared.table_id) × (word < words.now.shared.table_id.words) }
    requires keeps { WordSteps words.now.shared.key seat.old.id seat.old.me.0 word (λ n. new) (λ n. T.tells seat.old.me.0 new) }
    ensures same { (seat.new.table_id ≡ seat.old.table_id) × (seat.new.id ≡ seat.old.id) }
    ensures told { T.tells seat.old.me.0 new seat.new.me.0 }
{
    words.shared.store::<Tell<T>>(seat, word, new)
}
