//! The table of the words under the rule, and the atomic operations on one of them.

ghost use Rattle.std.specs.Prelude.{◌≡◌, ℕ, ◌+◌, ◌%◌, ◌^◌, ◌<◌, ◌==◌};
ghost use prog.Atomic.{either};
ghost use Rattle.qp_model.specs.Lists.{count_up};
ghost use Rattle.qp_table.specs.First.{first_serves};
ghost use Rattle.qp_side.specs.declared.view.SideView.{SideView};
ghost use Rattle.qp_side.specs.Rule.{SideHolds};
ghost use Rattle.qp_side.specs.Told.{SideSteps, side_root};

use crate::view::SideView;
use atomic_table::{Play, Seat, Table, TableRule};
use qp_model::System;
use std::alloc::Global;
use std::marker::{Brand, PhantomData};

/// The rule of the side table. Its key is the system; the first view is the root's, which has all numbers and every object.
pub struct SideLaw;

impl TableRule<(), SideView, System> for SideLaw {
    ghost holds = { λ sys s. SideHolds sys s.words s.views };

    ghost first = { λ sys. side_root (count_up 0 49) (first_serves sys 32) };
}

/// What a step tells: of the view before, the number found and the view after. Its caller picks it.
pub trait SideTells {
    ghost tells: { SideView → ℕ → SideView → Type 0 };
}

impl SideTells for Brand {
    ghost tells = { λ v n u. Unit {0} };
}

pub struct SideTell<T: SideTells>(PhantomData<T>);

impl<T: SideTells> Play<(), SideView> for SideTell<T> {
    ghost then = { λ st m n m'. T.tells m.0 n m'.0 × (m'.1 ≡ m.1) };
}

/// The 4,489 words of one side table, which threads share.
pub type Words = Table<(), SideView, System, SideLaw, Global>;

/// What a step is about, for its proof alone: the object for which the seat works, the signal or time event, and numbers of the step.
#[derive(Clone, Copy, Drop)]
pub struct SideAbout {
    pub by: u8,
    pub to: u16,
    pub timer: u8,
    pub bit: u64,
    pub ticks: u16,
    pub interval: u16,
    pub old: u64,
    pub new: u64,
}

/// What a step is about that needs no more than its word.
pub const NOTHING: SideAbout = SideAbout {
    by: 0,
    to: 0,
    timer: 0,
    bit: 0,
    ticks: 0,
    interval: 0,
    old: 0,
    new: 0,
};

/// Reads a word.
pub fn look<T: SideTells>(
    words: &Words,
    seat: &mut Seat<(), SideView>,
    word: usize,
    _about: SideAbout,
) -> u64
    requires own { (seat.old.table_id ≡ words.now.shared.table_id) × (word < words.now.shared.table_id.words) }
    requires keeps { SideSteps words.now.shared.key seat.old.id seat.old.me.0 word (λ n. n) (T.tells seat.old.me.0) }
    ensures same { (seat.new.table_id ≡ seat.old.table_id) × (seat.new.id ≡ seat.old.id) × (seat.new.me.1 ≡ seat.old.me.1) }
    ensures told { T.tells seat.old.me.0 result seat.new.me.0 }
{
    words.shared.load::<SideTell<T>>(seat, word)
}

/// Adds to a word.
pub(crate) fn add<T: SideTells>(
    words: &Words,
    seat: &mut Seat<(), SideView>,
    word: usize,
    k: u64,
    _about: SideAbout,
) -> u64
    requires own { (seat.old.table_id ≡ words.now.shared.table_id) × (word < words.now.shared.table_id.words) }
    requires keeps { SideSteps words.now.shared.key seat.old.id seat.old.me.0 word (λ n. (n + k) % 2 ^ 64) (T.tells seat.old.me.0) }
    ensures same { (seat.new.table_id ≡ seat.old.table_id) × (seat.new.id ≡ seat.old.id) × (seat.new.me.1 ≡ seat.old.me.1) }
    ensures told { T.tells seat.old.me.0 result seat.new.me.0 }
{
    words.shared.fetch_add::<SideTell<T>>(seat, word, k)
}

/// Sets a word to `new` where it is `old`, and answers what was found.
pub(crate) fn exchange<T: SideTells>(
    words: &Words,
    seat: &mut Seat<(), SideView>,
    word: usize,
    old: u64,
    new: u64,
    _about: SideAbout,
) -> u64
    requires own { (seat.old.table_id ≡ words.now.shared.table_id) × (word < words.now.shared.table_id.words) }
    requires keeps { SideSteps words.now.shared.key seat.old.id seat.old.me.0 word (λ n. either (n == old) new n) (T.tells seat.old.me.0) }
    ensures same { (seat.new.table_id ≡ seat.old.table_id) × (seat.new.id ≡ seat.old.id) × (seat.new.me.1 ≡ seat.old.me.1) }
    ensures told { T.tells seat.old.me.0 result seat.new.me.0 }
{
    words
        .shared
        .compare_exchange::<SideTell<T>>(seat, word, old, new)
}
