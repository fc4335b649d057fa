//! The two tables of a system, and their root.

ghost use Rattle.std.specs.Prelude.{◌≡◌, IfOk};
ghost use Rattle.qp_model.specs.Sound.{IsSound};
ghost use Rattle.qp_table.specs.Rule.{table_words};

use atomic_table::Seat;
use qp_base::Memory;
use qp_model::System;
use qp_shared_words::Words;
use qp_side::SideView;
use qp_table::View;
use std::alloc::Global;

/// The words of a system that threads share: those of pools, blocks and queues in one table, those of signals, time events and
/// the stop in another.
#[derive(Drop)]
pub struct Shared<'s> {
    pub(crate) sys: &'s System,
    pub(crate) alloc: Global,
    pub(crate) words: Words,
    pub(crate) side: qp_side::Words,
    ghost wide: { words.shared.table_id.words ≡ table_words },
    ghost side_wide: { side.shared.table_id.words ≡ 4489 },
    ghost key: { words.shared.key ≡ sys.now },
    ghost side_key: { side.shared.key ≡ sys.now },
}

/// The first seats of both tables. Lanes are made of it, once.
#[derive(Drop)]
pub struct Root {
    pub(crate) seat: Seat<(), View>,
    pub(crate) side: Seat<(), SideView>,
}

impl<'s> Shared<'s> {
    ghost use Rattle.qp_shared.specs.Starting.{IsRootOf};

    /// The words of a system where nothing has happened, and their root.
    pub fn new(alloc: Global, sys: &'s System) -> Result<(Shared<'s>, Root), Memory>
        requires sound { IsSound sys.now }
        ensures system { IfOk result (λ t. t.0.sys.now ≡ sys.now) }
        ensures root { IfOk result (λ t. IsRootOf t.0 t.1) }
    {
        let (words, seat) = qp_shared_words::new_words(alloc, sys)?;
        let (side, root) = qp_side::words::new_words(alloc, sys)?;
        let shared = Shared {
            sys,
            alloc,
            words,
            side,
        };
        Ok((shared, Root { seat, side: root }))
    }
}
