//! Counts, by number.

ghost use Rattle.std.specs.Prelude.{◌≡◌, IfOk};
ghost use Rattle.qp_summary.specs.Counting.{AreNone, IsCountAt, with_one_more};

use std::alloc::{AllocError, Global};
use std::marker::Model;

/// A count for each number below a bound. One that a `usize` can't hold stays at the highest.
#[derive(Drop)]
pub(crate) struct Counts {
    items: Vec<usize>,
}

impl Model for Counts {
    ghost use Rattle.std.specs.Prelude.{List, ℕ};

    ghost Value = { List ℕ };

    ghost view = { λ b. b.items.items };
}

impl Counts {
    /// As many counts, of nothing.
    pub(crate) fn none(alloc: Global, size: usize) -> Result<Self, AllocError>
        ensures { IfOk result (λ counts. AreNone size counts) }
    {
        Ok(Counts {
            items: vec![in alloc; 0; size]?,
        })
    }

    /// Counts one more of this number.
    pub(crate) fn add(&mut self, number: usize)
        ensures { self.new ≡ with_one_more self.old number }
    {
        if number < self.items.len() {
            self.items[number] = self.items[number].saturating_add(1);
        }
    }

    /// How many of this number were counted; None for a number past the bound, and where a `usize` can't hold it.
    pub(crate) fn at(&self, number: usize) -> Option<usize>
        ensures { IsCountAt self.now number result }
    {
        match self.items.get(number) {
            Some(n) => { if *n < usize::MAX { Some(*n) } else { None } }
            None => None,
        }
    }
}
