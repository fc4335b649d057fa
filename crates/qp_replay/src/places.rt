//! Places in a list, and what a replay answers.

ghost use Rattle.std.specs.Prelude.{◌≡◌, suc, ◌<◌, ◌++◌, ◌∷◌, [], length, get_or, take, Contains, OnOk};
ghost use Rattle.qp_replay.specs.Remaining.{record_place};

use crate::marks::At;
use std::alloc::{AllocError, Global};
use std::marker::Model;

/// Places, in some order.
#[derive(Drop)]
pub struct Places {
    pub items: Vec<At>,
}

impl Model for Places {
    ghost use Rattle.std.specs.Prelude.{List, map};
    ghost use Rattle.qp_model.specs.Places.{RecordPlace};
    ghost use Rattle.qp_replay.specs.Remaining.{record_place};

    ghost Value = { List RecordPlace };

    ghost view = { λ p. map (λ x. record_place x.lane x.place) p.items.items };
}

impl Places {
    pub(crate) fn none(alloc: Global) -> Self
        ensures { result ≡ [] }
    {
        Places {
            items: Vec::new(alloc),
        }
    }

    /// Puts a place at the end.
    pub(crate) fn push(&mut self, at: At) -> Result<(), AllocError>
        ensures { OnOk result (self.new ≡ self.old ++ record_place at.lane at.place ∷ []) }
    {
        Ok(self.items.push(at)?)
    }

    /// The first place of the list at which this one stands.
    pub(crate) fn position(&self, at: At) -> usize
        requires { Contains self.now (record_place at.lane at.place) }
        ensures within { result < length self.now }
        ensures found { get_or self.now result (record_place at.lane at.place) ≡ record_place at.lane at.place }
    {
        for (i, x) in self.items.iter().enumerate() {
            if x.lane == at.lane && x.place == at.place {
                return i;
            }
        }
        unreachable!()
    }

    /// Cuts the list behind this place of it.
    pub(crate) fn cut_behind(&mut self, n: usize)
        requires { n < length self.old }
        ensures { self.new ≡ take (suc n) self.old }
    {
        self.items.truncate(n + 1);
    }

    /// Puts a place in front.
    pub(crate) fn put_first(&mut self, at: At) -> Result<(), AllocError>
        ensures { OnOk result (self.new ≡ record_place at.lane at.place ∷ self.old) }
    {
        Ok(self.items.insert(0, at)?)
    }
}

/// One order of a journal's records, or why there is none.
#[derive(Drop)]
pub enum Replayed {
    /// The order of all records in which each next one is from the lowest lane whose next record has all that must stand before it.
    Order(Places),
    /// Records each of which must stand before the next, and the last before the first.
    Cycle(Places),
}
