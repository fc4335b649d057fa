//! The deferred list of an object.

ghost use Rattle.std.specs.Prelude.{◌≡◌, ℕ, [], ◌∷◌, ◌++◌, List, drop, length, MatchOption, IfOk};
ghost use Rattle.qp_model.specs.declared.bodies.Entry.{Entry};
ghost use Rattle.qp_check_calls.specs.CallStateNext.{list_after};

use qp_model::{Body, Entry};
use std::alloc::{AllocError, Global};
use std::collections::VecDeque;
use std::marker::Model;

/// The deferred entries of an object. Contracts see the list, the oldest first.
#[derive(Drop)]
pub struct Kept {
    pub items: VecDeque<Entry>,
}

impl Model for Kept {
    ghost use Rattle.std.specs.Prelude.{List};
    ghost use Rattle.qp_model.specs.declared.bodies.Entry.{Entry};

    ghost Value = { List Entry };

    ghost view = { λ b. b.items.items };
}

impl Kept {
    /// No entry is deferred.
    pub fn none(alloc: Global) -> Self
        ensures { result ≡ [] }
    {
        Kept {
            items: VecDeque::new(alloc),
        }
    }

    /// How many entries are deferred.
    pub fn len(&self) -> usize
        ensures { result ≡ length self.now }
    {
        self.items.len()
    }

    pub(crate) fn oldest(&self) -> Option<Entry>
        ensures { MatchOption result (self.now ≡ []) (λ e. (others : List Entry) × (self.now ≡ e ∷ others)) }
    {
        match self.items.front() {
            Some(e) => Some(*e),
            None => None,
        }
    }

    /// Changes the list by a record that fits.
    pub(crate) fn follow(&mut self, body: &Body) -> Result<(), AllocError>
        ensures { IfOk result (λ _. self.new ≡ list_after self.old body.now) }
    {
        match body {
            Body::Defer { entry } => self.items.push_back(*entry)?,
            Body::Recall { .. } | Body::Flush { .. } => {
                self.items.pop_front();
            }
            _ => {}
        }
        Ok(())
    }
}
