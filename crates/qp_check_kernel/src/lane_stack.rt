//! The steps under way.

ghost use Rattle.std.specs.Prelude.{◌≡◌, [], ◌∷◌, ◌==◌, drop, length, slice_get, OnOk};

use std::alloc::{AllocError, Global};
use std::marker::Model;

/// The objects whose steps are under way. Contracts see the list, the innermost first.
#[derive(Drop)]
pub struct Stack {
    pub items: Vec<u8>,
}

impl Model for Stack {
    ghost use Rattle.std.specs.Prelude.{List, ℕ, reverse};

    ghost Value = { List ℕ };

    ghost view = { λ b. reverse b.items.items };
}

impl Stack {
    pub fn new(alloc: Global) -> Self
        ensures { result ≡ [] }
    {
        Stack {
            items: Vec::new(alloc),
        }
    }

    pub fn is_empty(&self) -> bool
        ensures { result ≡ (length self.now == 0) }
    {
        self.items.is_empty()
    }

    /// The innermost.
    pub fn top(&self) -> Option<u8>
        ensures { result ≡ slice_get self.now 0 }
    {
        self.items.last().copied()
    }

    pub fn push(&mut self, o: u8) -> Result<(), AllocError>
        ensures { OnOk result (self.new ≡ o ∷ self.old) }
    {
        self.items.push(o)?;
        Ok(())
    }

    pub fn pop(&mut self)
        ensures { self.new ≡ drop 1 self.old }
    {
        self.items.pop();
    }
}
