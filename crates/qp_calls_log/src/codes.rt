//! Codes that only contracts see.

ghost use Rattle.std.specs.Prelude.{◌≡◌, List, [], ◌∷◌, ℕ};
ghost use Rattle.std.specs.Borrow.{ftrue};

use std::marker::Model;

/// The codes that a lane handed to `stop`, or that `stopped` answered, the last one first. It takes no bytes.
#[derive(Drop)]
pub struct Codes {
    pub ghost list: { List ℕ },
}

impl Model for Codes {
    ghost also_owns = { λ _. ftrue };
}

impl Codes {
    /// No code.
    pub fn new() -> Codes
        ensures { result.list ≡ [] }
    {
        Codes {}
    }

    /// One code more.
    pub fn with(_before: &Codes, _code: &u8) -> Codes
        ensures { result.list ≡ _code.now ∷ _before.now.list }
    {
        Codes {}
    }
}
