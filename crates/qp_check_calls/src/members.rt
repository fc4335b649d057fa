//! The members of a set of subscribers, one by one.

ghost use Rattle.std.specs.Prelude.{◌≡◌, ◌≤◌, [], ◌∷◌, MatchOption};
ghost use Rattle.qp_model.specs.Parts.{members, members_below};

use std::marker::Model;

/// The members that are left of a set of bits, bit `p - 1` for object `p`. Contracts see the list, descending.
#[derive(Drop)]
pub(crate) struct Members {
    set: u64,
    below: u8,
}

impl Model for Members {
    ghost use Rattle.std.specs.Prelude.{List, ℕ, ◌≤◌};
    ghost use Rattle.qp_model.specs.Parts.{members_below};

    ghost Value = { List ℕ };

    ghost view = { λ s. members_below s.below s.set };

    ghost invariant = { λ s. s.below ≤ 32 };
}

impl Members {
    #[tactic(auto, unfolding(qp_model::specs::Parts::members))]
    pub(crate) fn of(set: u64) -> Self
        ensures { result ≡ members set }
    {
        Members { set, below: 32 }
    }

    /// Takes the highest member.
    pub(crate) fn next(&mut self) -> Option<u8>
        ensures { MatchOption result (self.old ≡ []) (λ a. self.old ≡ a ∷ self.new) }
    {
        while self.below > 0 {
            self.below -= 1;
            if (self.set >> self.below) % 2 == 1 {
                return Some(self.below + 1);
            }
        }
        None
    }
}
