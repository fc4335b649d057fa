//! What has happened, as only contracts see it.

ghost use Rattle.std.specs.Prelude.{◌≡◌, List, [], ◌∷◌, ◌++◌};
ghost use Rattle.std.specs.Borrow.{ftrue};
ghost use Rattle.qp_calls.specs.LaneView.{Happening};
ghost use Rattle.qp_plain.specs.WorldView.{world_view};
ghost use Rattle.qp_kernel_runs.specs.Newest.{newest};

use qp_plain::PlainWorld;
use std::marker::Model;

/// What has happened in the looks of lane 0, in its order. It takes no bytes.
#[derive(Drop)]
pub struct Happened {
    pub ghost list: { List Happening },
}

impl Model for Happened {
    ghost also_owns = { λ _. ftrue };
}

impl Happened {
    /// Nothing.
    pub fn new() -> Happened
        ensures { result.list ≡ [] }
    {
        Happened {}
    }

    /// One stimulus more: what the lane chosen, a source, tells since the last one.
    pub fn then(&self, _world: &PlainWorld<'_>) -> Happened
        ensures { result.list ≡ self.now.list ++ newest self.now.list (world_view _world.now) ∷ [] }
    {
        Happened {}
    }
}
