//! The pool of an event.

ghost use Rattle.std.specs.Prelude.{◌≡◌, ◌≤◌, ℕ, length, nat_le, Some};
ghost use Rattle.std.specs.List.{position};
ghost use Rattle.qp_model.specs.Parts.{first_pool, sizes_of};

use qp_model::System;

/// The place of the first pool with room for so many parameters.
fn place_for(sys: &System, n: usize) -> Option<usize>
    ensures { result ≡ position (λ d. nat_le n d.size) sys.now.pools }
{
    sys.pools
        .items
        .iter()
        .position(|d| n <= usize::from(d.size))
}

/// The number of the first pool with room for so many parameters.
pub(crate) fn pool_for(sys: &System, n: usize) -> u8
    requires few { length sys.now.pools ≤ 15 }
    requires there { (p : ℕ) × (first_pool (sizes_of sys.now) n ≡ Some p) }
    ensures { first_pool (sizes_of sys.now) n ≡ Some result }
{
    match place_for(sys, n) {
        None => 0,
        Some(i) => i as u8 + 1,
    }
}
