//! The lengths of a system's rings, by object.

ghost use Rattle.std.specs.Prelude.{◌≡◌, ◌<◌, ℕ, slice_index};
ghost use Rattle.qp_model.specs.Sites.{ring_of};

use qp_model::System;

/// The lengths of a system's rings, by object: one look tells one, however many objects there are.
#[derive(Drop)]
pub struct Rings<'a> {
    pub sys: &'a System,
    lengths: [u8; 33],
    ghost are: { (a : ℕ) → a < 33 → slice_index lengths a ≡ ring_of sys.now a },
}

impl Rings<'_> {
    /// The lengths of this system's rings.
    pub fn of(sys: &System) -> Rings<'_>
        ensures { result.sys.now ≡ sys.now }
    {
        let mut lengths = [0; 33];
        for a in 0..33 {
            lengths[a] = sys.ring_of(a as u64);
        }
        Rings { sys, lengths }
    }

    /// The length of an object's ring, 0 where there is no such object.
    pub fn ring_of(&self, a: u8) -> u8
        requires { a < 33 }
        ensures { result ≡ ring_of self.now.sys.now a }
    {
        self.lengths[usize::from(a)]
    }
}
