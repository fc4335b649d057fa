//! The farewells of a lane.

ghost use Rattle.std.specs.Prelude.{◌≡◌, ◌+◌, ◌%◌, ◌^◌, true, map};
ghost use Rattle.qp_wait.specs.Parked.{have_all};

use qp_wait_rings::{Cord, ring_all};

/// How often a lane noted every parker, modulo 2^64, with cords of its own for that.
#[derive(Drop)]
pub struct Farewells {
    pub cords: Vec<Cord>,
    pub said: u64,
    ghost all: { have_all said cords.items ≡ true },
}

impl Farewells {
    /// Notes every parker once.
    pub fn say(&mut self)
        ensures said { self.new.said ≡ (self.old.said + 1) % 2 ^ 64 }
        ensures objects { map (λ c. c.object) self.new.cords.items ≡ map (λ c. c.object) self.old.cords.items }
    {
        ring_all(self.cords.as_mut_slice());
        self.said = self.said.wrapping_add(1);
    }
}
