//! What a lane adds to the count beside its claims, and takes off it beside its refused ones.

ghost use Rattle.std.specs.Prelude.{◌≡◌, ◌+◌, ◌<◌, ◌%◌, ◌^◌};
ghost use Rattle.qp_wait_bells.specs.Tallies.{one_where, with_added};

use atomic_table::Seat;
use qp_wait_bells::{Tallies, Tally, add, find, take_one};

/// The steps that the turns of a lane finished, and its ends: each took one off the count, modulo 2^64. The seat also adds the sources of
/// which the lane tells that they take a turn next.
#[derive(Drop)]
pub struct Closings<'a> {
    pub count: &'a Tallies,
    pub seat: Seat<(), Tally>,
    pub ended: u64,
    ghost own: { seat.table_id ≡ count.now.shared.table_id },
    ghost some: { 0 < count.now.shared.table_id.words },
    ghost taken: { seat.me.0.taken % 2 ^ 64 ≡ ended },
}

impl Closings<'_> {
    /// Adds so many to the count.
    pub fn open(&mut self, n: u32)
        ensures ended { self.new.ended ≡ self.old.ended }
        ensures added { self.new.seat.me.0 ≡ with_added n self.old.seat.me.0 }
    {
        add(self.count, &mut self.seat, u64::from(n));
    }

    /// Takes one off. Whether that left nothing on the count.
    pub fn take_off(&mut self) -> bool
        ensures ended { self.new.ended ≡ (self.old.ended + 1) % 2 ^ 64 }
        ensures added { self.new.seat.me.0.added ≡ self.old.seat.me.0.added }
        ensures last { self.new.seat.me.0.last_takes ≡ self.old.seat.me.0.last_takes + one_where result }
        ensures looks { self.new.seat.me.0.empty_looks ≡ self.old.seat.me.0.empty_looks }
    {
        let was = take_one(self.count, &mut self.seat);
        self.ended = self.ended.wrapping_add(1);
        was == 1
    }

    /// Whether nothing is on the count.
    pub fn is_zero(&mut self) -> bool
        ensures ended { self.new.ended ≡ self.old.ended }
        ensures added { self.new.seat.me.0.added ≡ self.old.seat.me.0.added }
        ensures last { self.new.seat.me.0.last_takes ≡ self.old.seat.me.0.last_takes }
        ensures looks { self.new.seat.me.0.empty_looks ≡ self.old.seat.me.0.empty_looks + one_where result }
    {
        find(self.count, &mut self.seat) == 0
    }
}
