//! The word of a signal.

ghost use Rattle.std.specs.Prelude.{◌≡◌, ◌+◌, ◌-◌, ◌/◌, ◌^◌, ◌<◌, ◌≤◌, ◌==◌};
ghost use Rattle.std.specs.Int.{bit_at};

/// How many operations a signal had, and its subscribers as a set: bit `p - 1` for object `p`.
#[derive(Clone, Copy)]
pub struct SignalWord {
    pub ops: u32,
    pub set: u32,
}

impl SignalWord {
    /// Whether the object subscribes.
    pub fn has(&self, o: u8) -> bool
        requires some { 0 < o }
        requires within { o ≤ 32 }
        ensures { result ≡ (bit_at self.now.set (o - 1) == 1) }
    {
        (self.set >> (o - 1)) & 1 == 1
    }

    /// Puts an object into the set that isn't in it.
    pub fn put(&mut self, o: u8)
        requires some { 0 < o }
        requires within { o ≤ 32 }
        requires out { bit_at self.old.set (o - 1) ≡ 0 }
        requires few { self.old.ops < 4294967295 }
        ensures ops { self.new.ops ≡ self.old.ops + 1 }
        ensures set { self.new.set ≡ self.old.set + 2 ^ o / 2 }
    {
        self.set |= 1 << (o - 1);
        self.ops += 1;
    }

    /// Takes an object out of the set that is in it.
    pub fn take(&mut self, o: u8)
        requires some { 0 < o }
        requires within { o ≤ 32 }
        requires present { bit_at self.old.set (o - 1) ≡ 1 }
        requires few { self.old.ops < 4294967295 }
        ensures ops { self.new.ops ≡ self.old.ops + 1 }
        ensures set { self.new.set + 2 ^ o / 2 ≡ self.old.set }
    {
        self.set &= !(1 << (o - 1));
        self.ops += 1;
    }
}
