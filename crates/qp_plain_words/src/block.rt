//! The word of a block.

ghost use Rattle.std.specs.Prelude.{◌≡◌, ◌+◌, ◌<◌};

/// How many operations a block's word had, and how many references stand.
#[derive(Clone, Copy)]
pub struct BlockWord {
    pub ops: u32,
    pub refs: u32,
}

impl BlockWord {
    /// Makes a reference, and answers its name, the number of the operation.
    pub fn make(&mut self) -> u32
        requires ops { self.old.ops < 4294967295 }
        requires refs { self.old.refs < 4294967295 }
        ensures name { result ≡ self.old.ops }
        ensures new { self.new ≡ record { ops = self.old.ops + 1; refs = self.old.refs + 1 } }
    {
        let name = self.ops;
        self.ops += 1;
        self.refs += 1;
        name
    }

    /// Drops a reference, and answers the number of the operation.
    pub fn drop_one(&mut self) -> u32
        requires ops { self.old.ops < 4294967295 }
        requires some { 0 < self.old.refs }
        ensures number { result ≡ self.old.ops }
        ensures ops { self.new.ops ≡ self.old.ops + 1 }
        ensures refs { self.new.refs + 1 ≡ self.old.refs }
    {
        let number = self.ops;
        self.ops += 1;
        self.refs -= 1;
        number
    }
}
