//! Shelves: where input files come from.

ghost use Rattle.std.specs.Prelude.{◌≡◌, ◌≤◌, ℕ, List, Option, IfSome};
ghost use Rattle.qp_base.specs.Counts.{CountsIf};
ghost use Rattle.qp_base.specs.Shelf.{KeepsLimit, TellsOf, is_failed, is_missed};

use std::alloc::Global;

/// The longest file that a shelf loads, in bytes: `file_limit` of `specs/Limits`.
pub const FILE_LIMIT: u64 = 67108864;

/// Why a file was not loaded.
#[derive(Clone, Copy, PartialEq, Eq, Debug)]
pub enum ShelfFault {
    /// Memory was refused.
    Memory,
    /// The read failed.
    Failed,
    /// The shelf has no file of this name.
    Absent,
    /// The file has this many bytes, more than [`FILE_LIMIT`].
    TooLong { len: u64 },
}

/// Where a program reads its input files.
///
/// An answer `Memory` is free: no clause says when memory is refused.
pub trait Shelf {
    /// The files that it holds, by name. A shelf that doesn't tell, as a folder on disk, has None.
    ghost holds: { Self → Option (List ℕ → Option (List ℕ)) };

    /// How many loads failed. The count stands still at the end of its type.
    ghost faults: { Self → ℕ };

    /// How many loads found no file, or one that is too long. The count stands still at the end of its type.
    ghost misses: { Self → ℕ };

    /// Loads the file `name` as a whole.
    fn load(&mut self, alloc: Global, name: &str) -> Result<Vec<u8>, ShelfFault>
        ensures tells { IfSome (holds self.old) (λ held. TellsOf (held name.now) result) }
        ensures limit { KeepsLimit result }
        ensures held { holds self.new ≡ holds self.old }

        ensures faults { CountsIf (is_failed result) (faults self.old) (faults self.new) }
        ensures faults_last { faults self.old ≤ faults self.new }
        ensures misses { CountsIf (is_missed result) (misses self.old) (misses self.new) }
        ensures misses_last { misses self.old ≤ misses self.new };
}
