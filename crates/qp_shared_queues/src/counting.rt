//! The counts that a queue's word shows.

ghost use Rattle.std.specs.Prelude.{◌≡◌, ◌/◌, ◌%◌};

use qp_calls::Counts;

/// First-in posts, last-in posts and takes, by a queue's word.
pub(crate) fn counts_in(word: u64) -> Counts
    ensures { result ≡ record { f = word % 2097152; l = word / 2097152 % 2097152; m = word / 4398046511104 } }
{
    Counts {
        f: (word % 2097152) as u32,
        l: (word / 2097152 % 2097152) as u32,
        m: (word / 4398046511104) as u32,
    }
}
