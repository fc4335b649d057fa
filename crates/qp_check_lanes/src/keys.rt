//! Words as keys of ordered tables.

ghost use Rattle.std.specs.Prelude.{◌≡◌};
ghost use Rattle.qp_model.specs.Touches.{as_word};
ghost use Rattle.qp_check_lanes.specs.Keys.{key_of};

use qp_model::{Named, Word};

/// The kind of a word, and its numbers.
pub fn key_of(word: Named) -> (u64, u64, u64)
    ensures { result ≡ key_of (as_word word) }
{
    match word {
        Named::Pool { p } => (0, p, 0),
        Named::Block { p, b } => (1, p, b),
        Named::Queue { a } => (2, a, 0),
        Named::Signal { sig } => (3, sig, 0),
        Named::Timer { t } => (4, t, 0),
    }
}

/// A word of a system by its numbers.
pub fn named(word: Word) -> Named
    ensures { as_word result ≡ word }
{
    match word {
        Word::Pool(p) => Named::Pool { p: u64::from(p) },
        Word::Block(p, b) => Named::Block {
            p: u64::from(p),
            b: u64::from(b),
        },
        Word::Queue(a) => Named::Queue { a: u64::from(a) },
        Word::Signal(sig) => Named::Signal {
            sig: u64::from(sig),
        },
        Word::Timer(t) => Named::Timer { t: u64::from(t) },
    }
}
