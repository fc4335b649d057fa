//! How many numbers a record has.

ghost use Rattle.std.specs.Prelude.{◌≡◌, ◌≤◌, ◌∷◌};
ghost use Rattle.qp_model.specs.Vocabulary.{has_assert_count, has_count};

use qp_model::kinds;

/// How many numbers the items have, by id. `new` and `assert` have rules of their own.
static COUNTS: [u8; 47] = [
    0, 3, 1, 1, 1, 7, 4, 5, 3, 1, 2, 2, 2, 2, 1, 0, 5, 4, 5, 5, 8, 7, 6, 4, 2, 2, 4, 1, 4, 1, 4, 3,
    3, 3, 5, 4, 5, 3, 4, 4, 3, 1, 0, 1, 2, 3, 2,
];

/// Whether an item has as many numbers as its word has, where these stand behind its first.
pub(crate) fn has_count(id: u8, first: u8, others: &[u64]) -> bool
    requires { id ≤ 46 }
    ensures { result ≡ has_count id (first ∷ others.now) }
{
    match id {
        kinds::NEW => 5 <= others.len() && others.len() <= 13,
        kinds::ASSERT => has_assert_count(first, others),
        _ => others.len() + 1 == usize::from(COUNTS[id as usize]),
    }
}

/// Whether an assertion has as many numbers as its code has.
fn has_assert_count(first: u8, others: &[u64]) -> bool
    ensures { result ≡ has_assert_count (first ∷ others.now) }
{
    match others {
        [1 | 5, rest @ ..] => rest.len() == 4,
        [2 | 3 | 4, rest @ ..] => rest.len() == 3,
        _ => false,
    }
}
