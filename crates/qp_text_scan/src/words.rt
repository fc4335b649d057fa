//! Words in front of a text.

ghost use Rattle.std.specs.Prelude.{◌≡◌, ◌≤◌, ◌++◌, IfSome};
ghost use Rattle.qp_model.specs.Vocabulary.{word_text};

use qp_model::vocabulary;

/// The only id whose word may stand there, by what the first three bytes add up to; 0 where none may. No proof rests on it, since
/// the word is compared.
static IDS: [u8; 256] = [
    0, 0, 0, 0, 0, 0, 0, 0, 0, 0, 0, 0, 0, 0, 0, 0, 0, 0, 0, 0, 0, 0, 0, 0, 0, 0, 0, 0, 0, 0, 0, 0,
    0, 0, 0, 0, 0, 0, 0, 0, 0, 0, 0, 0, 0, 0, 0, 0, 0, 0, 19, 0, 0, 0, 0, 0, 0, 0, 0, 0, 0, 0, 0,
    0, 0, 0, 0, 0, 0, 0, 0, 0, 0, 0, 0, 0, 0, 0, 0, 0, 18, 0, 0, 0, 0, 0, 0, 0, 36, 26, 4, 0, 0, 2,
    28, 0, 0, 33, 0, 0, 0, 7, 0, 0, 0, 37, 0, 0, 0, 0, 0, 0, 0, 0, 0, 0, 0, 0, 0, 0, 0, 0, 0, 0,
    38, 21, 0, 0, 0, 0, 0, 0, 0, 13, 0, 0, 0, 0, 0, 0, 0, 0, 46, 0, 0, 6, 41, 3, 17, 0, 15, 0, 16,
    0, 0, 39, 35, 0, 24, 0, 0, 0, 0, 27, 0, 0, 12, 0, 0, 0, 0, 0, 0, 0, 0, 0, 0, 0, 43, 0, 0, 0, 0,
    14, 0, 30, 0, 25, 0, 0, 44, 0, 0, 9, 45, 11, 0, 0, 34, 0, 0, 23, 5, 0, 31, 29, 0, 0, 32, 0, 20,
    0, 0, 0, 0, 0, 0, 0, 40, 0, 0, 22, 0, 42, 0, 1, 0, 0, 0, 0, 0, 0, 10, 0, 0, 0, 0, 0, 0, 8, 0,
    0, 0, 0, 0, 0, 0, 0, 0, 0, 0, 0, 0, 0, 0, 0,
];

/// The id of the word in front, and what stands behind it.
#[inline(always)]
pub(crate) fn word(text: &[u8]) -> Option<(u8, &[u8])>
    ensures text { IfSome result (λ read. text.now ≡ word_text read.0 ++ read.1.now) }
    ensures least { IfSome result (λ read. 1 ≤ read.0) }
    ensures most { IfSome result (λ read. read.0 ≤ 46) }
{
    let [a, b, c, ..] = text else {
        return None;
    };
    let sum = usize::from(*a) + 7 * usize::from(*b) + 3 * usize::from(*c);
    let id = IDS[sum % 256];
    if id < 1 || 46 < id {
        return None;
    }
    let rest = text.strip_prefix(vocabulary::word_text(id).as_bytes())?;
    Some((id, rest))
}
