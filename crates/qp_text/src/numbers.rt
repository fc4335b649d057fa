//! Numbers in a journal's text.

ghost use Rattle.std.specs.Prelude.{◌≡◌, ◌<◌, ◌^◌, nat_lt, if◌then◌else◌, Some, None};
ghost use Rattle.qp_text.specs.Numbers.{fitting, number_at, number_of_decimal, signed_of};
ghost use Rattle.qp_chart_text.specs.Tokens.{value_after};

use itoa::Buffer;

/// The number at this place after the word. Where values have signs, the second number is one.
pub(crate) fn number_at(has_signs: bool, place: usize, text: &[u8]) -> Option<u64>
    ensures { result ≡ number_at has_signs place text.now }
{
    if has_signs && place == 1 {
        signed(text)
    } else {
        number(text)
    }
}

/// The 64 bits of a signed number.
fn signed(text: &[u8]) -> Option<u64>
    ensures { result ≡ signed_of text.now }
{
    match text {
        [] => None,
        [b'-', digits @ ..] => {
            let n = number(digits)?;
            if 1 <= n && n <= 1 << 63 {
                Some(u64::MAX - n + 1)
            } else {
                None
            }
        }
        _ => {
            let n = number(text)?;
            if n < 1 << 63 { Some(n) } else { None }
        }
    }
}

/// A number in canonical decimal.
fn number(text: &[u8]) -> Option<u64>
    ensures { result ≡ number_of_decimal text.now }
{
    let n = value(text)?;
    if Buffer::new().format(n).as_bytes() == text {
        Some(n)
    } else {
        None
    }
}

/// The value of decimal digits, if it fits.
fn value(digits: &[u8]) -> Option<u64>
    ensures { result ≡ fitting (value_after 0 digits.now) }
{
    let mut n = 0u64;
    for digit in digits {
        n = n
            .checked_mul(10)?
            .checked_add(u64::from(digit.saturating_sub(48)))?;
    }
    Some(n)
}
