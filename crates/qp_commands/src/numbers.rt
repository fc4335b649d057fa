//! Numbers among the words of a call.

ghost use Rattle.std.specs.Prelude.{◌≡◌};
ghost use Rattle.qp_text.specs.Numbers.{fitting, number_of_decimal};
ghost use Rattle.qp_chart_text.specs.Tokens.{value_after};

use itoa::Buffer;

/// A number of 64 bits in canonical decimal.
pub(crate) fn number(text: &[u8]) -> Option<u64>
    ensures { result ≡ number_of_decimal text.now }
{
    let n = value(text)?;
    if Buffer::new().format(n).as_bytes() == text {
        Some(n)
    } else {
        None
    }
}

/// The value of decimal digits, if it fits.
fn value(digits: &[u8]) -> Option<u64>
    ensures { result ≡ fitting (value_after 0 digits.now) }
{
    let mut n = 0u64;
    for digit in digits {
        n = n
            .checked_mul(10)?
            .checked_add(u64::from(digit.saturating_sub(48)))?;
    }
    Some(n)
}
