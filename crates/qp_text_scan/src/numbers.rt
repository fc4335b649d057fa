//! Numbers in front of a text.

ghost use Rattle.std.specs.Prelude.{◌≡◌, ◌≤◌, ◌<◌, ◌+◌, ◌*◌, ◌++◌, ◌∷◌, decimal, length, IfSome};
ghost use Rattle.std.specs.Fmt.{signed_decimal};
ghost use Rattle.std.specs.Int.{cast_signed, w64};

/// What stands behind this byte in front.
#[inline(always)]
pub(crate) fn after_byte(byte: u8, text: &[u8]) -> Option<&[u8]>
    ensures text { IfSome result (λ rest. text.now ≡ byte ∷ rest.now) }
    ensures shorter { IfSome result (λ rest. length rest.now < length text.now) }
{
    let (first, rest) = text.split_first()?;
    if *first == byte { Some(rest) } else { None }
}

/// The digit in front, and what stands behind it.
#[inline(always)]
fn digit(text: &[u8]) -> Option<(u8, &[u8])>
    ensures text { IfSome result (λ read. text.now ≡ (48 + read.0) ∷ read.1.now) }
    ensures small { IfSome result (λ read. read.0 ≤ 9) }
    ensures shorter { IfSome result (λ read. length read.1.now < length text.now) }
{
    let (byte, rest) = text.split_first()?;
    if b'0' <= *byte && *byte <= b'9' {
        Some((*byte - b'0', rest))
    } else {
        None
    }
}

/// The number in front, and what stands behind it. A number of several digits doesn't begin with 0.
#[inline(always)]
pub(crate) fn number(text: &[u8]) -> Option<(u64, &[u8])>
    ensures text { IfSome result (λ read. text.now ≡ decimal read.0 ++ read.1.now) }
    ensures shorter { IfSome result (λ read. length read.1.now < length text.now) }
{
    let (first, rest) = digit(text)?;
    if first == 0 {
        Some((0, rest))
    } else {
        let (n, behind) = number_behind(u64::from(first), rest)?;
        Some((n, behind))
    }
}

/// The number that this one and the digits in front make, and what stands behind them.
#[inline(always)]
fn number_behind(first: u64, text: &[u8]) -> Option<(u64, &[u8])>
    requires { 1 ≤ first }
    ensures text { IfSome result (λ read. decimal first ++ text.now ≡ decimal read.0 ++ read.1.now) }
    ensures shorter { IfSome result (λ read. length read.1.now ≤ length text.now) }
{
    let mut n = first;
    let mut rest = text;
    while let Some((more, behind)) = digit(rest) {
        n = with_digit(n, more)?;
        rest = behind;
    }
    Some((n, rest))
}

/// The number with one digit more, if 64 bits hold it.
#[inline(always)]
fn with_digit(n: u64, digit: u8) -> Option<u64>
    requires { digit ≤ 9 }
    ensures { IfSome result (λ more. more ≡ 10 * n + digit) }
{
    n.checked_mul(10)?.checked_add(u64::from(digit))
}

/// The number in front behind a space, and what stands behind it.
#[inline(always)]
pub(crate) fn spaced(text: &[u8]) -> Option<(u64, &[u8])>
    ensures text { IfSome result (λ read. text.now ≡ 32 ∷ decimal read.0 ++ read.1.now) }
    ensures shorter { IfSome result (λ read. length read.1.now < length text.now) }
{
    let digits = after_byte(b' ', text)?;
    let (n, rest) = number(digits)?;
    Some((n, rest))
}

/// The bits of the signed number in front, and what stands behind it.
pub(crate) fn signed(text: &[u8]) -> Option<(u64, &[u8])>
    ensures text { IfSome result (λ read. text.now ≡ signed_decimal (cast_signed w64 read.0) ++ read.1.now) }
{
    match after_byte(b'-', text) {
        Some(digits) => {
            let (size, rest) = number(digits)?;
            if 1 <= size && size <= 1 << 63 {
                Some((u64::MAX - size + 1, rest))
            } else {
                None
            }
        }
        None => {
            let (n, rest) = number(text)?;
            if n < 1 << 63 { Some((n, rest)) } else { None }
        }
    }
}
