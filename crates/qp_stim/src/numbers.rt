//! Numbers in canonical decimal.

ghost use Rattle.std.specs.Prelude.{◌≡◌, IsTrue};
ghost use Rattle.std.specs.Char.{is_ascii_digit};
ghost use Rattle.std.specs.List.{list_all};
ghost use Rattle.std.specs.Option.{option_map};
ghost use Rattle.qp_stim.specs.Numbers.{is_decimal, number_of_token};
ghost use Rattle.qp_chart_text.specs.Tokens.{value_after};
ghost use Rattle.qp_model.specs.WordOf.{fitting_number};

/// A number of a text, which may have any length; `None` is one above 64 bits.
pub type Number = Option<u64>;

fn all_digits(text: &[u8]) -> bool
    ensures { result ≡ list_all is_ascii_digit text.now }
{
    text.iter().all(|b| b.is_ascii_digit())
}

fn is_canonical(token: &[u8]) -> bool
    ensures { result ≡ is_decimal token.now }
{
    match token {
        [] => false,
        [digit] => digit.is_ascii_digit(),
        [first, rest @ ..] => { first.is_ascii_digit() && *first != b'0' && all_digits(rest) }
    }
}

fn value(digits: &[u8]) -> Number
    requires { IsTrue (list_all is_ascii_digit digits.now) }
    ensures { result ≡ fitting_number (value_after 0 digits.now) }
{
    let mut value: u64 = 0;
    for b in digits {
        value = value.checked_mul(10)?.checked_add(u64::from(*b - b'0'))?;
    }
    Some(value)
}

/// The number of a token, if it is one.
#[tactic(auto, unfolding(crate::specs::Numbers::number_of_token))]
pub fn number(token: &[u8]) -> Option<Number>
    ensures { result ≡ option_map fitting_number (number_of_token token.now) }
{
    if is_canonical(token) {
        Some(value(token))
    } else {
        None
    }
}
