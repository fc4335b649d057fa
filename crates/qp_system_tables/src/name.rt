//! What is a name.

ghost use Rattle.std.specs.Prelude.{◌≡◌, ◌||◌};
ghost use Rattle.std.specs.Char.{is_ascii_digit};
ghost use Rattle.std.specs.List.{list_all, list_any};
ghost use Rattle.std.specs.Str.{bytes_eq};
ghost use Rattle.qp_system_tables.specs.Names.{is_name, reserved};
ghost use Rattle.qp_chart_text.specs.Tokens.{is_letter as letter, is_identifier};

/// The words that stand for something else where a name may stand.
static RESERVED: [&str; 26] = [
    "me",
    "ok",
    "p1",
    "p2",
    "p3",
    "p4",
    "p5",
    "p6",
    "p7",
    "p8",
    "locked",
    "say",
    "post",
    "lifo",
    "forward",
    "publish",
    "defer",
    "recall",
    "flush",
    "subscribe",
    "unsubscribe",
    "arm",
    "rearm",
    "disarm",
    "margin",
    "reserve",
];

fn is_letter(b: u8) -> bool
    ensures { result ≡ letter b }
{
    b.is_ascii_alphabetic() || b == b'_'
}

fn continues_word(text: &[u8]) -> bool
    ensures { result ≡ list_all (λ c. letter c || is_ascii_digit c) text.now }
{
    text.iter().all(|b| is_letter(*b) || b.is_ascii_digit())
}

#[tactic(auto, unfolding(qp_chart_text::specs::Tokens::is_identifier))]
fn is_identifier(text: &[u8]) -> bool
    ensures { result ≡ is_identifier text.now }
{
    match text {
        [] => false,
        [first, rest @ ..] => is_letter(*first) && continues_word(rest),
    }
}

fn is_among(text: &str, words: &[&str]) -> bool
    ensures { result ≡ list_any (λ word. bytes_eq text.now word.now) words.now }
{
    words.iter().any(|word| text == *word)
}

#[tactic(auto, unfolding(crate::specs::Names::reserved))]
fn is_reserved(text: &str) -> bool
    ensures { result ≡ list_any (bytes_eq text.now) reserved }
{
    is_among(text, &RESERVED)
}

/// Whether a text is a name: a word of at most 24 bytes that isn't reserved.
#[tactic(auto, unfolding(crate::specs::Names::is_name))]
pub fn is_allowed(text: &str) -> bool
    ensures { result ≡ is_name text.now }
{
    is_identifier(text.as_bytes()) && text.len() <= 24 && !is_reserved(text)
}
