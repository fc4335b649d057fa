//! Parts of a text between separators.

ghost use Rattle.std.specs.Prelude.{◌≡◌, ◌==◌, [], ◌∷◌, length, MatchOption};
ghost use Rattle.std.specs.List.{position};
ghost use Rattle.std.specs.Option.{option_map};
ghost use Rattle.qp_stim.specs.Parts.{before_separator, after_separator, tokens_of_line};
ghost use Rattle.qp_stim.specs.Reading.{tokens_left};

/// The place of the first separator.
fn place_of(text: &[u8], separator: u8) -> Option<usize>
    ensures { result ≡ position (λ b. b == separator) text.now }
{
    text.iter().position(|b| *b == separator)
}

/// What stands before the first separator, and what stands after it, if there is one.
pub fn cut(text: &[u8], separator: u8) -> (&[u8], Option<&[u8]>)
    ensures front { result.0.now ≡ before_separator separator text.now }
    ensures rest { option_map (λ x. x.now) result.1 ≡ after_separator separator text.now }
{
    match place_of(text, separator) {
        None => (text, None),
        Some(place) => (&text[..place], Some(&text[place + 1..])),
    }
}

/// The tokens of a line that are still to be read: none, or those of a text.
#[derive(Clone, Copy)]
pub struct Tokens<'a> {
    rest: Option<&'a [u8]>,
}

impl<'a> Tokens<'a> {
    pub fn of(line: &'a [u8]) -> Self
        ensures { tokens_left result ≡ tokens_of_line line.now }
    {
        Tokens { rest: Some(line) }
    }

    /// The first token, and those behind it.
    pub fn next(self) -> Option<(&'a [u8], Tokens<'a>)>
        ensures { MatchOption result (tokens_left self.entry ≡ []) (λ x. tokens_left self.entry ≡ x.0.now ∷ tokens_left x.1) }
    {
        let (token, rest) = cut(self.rest?, b' ');
        Some((token, Tokens { rest }))
    }

    pub fn is_empty(self) -> bool
        ensures { result ≡ (length (tokens_left self.entry) == 0) }
    {
        self.rest.is_none()
    }
}
