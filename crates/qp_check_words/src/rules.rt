//! The definitions of words, and the words at which each is tried.

ghost use Rattle.std.specs.Prelude.{◌≡◌};
ghost use Rattle.qp_check_words.specs.WordRules.{is_site, definition_of_rule, site_of};

use crate::verdict::Site;
use qp_model::{Word, definitions};

/// A definition of words.
#[derive(Clone, Copy)]
pub(crate) enum Rule {
    DrawnNumbers,
    FreeBlocks,
    References,
    Lives,
    Line,
    ShownNumbers,
    Subscribers,
    TimeEvents,
}

impl Rule {
    /// The number by which `check` names it.
    pub(crate) fn number(self) -> u8
        ensures { result ≡ definition_of_rule self }
    {
        match self {
            Rule::DrawnNumbers => definitions::DRAWN_NUMBERS,
            Rule::FreeBlocks => definitions::FREE_BLOCKS,
            Rule::References => definitions::REFERENCES,
            Rule::Lives => definitions::LIVES,
            Rule::Line => definitions::LINE,
            Rule::ShownNumbers => definitions::SHOWN_NUMBERS,
            Rule::Subscribers => definitions::SUBSCRIBERS,
            Rule::TimeEvents => definitions::TIME_EVENTS,
        }
    }

    /// Whether it is tried at this word.
    pub(crate) fn is_site(self, word: Word) -> bool
        ensures { result ≡ is_site self word }
    {
        match (self, word) {
            (Rule::DrawnNumbers | Rule::ShownNumbers, _)
            | (Rule::FreeBlocks, Word::Pool(_))
            | (Rule::References | Rule::Lives, Word::Block(..))
            | (Rule::Line, Word::Queue(_))
            | (Rule::Subscribers, Word::Signal(_))
            | (Rule::TimeEvents, Word::Timer(_)) => true,
            _ => false,
        }
    }
}

/// A word as a site.
pub(crate) fn site_of(word: Word) -> Site
    ensures { result ≡ site_of word }
{
    match word {
        Word::Pool(p) => Site::Pool(p),
        Word::Block(p, b) => Site::Block(p, b),
        Word::Queue(a) => Site::Queue(a),
        Word::Signal(s) => Site::Signal(s),
        Word::Timer(t) => Site::Timer(t),
    }
}
