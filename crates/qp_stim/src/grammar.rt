//! Lines by the grammar.

ghost use Rattle.std.specs.Prelude.{◌≡◌};
ghost use Rattle.std.specs.Option.{option_map};
ghost use Rattle.qp_stim.specs.Parts.{split_at_separator};
ghost use Rattle.qp_stim.specs.Grammar.{numbers_of_tokens, numbers_closed, event_of_words, option_at, only_number, post_of, publish_of, said_by, said_of};
ghost use Rattle.qp_stim.specs.Maps.{dictionary};
ghost use Rattle.qp_stim.specs.Parts.{before_separator, after_separator};
ghost use Rattle.qp_stim.specs.Reading.{tokens_left, held_option, option_left, no_pars, with_pars, heard_event, heard_of};
ghost use Rattle.qp_model.specs.WordOf.{fitting_number};

use crate::heard::{Event, Heard, Pars};
use crate::names::{SystemNames, is_identifier};
use crate::numbers::{Number, number};
use crate::tokens::{Tokens, cut};

const SOURCE: &[u8] = b"source";

const POST: &[u8] = b"post";

const PUBLISH: &[u8] = b"publish";

const TICK: &[u8] = b"tick";

const SETTLE: &[u8] = b"settle";

const MARGIN: &[u8] = b"margin";

const RESERVE: &[u8] = b"reserve";

/// Numbers with commas between them.
fn numbers(body: &[u8]) -> Option<Pars>
    ensures { result ≡ option_map (with_pars no_pars) (numbers_of_tokens (split_at_separator 44 body.now)) }
{
    let mut pars = Pars::new();
    let mut rest = Some(body);
    while let Some(text) = rest {
        let (token, more) = cut(text, b',');
        pars.add(number(token)?);
        rest = more;
    }
    Some(pars)
}

/// Numbers up to a `)`, and nothing behind it.
fn numbers_to_close(inside: &[u8]) -> Option<Pars>
    ensures { result ≡ option_map (with_pars no_pars) (numbers_closed (before_separator 41 inside.now) (after_separator 41 inside.now)) }
{
    let (body, end) = cut(inside, b')');
    match end {
        Some([]) => numbers(body),
        _ => None,
    }
}

#[tactic(auto, unfolding(crate::specs::Grammar::event_of_words))]
fn event(names: &SystemNames, token: &[u8]) -> Option<Event>
    ensures { result ≡ option_map (heard_event (dictionary names.now)) (event_of_words token.now) }
{
    let (name, inside) = cut(token, b'(');
    if !is_identifier(name) {
        return None;
    }
    let pars = match inside {
        None => Pars::new(),
        Some(inside) => numbers_to_close(inside)?,
    };
    Some(Event {
        signal: names.signal(name),
        pars,
    })
}

/// The number behind a word, where the word stands first.
#[tactic(auto, unfolding(crate::specs::Grammar::option_at))]
fn option<'a>(word: &[u8], tokens: Tokens<'a>) -> Option<(Option<Number>, Tokens<'a>)>
    ensures { option_map option_left result ≡ option_map held_option (option_at word.now (tokens_left tokens.entry)) }
{
    match tokens.next() {
        Some((first, rest)) if first == word => {
            let (token, rest) = rest.next()?;
            Some((Some(number(token)?), rest))
        }
        _ => Some((None, tokens)),
    }
}

#[tactic(auto, unfolding(crate::specs::Grammar::only_number))]
fn last_number(tokens: Tokens) -> Option<Number>
    ensures { result ≡ option_map fitting_number (only_number (tokens_left tokens.entry)) }
{
    let (token, rest) = tokens.next()?;
    if rest.is_empty() { number(token) } else { None }
}

#[tactic(auto, unfolding(crate::specs::Grammar::post_of))]
fn post(names: &SystemNames, tokens: Tokens) -> Option<Heard>
    ensures { result ≡ option_map (heard_of (dictionary names.now)) (post_of (tokens_left tokens.entry)) }
{
    let (object, tokens) = tokens.next()?;
    let (token, tokens) = tokens.next()?;
    let event = event(names, token)?;
    let (margin, tokens) = option(MARGIN, tokens)?;
    let (reserve, tokens) = option(RESERVE, tokens)?;
    if !is_identifier(object) || !tokens.is_empty() {
        return None;
    }
    Some(Heard::Post {
        to: names.object(object),
        event,
        margin,
        reserve,
    })
}

#[tactic(auto, unfolding(crate::specs::Grammar::publish_of))]
fn publish(names: &SystemNames, tokens: Tokens) -> Option<Heard>
    ensures { result ≡ option_map (heard_of (dictionary names.now)) (publish_of (tokens_left tokens.entry)) }
{
    let (token, tokens) = tokens.next()?;
    let event = event(names, token)?;
    let (reserve, tokens) = option(RESERVE, tokens)?;
    if tokens.is_empty() {
        Some(Heard::Publish { event, reserve })
    } else {
        None
    }
}

/// What a line says, if it is in the grammar.
#[tactic(auto, unfolding(crate::specs::Grammar::said_by))]
pub fn heard(names: &SystemNames, line: &[u8]) -> Option<Heard>
    ensures { result ≡ option_map (heard_of (dictionary names.now)) (said_of line.now) }
{
    let (word, tokens) = Tokens::of(line).next()?;
    if word == SOURCE {
        last_number(tokens).map(Heard::Source)
    } else if word == POST {
        post(names, tokens)
    } else if word == PUBLISH {
        publish(names, tokens)
    } else if word == TICK {
        last_number(tokens).map(Heard::Tick)
    } else if word == SETTLE && tokens.is_empty() {
        Some(Heard::Settle)
    } else {
        None
    }
}
