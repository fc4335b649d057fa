//! The parts of an action that have no expression.

ghost use Rattle.std.specs.Prelude.{◌≡◌, ◌<◌, ◌≤◌, length, map, IfOk, IfSome};
ghost use Rattle.std.specs.Option.{option_map};
ghost use Rattle.qp_chart_text.specs.Terms.{address_of};
ghost use Rattle.qp_chart_text.specs.Tokens.{tok_of};
ghost use Rattle.qp_chart_text.specs.Reading.{Gives, after_close};
ghost use Rattle.qp_chart_text.specs.ReadingActions.{after_open, after_comma, after_assign, after_semicolon, after_open_list, after_close_list, name_at, number_token_at, receiver_at, margin_at, reserve_at};

use crate::names::Name;
use crate::tokens::{Keyword, Token};
use crate::trees::{ExprFault, Receiver};

/// The tokens behind a closing parenthesis.
#[tactic(auto, unfolding(crate::specs::Reading::after_close))]
pub fn after_close(tokens: &[Token]) -> Option<&[Token]>
    ensures exact { option_map (λ x. map tok_of x.now) result ≡ after_close (map tok_of tokens.now) }
    ensures shorter { IfSome result (λ x. length x.now < length tokens.now) }
{
    match tokens {
        [Token::Close, rest @ ..] => Some(rest),
        _ => None,
    }
}

/// The tokens behind an opening parenthesis.
#[tactic(auto, unfolding(crate::specs::ReadingActions::after_open))]
pub fn after_open(tokens: &[Token]) -> Option<&[Token]>
    ensures exact { option_map (λ x. map tok_of x.now) result ≡ after_open (map tok_of tokens.now) }
    ensures shorter { IfSome result (λ x. length x.now < length tokens.now) }
{
    match tokens {
        [Token::Open, rest @ ..] => Some(rest),
        _ => None,
    }
}

/// The tokens behind a comma.
#[tactic(auto, unfolding(crate::specs::ReadingActions::after_comma))]
pub fn after_comma(tokens: &[Token]) -> Option<&[Token]>
    ensures exact { option_map (λ x. map tok_of x.now) result ≡ after_comma (map tok_of tokens.now) }
    ensures shorter { IfSome result (λ x. length x.now < length tokens.now) }
{
    match tokens {
        [Token::Comma, rest @ ..] => Some(rest),
        _ => None,
    }
}

/// The tokens behind `=`.
#[tactic(auto, unfolding(crate::specs::ReadingActions::after_assign))]
pub fn after_assign(tokens: &[Token]) -> Option<&[Token]>
    ensures exact { option_map (λ x. map tok_of x.now) result ≡ after_assign (map tok_of tokens.now) }
    ensures shorter { IfSome result (λ x. length x.now < length tokens.now) }
{
    match tokens {
        [Token::Assign, rest @ ..] => Some(rest),
        _ => None,
    }
}

/// The tokens behind a semicolon.
#[tactic(auto, unfolding(crate::specs::ReadingActions::after_semicolon))]
pub fn after_semicolon(tokens: &[Token]) -> Option<&[Token]>
    ensures exact { option_map (λ x. map tok_of x.now) result ≡ after_semicolon (map tok_of tokens.now) }
    ensures shorter { IfSome result (λ x. length x.now < length tokens.now) }
{
    match tokens {
        [Token::Semicolon, rest @ ..] => Some(rest),
        _ => None,
    }
}

/// The tokens behind `[`.
#[tactic(auto, unfolding(crate::specs::ReadingActions::after_open_list))]
pub fn after_open_list(tokens: &[Token]) -> Option<&[Token]>
    ensures exact { option_map (λ x. map tok_of x.now) result ≡ after_open_list (map tok_of tokens.now) }
    ensures shorter { IfSome result (λ x. length x.now < length tokens.now) }
{
    match tokens {
        [Token::OpenList, rest @ ..] => Some(rest),
        _ => None,
    }
}

/// The tokens behind `]`.
#[tactic(auto, unfolding(crate::specs::ReadingActions::after_close_list))]
pub fn after_close_list(tokens: &[Token]) -> Option<&[Token]>
    ensures exact { option_map (λ x. map tok_of x.now) result ≡ after_close_list (map tok_of tokens.now) }
    ensures shorter { IfSome result (λ x. length x.now < length tokens.now) }
{
    match tokens {
        [Token::CloseList, rest @ ..] => Some(rest),
        _ => None,
    }
}

/// A name.
#[tactic(auto, unfolding(crate::specs::ReadingActions::name_at))]
pub fn name_at(tokens: &[Token]) -> Option<(Name, &[Token])>
    ensures exact { option_map (λ x. (x.0, map tok_of x.1.now)) result ≡ name_at (map tok_of tokens.now) }
    ensures no_longer { IfSome result (λ x. length x.1.now ≤ length tokens.now) }
{
    match tokens {
        [Token::Name(name), rest @ ..] => Some((*name, rest)),
        _ => None,
    }
}

/// A number.
#[tactic(auto, unfolding(crate::specs::ReadingActions::number_token_at))]
pub fn number_at(tokens: &[Token]) -> Result<(i64, &[Token]), ExprFault>
    ensures exact { Gives (λ x. (x.0, map tok_of x.1.now)) result (number_token_at (map tok_of tokens.now)) }
    ensures no_longer { IfOk result (λ x. length x.1.now ≤ length tokens.now) }
{
    match tokens {
        [Token::Num(n), rest @ ..] => Ok((*n, rest)),
        _ => Err(ExprFault::Bad),
    }
}

/// The object to which an action posts.
#[tactic(auto, unfolding(crate::specs::ReadingActions::receiver_at))]
pub fn receiver_at(tokens: &[Token]) -> Option<(Receiver, &[Token])>
    ensures exact { option_map (λ x. (address_of x.0, map tok_of x.1.now)) result ≡ receiver_at (map tok_of tokens.now) }
    ensures no_longer { IfSome result (λ x. length x.1.now ≤ length tokens.now) }
{
    match tokens {
        [Token::Name(name), rest @ ..] => Some((Receiver::Object(*name), rest)),
        [Token::Me, rest @ ..] => Some((Receiver::Me, rest)),
        _ => None,
    }
}

/// A margin, if one is given.
#[tactic(auto, unfolding(crate::specs::ReadingActions::margin_at))]
pub fn margin_at(tokens: &[Token]) -> Result<(Option<i64>, &[Token]), ExprFault>
    ensures exact { Gives (λ x. (x.0, map tok_of x.1.now)) result (margin_at (map tok_of tokens.now)) }
    ensures no_longer { IfOk result (λ x. length x.1.now ≤ length tokens.now) }
{
    match tokens {
        [Token::Key(Keyword::Margin), rest @ ..] => {
            let (n, rest) = number_at(rest)?;
            Ok((Some(n), rest))
        }
        _ => Ok((None, tokens)),
    }
}

/// A reserve, if one is given.
#[tactic(auto, unfolding(crate::specs::ReadingActions::reserve_at))]
pub fn reserve_at(tokens: &[Token]) -> Result<(Option<i64>, &[Token]), ExprFault>
    ensures exact { Gives (λ x. (x.0, map tok_of x.1.now)) result (reserve_at (map tok_of tokens.now)) }
    ensures no_longer { IfOk result (λ x. length x.1.now ≤ length tokens.now) }
{
    match tokens {
        [Token::Key(Keyword::Reserve), rest @ ..] => {
            let (n, rest) = number_at(rest)?;
            Ok((Some(n), rest))
        }
        _ => Ok((None, tokens)),
    }
}
