//! The tokens of a text.

ghost use Rattle.std.specs.Prelude.{◌≡◌, ◌+◌, ◌-◌, ◌*◌, ◌^◌, ◌≤◌, ◌||◌, IfSome, IfNone, length, map, take, drop, slice_index};
ghost use Rattle.std.specs.List.{prefix_len};
ghost use Rattle.std.specs.Char.{is_ascii_digit};
ghost use Rattle.std.specs.Option.{option_map};
ghost use Rattle.std.specs.Str.{IsAscii};
ghost use Rattle.qp_chart_text.specs.Tokens.{tok_of, keyword_of, atom_of, word_token, number_token, number_within, value_after, name_token, mark_token, read_mark, token_at, tokens_of_text, is_letter, is_word_byte, is_space};
ghost use Rattle.qp_chart_text.specs.Reading.{Gives};

use crate::names::Name;
use crate::operators::Binary;
use crate::trees::ExprFault;
use std::alloc::Global;

/// A reserved word.
#[derive(Clone, Copy)]
pub enum Keyword {
    Locked,
    Say,
    Post,
    Lifo,
    Forward,
    Publish,
    Defer,
    Recall,
    Flush,
    Subscribe,
    Unsubscribe,
    Arm,
    Rearm,
    Disarm,
    Margin,
    Reserve,
}

/// A token of a text. `Par(j)` is `pj`; a minus is an operator of two operands here.
#[derive(Clone, Copy)]
pub enum Token {
    Num(i64),
    Key(Keyword),
    Name(Name),
    Ok,
    Me,
    Par(u8),
    Op(Binary),
    Bang,
    Assign,
    Open,
    Close,
    OpenList,
    CloseList,
    Comma,
    Semicolon,
}

/// The tokens of a text.
#[tactic(auto, unfolding(crate::specs::Tokens::tokens_of_text))]
pub fn read_tokens(alloc: Global, text: &str) -> Result<Vec<Token>, ExprFault>
    ensures { Gives (λ v. map tok_of v.items) result (tokens_of_text text.now) }
{
    let bytes = text.as_bytes();
    if has_outer_space(bytes) {
        return Err(ExprFault::Bad);
    }
    let mut tokens = Vec::new(alloc);
    let mut rest = bytes;
    while !rest.is_empty() {
        match next_token(rest) {
            Some((token, after)) => {
                tokens.push(token)?;
                rest = after;
            }
            None => return Err(ExprFault::Bad),
        }
    }
    Ok(tokens)
}

// Whether a space stands at either end.
fn has_outer_space(bytes: &[u8]) -> bool
    ensures { result ≡ (is_space (slice_index bytes.now 0) || is_space (slice_index bytes.now (length bytes.now - 1))) }
{
    match bytes {
        [] => false,
        [first, ..] => *first == b' ' || bytes[bytes.len() - 1] == b' ',
    }
}

// The first token behind spaces, and the bytes after it.
fn next_token(bytes: &[u8]) -> Option<(Token, &[u8])>
    ensures { option_map (λ x. (tok_of x.0, x.1.now)) result ≡ token_at (drop (prefix_len is_space bytes.now) bytes.now) }
{
    let (_, rest) = cut(bytes, spaces_len(bytes));
    first_token(rest)
}

// The first token, and the bytes after it.
#[tactic(auto, unfolding(crate::specs::Tokens::token_at))]
fn first_token(bytes: &[u8]) -> Option<(Token, &[u8])>
    ensures { option_map (λ x. (tok_of x.0, x.1.now)) result ≡ token_at bytes.now }
{
    let first = bytes.first().copied().unwrap_or(0);
    if is_letter(first) {
        let (word, rest) = cut(bytes, word_len(bytes));
        Some((word_token_of(word)?, rest))
    } else if first.is_ascii_digit() {
        let (digits, rest) = cut(bytes, digits_len(bytes));
        Some((number_token_of(digits)?, rest))
    } else {
        first_mark(bytes)
    }
}

fn is_letter(b: u8) -> bool
    ensures { result ≡ is_letter b }
{
    b.is_ascii_alphabetic() || b == b'_'
}

fn word_len(bytes: &[u8]) -> usize
    ensures { result ≡ prefix_len is_word_byte bytes.now }
{
    bytes
        .iter()
        .take_while(|b| is_letter(**b) || b.is_ascii_digit())
        .count()
}

fn spaces_len(bytes: &[u8]) -> usize
    ensures { result ≡ prefix_len is_space bytes.now }
{
    bytes.iter().take_while(|b| **b == b' ').count()
}

fn digits_len(bytes: &[u8]) -> usize
    ensures { result ≡ prefix_len is_ascii_digit bytes.now }
{
    bytes.iter().take_while(|b| b.is_ascii_digit()).count()
}

// A word is reserved, stands for a value, or is a name.
fn word_token_of(word: &[u8]) -> Option<Token>
    requires { IsAscii word.now }
    ensures { option_map tok_of result ≡ word_token word.now }
{
    match str::from_utf8(word) {
        Ok(word) => text_token(word),
        Err(_) => None,
    }
}

#[tactic(auto, unfolding(crate::specs::Tokens::word_token))]
fn text_token(word: &str) -> Option<Token>
    ensures { option_map tok_of result ≡ word_token word.now }
{
    if let Some(key) = reserved_word(word) {
        return Some(Token::Key(key));
    }
    if let Some(token) = atom(word) {
        return Some(token);
    }
    name(word)
}

// The reserved word that is spelled so.
#[tactic(auto, unfolding(crate::specs::Tokens::keyword_of))]
fn reserved_word(word: &str) -> Option<Keyword>
    ensures { result ≡ keyword_of word.now }
{
    match word {
        "locked" => Some(Keyword::Locked),
        "say" => Some(Keyword::Say),
        "post" => Some(Keyword::Post),
        "lifo" => Some(Keyword::Lifo),
        "forward" => Some(Keyword::Forward),
        "publish" => Some(Keyword::Publish),
        "defer" => Some(Keyword::Defer),
        "recall" => Some(Keyword::Recall),
        "flush" => Some(Keyword::Flush),
        "subscribe" => Some(Keyword::Subscribe),
        "unsubscribe" => Some(Keyword::Unsubscribe),
        "arm" => Some(Keyword::Arm),
        "rearm" => Some(Keyword::Rearm),
        "disarm" => Some(Keyword::Disarm),
        "margin" => Some(Keyword::Margin),
        "reserve" => Some(Keyword::Reserve),
        _ => None,
    }
}

// The value that is spelled so.
#[tactic(auto, unfolding(crate::specs::Tokens::atom_of))]
fn atom(word: &str) -> Option<Token>
    ensures { option_map tok_of result ≡ atom_of word.now }
{
    match word {
        "ok" => Some(Token::Ok),
        "me" => Some(Token::Me),
        "p1" => Some(Token::Par(1)),
        "p2" => Some(Token::Par(2)),
        "p3" => Some(Token::Par(3)),
        "p4" => Some(Token::Par(4)),
        "p5" => Some(Token::Par(5)),
        "p6" => Some(Token::Par(6)),
        "p7" => Some(Token::Par(7)),
        "p8" => Some(Token::Par(8)),
        _ => None,
    }
}

// A name that isn't too long.
fn name(word: &str) -> Option<Token>
    ensures { option_map tok_of result ≡ name_token word.now }
{
    Name::from(word).ok().map(Token::Name)
}

// A number without a leading zero.
#[tactic(auto, unfolding(crate::specs::Tokens::number_token))]
fn number_token_of(digits: &[u8]) -> Option<Token>
    ensures { option_map tok_of result ≡ number_token digits.now }
{
    if digits.first().copied().unwrap_or(0) == b'0' && digits.len() != 1 {
        return None;
    }
    Some(Token::Num(number(digits)?))
}

// The number that decimal digits write.
fn number(digits: &[u8]) -> Option<i64>
    ensures { result ≡ number_within (value_after 0 digits.now) }
{
    let mut value: u64 = 0;
    for d in digits {
        match with_digit(value, *d) {
            Some(longer) => value = longer,
            None => return None,
        }
    }
    i64::try_from(value).ok()
}

// The number with one more digit, unless it passes 64 bits.
fn with_digit(value: u64, digit: u8) -> Option<u64>
    ensures value { IfSome result (λ n. n ≡ value * 10 + (digit - 48)) }
    ensures large { IfNone result (2 ^ 64 ≤ value * 10 + (digit - 48)) }
{
    let digit = u64::from(digit.saturating_sub(b'0'));
    value.checked_mul(10)?.checked_add(digit)
}

// An operator or a mark; of two the longer.
#[tactic(auto, unfolding(crate::specs::Tokens::read_mark))]
fn first_mark(bytes: &[u8]) -> Option<(Token, &[u8])>
    ensures { option_map (λ x. (tok_of x.0, x.1.now)) result ≡ read_mark bytes.now }
{
    let (two, after) = cut(bytes, 2);
    if let Some(token) = mark(two) {
        return Some((token, after));
    }
    let (one, after) = cut(bytes, 1);
    Some((mark(one)?, after))
}

// At most n bytes, and those after them.
fn cut(bytes: &[u8], n: usize) -> (&[u8], &[u8])
    ensures front { result.0.now ≡ take n bytes.now }
    ensures after { result.1.now ≡ drop n bytes.now }
{
    bytes.split_at(n.min(bytes.len()))
}

// The operator or mark that is spelled so.
#[tactic(auto, unfolding(crate::specs::Tokens::mark_token))]
fn mark(text: &[u8]) -> Option<Token>
    ensures { option_map tok_of result ≡ mark_token text.now }
{
    match text {
        b"||" => Some(Token::Op(Binary::Or)),
        b"&&" => Some(Token::Op(Binary::And)),
        b"==" => Some(Token::Op(Binary::Equal)),
        b"!=" => Some(Token::Op(Binary::Differs)),
        b"<=" => Some(Token::Op(Binary::AtMost)),
        b">=" => Some(Token::Op(Binary::AtLeast)),
        b"<" => Some(Token::Op(Binary::Below)),
        b">" => Some(Token::Op(Binary::Above)),
        b"+" => Some(Token::Op(Binary::Plus)),
        b"-" => Some(Token::Op(Binary::Minus)),
        b"*" => Some(Token::Op(Binary::Times)),
        b"/" => Some(Token::Op(Binary::Over)),
        b"%" => Some(Token::Op(Binary::Rest)),
        b"!" => Some(Token::Bang),
        b"=" => Some(Token::Assign),
        b"(" => Some(Token::Open),
        b")" => Some(Token::Close),
        b"[" => Some(Token::OpenList),
        b"]" => Some(Token::CloseList),
        b"," => Some(Token::Comma),
        b";" => Some(Token::Semicolon),
        _ => None,
    }
}
