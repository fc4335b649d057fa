//! Reading an expression.

ghost use Rattle.std.specs.Prelude.{◌≡◌, ◌<◌, ◌≤◌, length, map, IfOk, IfSome};
ghost use Rattle.std.specs.Option.{option_map};
ghost use Rattle.qp_chart_text.specs.Terms.{Term, term_of};
ghost use Rattle.qp_chart_text.specs.Tokens.{tok_of};
ghost use Rattle.qp_chart_text.specs.Reading.{Gives, rank_of, operator_at, prefix_at, nested_at, level_at, unary_at, atom_at, expr_at, term_of_text};
ghost use Rattle.qp_chart_text.specs.Grammar.{IsExprText};

use crate::operators::{Binary, Unary};
use crate::phrases::after_close;
use crate::tokens::{Token, read_tokens};
use crate::trees::{Expr, ExprFault};
use std::alloc::Global;

/// How deep signs and parentheses may nest.
const NESTING: u8 = 16;

/// How loosely a comparison binds.
const COMPARISON: u8 = 3;

/// How loosely the loosest operator binds.
const LOOSEST: u8 = 5;

/// What begins an operand that isn't an atom.
#[derive(Clone, Copy)]
pub enum Prefix {
    Sign(Unary),
    Parens,
}

/// Reads the text of an expression.
pub fn read_expr(alloc: Global, text: &str) -> Result<Expr, ExprFault>
    ensures exact { Gives term_of result (term_of_text text.now) }
    // What is read is the expression that the text is.
    ensures found { IfOk result (λ e. IsExprText text.now (term_of e)) }
    // A text that is an expression is not refused.
    ensures bad { result ≡ Err ExprFault.Bad → (e : Term) → ¬ IsExprText text.now e }
{
    read_whole(alloc, text)
}

#[tactic(auto, unfolding(crate::specs::Reading::term_of_text))]
fn read_whole(alloc: Global, text: &str) -> Result<Expr, ExprFault>
    ensures exact { Gives term_of result (term_of_text text.now) }
{
    let tokens = read_tokens(alloc, text)?;
    let (expr, rest) = expr_at(alloc, &tokens)?;
    if rest.is_empty() {
        Ok(expr)
    } else {
        Err(ExprFault::Bad)
    }
}

/// The expression that begins the tokens, and the tokens after it.
#[tactic(auto, unfolding(crate::specs::Reading::expr_at))]
pub fn expr_at(alloc: Global, tokens: &[Token]) -> Result<(Expr, &[Token]), ExprFault>
    ensures exact { Gives (λ x. (term_of x.0, map tok_of x.1.now)) result (expr_at (map tok_of tokens.now)) }
    ensures shorter { IfOk result (λ x. length x.1.now < length tokens.now) }
{
    level(alloc, LOOSEST, NESTING, tokens)
}

// Operands that are joined by operators up to this rank.
#[cycle(expression)]
fn level(
    alloc: Global,
    rank: u8,
    depth: u8,
    tokens: &[Token],
) -> Result<(Expr, &[Token]), ExprFault>
    ensures exact { Gives (λ x. (term_of x.0, map tok_of x.1.now)) result (level_at (unary_at depth) rank (map tok_of tokens.now)) }
    ensures shorter { IfOk result (λ x. length x.1.now < length tokens.now) }
{
    if rank == 0 {
        return unary(alloc, depth, tokens);
    }
    let (mut left, mut rest) = level(alloc, rank - 1, depth, tokens)?;
    while let Some((op, behind)) = operator(rank, rest) {
        let (right, after) = level(alloc, rank - 1, depth, behind)?;
        left = Expr::Two(op, Box::new(alloc, left)?, Box::new(alloc, right)?);
        rest = after;
        if rank == COMPARISON {
            return Ok((left, rest));
        }
    }
    Ok((left, rest))
}

// An operand: signs, parentheses and atoms.
#[cycle(expression)]
fn unary(alloc: Global, depth: u8, tokens: &[Token]) -> Result<(Expr, &[Token]), ExprFault>
    ensures exact { Gives (λ x. (term_of x.0, map tok_of x.1.now)) result (unary_at depth (map tok_of tokens.now)) }
    ensures shorter { IfOk result (λ x. length x.1.now < length tokens.now) }
{
    if depth == 0 {
        return atom(tokens);
    }
    match opening(tokens) {
        Some((prefix, behind)) => nested(alloc, prefix, depth - 1, behind),
        None => atom(tokens),
    }
}

// What stands behind a sign, or within parentheses.
#[cycle(expression)]
fn nested(
    alloc: Global,
    prefix: Prefix,
    depth: u8,
    tokens: &[Token],
) -> Result<(Expr, &[Token]), ExprFault>
    ensures exact { Gives (λ x. (term_of x.0, map tok_of x.1.now)) result (nested_at (unary_at depth) prefix (map tok_of tokens.now)) }
    ensures shorter { IfOk result (λ x. length x.1.now < length tokens.now) }
{
    match prefix {
        Prefix::Sign(op) => {
            let (inner, rest) = unary(alloc, depth, tokens)?;
            Ok((Expr::One(op, Box::new(alloc, inner)?), rest))
        }
        Prefix::Parens => {
            let (inner, rest) = level(alloc, LOOSEST, depth, tokens)?;
            match after_close(rest) {
                Some(rest) => Ok((inner, rest)),
                None => Err(ExprFault::Bad),
            }
        }
    }
}

// The sign or the parenthesis that begins the tokens.
#[tactic(auto, unfolding(crate::specs::Reading::prefix_at))]
fn opening(tokens: &[Token]) -> Option<(Prefix, &[Token])>
    ensures exact { option_map (λ x. (x.0, map tok_of x.1.now)) result ≡ prefix_at (map tok_of tokens.now) }
    ensures shorter { IfSome result (λ x. length x.1.now < length tokens.now) }
{
    match tokens {
        [Token::Bang, rest @ ..] => Some((Prefix::Sign(Unary::Not), rest)),
        [Token::Op(Binary::Minus), rest @ ..] => Some((Prefix::Sign(Unary::Minus), rest)),
        [Token::Open, rest @ ..] => Some((Prefix::Parens, rest)),
        _ => None,
    }
}

// A number or a name.
#[tactic(auto, unfolding(crate::specs::Reading::atom_at, crate::specs::Terms::term_of))]
fn atom(tokens: &[Token]) -> Result<(Expr, &[Token]), ExprFault>
    ensures exact { Gives (λ x. (term_of x.0, map tok_of x.1.now)) result (atom_at (map tok_of tokens.now)) }
    ensures shorter { IfOk result (λ x. length x.1.now < length tokens.now) }
{
    match tokens {
        [Token::Num(n), rest @ ..] => Ok((Expr::Num(*n), rest)),
        [Token::Name(name), rest @ ..] => Ok((Expr::Var(*name), rest)),
        [Token::Ok, rest @ ..] => Ok((Expr::Ok, rest)),
        [Token::Me, rest @ ..] => Ok((Expr::Me, rest)),
        [Token::Par(j), rest @ ..] => Ok((Expr::Par(*j), rest)),
        _ => Err(ExprFault::Bad),
    }
}

// The operator of this rank that begins the tokens.
#[tactic(auto, unfolding(crate::specs::Reading::operator_at))]
fn operator(rank: u8, tokens: &[Token]) -> Option<(Binary, &[Token])>
    ensures exact { option_map (λ x. (x.0, map tok_of x.1.now)) result ≡ operator_at rank (map tok_of tokens.now) }
    ensures shorter { IfSome result (λ x. length x.1.now < length tokens.now) }
{
    match tokens {
        [Token::Op(op), rest @ ..] if rank_of(*op) == rank => Some((*op, rest)),
        _ => None,
    }
}

// How loosely an operator binds.
#[tactic(auto, unfolding(crate::specs::Reading::rank_of))]
fn rank_of(op: Binary) -> u8
    ensures { result ≡ rank_of op }
{
    match op {
        Binary::Or => LOOSEST,
        Binary::And => 4,
        Binary::Equal
        | Binary::Differs
        | Binary::Below
        | Binary::AtMost
        | Binary::Above
        | Binary::AtLeast => COMPARISON,
        Binary::Plus | Binary::Minus => 2,
        Binary::Times | Binary::Over | Binary::Rest => 1,
    }
}
