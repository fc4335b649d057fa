//! Reading an action.

ghost use Rattle.std.specs.Prelude.{◌≡◌, ℕ, ◌<◌, ◌≤◌, length, map, IfOk};
ghost use Rattle.qp_chart_text.specs.Terms.{Command, term_of, event_of_tree, order_of, command_of};
ghost use Rattle.qp_chart_text.specs.Tokens.{tok_of};
ghost use Rattle.qp_chart_text.specs.Reading.{Gives};
ghost use Rattle.qp_chart_text.specs.ReadingActions.{more_terms, terms_at, pars_at, event_tree_at, assignment_at, say_at, post_at, lifo_at, forward_at, publish_at, arm_at, rearm_at, behind_keyword, plain_at, more_orders, orders_at, locked_at, command_at, command_of_text};
ghost use Rattle.qp_chart_text.specs.ActionGrammar.{IsActionText};

use crate::names::Name;
use crate::parser::expr_at;
use crate::phrases::{
    after_assign, after_close, after_close_list, after_comma, after_open, after_open_list,
    after_semicolon, margin_at, name_at, number_at, receiver_at, reserve_at,
};
use crate::tokens::{Keyword, Token, read_tokens};
use crate::trees::{Action, EventTree, Expr, ExprFault, Exprs, PlainAction, PlainActions};
use std::alloc::Global;

/// Reads the text of an action.
pub fn read_action(alloc: Global, text: &str) -> Result<Action, ExprFault>
    ensures exact { Gives command_of result (command_of_text text.now) }
    // What is read is the action that the text is.
    ensures found { IfOk result (λ a. IsActionText text.now (command_of a)) }
    // A text that is an action is not refused.
    ensures bad { result ≡ Err ExprFault.Bad → (a : Command) → ¬ IsActionText text.now a }
{
    read_whole(alloc, text)
}

#[tactic(auto, unfolding(crate::specs::ReadingActions::command_of_text))]
fn read_whole(alloc: Global, text: &str) -> Result<Action, ExprFault>
    ensures exact { Gives command_of result (command_of_text text.now) }
{
    let tokens = read_tokens(alloc, text)?;
    match command_at(alloc, &tokens) {
        Ok((action, [])) => Ok(action),
        Ok(_) => Err(ExprFault::Bad),
        Err(fault) => Err(fault),
    }
}

// An action.
#[tactic(auto, unfolding(crate::specs::ReadingActions::command_at, crate::specs::Terms::command_of))]
fn command_at(alloc: Global, tokens: &[Token]) -> Result<(Action, &[Token]), ExprFault>
    ensures { Gives (λ x. (command_of x.0, map tok_of x.1.now)) result (command_at (map tok_of tokens.now)) }
{
    match tokens {
        [Token::Key(Keyword::Locked), rest @ ..] => locked_at(alloc, rest),
        _ => match plain_at(alloc, tokens) {
            Ok((plain, rest)) => Ok((Action::Plain(plain), rest)),
            Err(fault) => Err(fault),
        },
    }
}

// A ceiling and the actions under it.
#[tactic(auto, unfolding(crate::specs::ReadingActions::locked_at, crate::specs::Terms::command_of))]
fn locked_at(alloc: Global, tokens: &[Token]) -> Result<(Action, &[Token]), ExprFault>
    ensures { Gives (λ x. (command_of x.0, map tok_of x.1.now)) result (locked_at (map tok_of tokens.now)) }
{
    let (ceiling, rest) = number_at(tokens)?;
    let Some(rest) = after_open_list(rest) else {
        return Err(ExprFault::Bad);
    };
    match orders_at(alloc, rest) {
        Ok((acts, rest)) => match after_close_list(rest) {
            Some(rest) => Ok((Action::Locked { ceiling, acts }, rest)),
            None => Err(ExprFault::Bad),
        },
        Err(fault) => Err(fault),
    }
}

// One or more plain actions.
#[tactic(auto, unfolding(crate::specs::ReadingActions::orders_at))]
fn orders_at(alloc: Global, tokens: &[Token]) -> Result<(PlainActions, &[Token]), ExprFault>
    ensures { Gives (λ x. (map order_of x.0, map tok_of x.1.now)) result (orders_at (map tok_of tokens.now)) }
{
    match plain_at(alloc, tokens) {
        Ok((first, rest)) => {
            let mut items = Vec::new(alloc);
            items.push(first)?;
            more_orders(alloc, items, rest)
        }
        Err(fault) => Err(fault),
    }
}

// These actions, and then each that stands behind a semicolon.
fn more_orders(
    alloc: Global,
    mut items: Vec<PlainAction>,
    tokens: &[Token],
) -> Result<(PlainActions, &[Token]), ExprFault>
    ensures { (n : ℕ) → length tokens.now ≤ n → Gives (λ x. (map order_of x.0, map tok_of x.1.now)) result
        (more_orders n (map order_of items.items) (map tok_of tokens.now)) }
{
    let mut rest = tokens;
    while let Some(behind) = after_semicolon(rest) {
        match plain_at(alloc, behind) {
            Ok((next, after)) => {
                items.push(next)?;
                rest = after;
            }
            Err(fault) => return Err(fault),
        }
    }
    Ok((PlainActions { items }, rest))
}

// A plain action.
#[tactic(auto, unfolding(crate::specs::ReadingActions::plain_at))]
fn plain_at(alloc: Global, tokens: &[Token]) -> Result<(PlainAction, &[Token]), ExprFault>
    ensures exact { Gives (λ x. (order_of x.0, map tok_of x.1.now)) result (plain_at (map tok_of tokens.now)) }
    ensures shorter { IfOk result (λ x. length x.1.now < length tokens.now) }
{
    match tokens {
        [Token::Name(name), rest @ ..] => set_at(alloc, *name, rest),
        [Token::Key(word), rest @ ..] => behind(alloc, *word, rest),
        _ => Err(ExprFault::Bad),
    }
}

// What stands behind the word that begins a plain action.
#[tactic(auto, unfolding(crate::specs::ReadingActions::behind_keyword, crate::specs::Terms::order_of))]
fn behind(
    alloc: Global,
    word: Keyword,
    tokens: &[Token],
) -> Result<(PlainAction, &[Token]), ExprFault>
    ensures exact { Gives (λ x. (order_of x.0, map tok_of x.1.now)) result (behind_keyword word (map tok_of tokens.now)) }
    ensures no_longer { IfOk result (λ x. length x.1.now ≤ length tokens.now) }
{
    match word {
        Keyword::Say => say_at(alloc, tokens),
        Keyword::Post => post_at(alloc, tokens),
        Keyword::Lifo => lifo_at(alloc, tokens),
        Keyword::Forward => forward_at(tokens),
        Keyword::Publish => publish_at(alloc, tokens),
        Keyword::Defer => Ok((PlainAction::Defer, tokens)),
        Keyword::Recall => Ok((PlainAction::Recall, tokens)),
        Keyword::Flush => Ok((PlainAction::Flush, tokens)),
        Keyword::Subscribe => match name_at(tokens) {
            Some((signal, rest)) => Ok((PlainAction::Subscribe(signal), rest)),
            None => Err(ExprFault::Bad),
        },
        Keyword::Unsubscribe => match name_at(tokens) {
            Some((signal, rest)) => Ok((PlainAction::Unsubscribe(signal), rest)),
            None => Err(ExprFault::Bad),
        },
        Keyword::Arm => arm_at(alloc, tokens),
        Keyword::Rearm => rearm_at(alloc, tokens),
        Keyword::Disarm => match name_at(tokens) {
            Some((timer, rest)) => Ok((PlainAction::Disarm { timer }, rest)),
            None => Err(ExprFault::Bad),
        },
        Keyword::Locked | Keyword::Margin | Keyword::Reserve => Err(ExprFault::Bad),
    }
}

// What stands behind the name of a variable.
#[tactic(auto, unfolding(crate::specs::ReadingActions::assignment_at, crate::specs::Terms::order_of))]
fn set_at(alloc: Global, var: Name, tokens: &[Token]) -> Result<(PlainAction, &[Token]), ExprFault>
    ensures exact { Gives (λ x. (order_of x.0, map tok_of x.1.now)) result (assignment_at var (map tok_of tokens.now)) }
    ensures no_longer { IfOk result (λ x. length x.1.now ≤ length tokens.now) }
{
    let Some(rest) = after_assign(tokens) else {
        return Err(ExprFault::Bad);
    };
    let (value, rest) = expr_at(alloc, rest)?;
    Ok((PlainAction::Set { var, value }, rest))
}

#[tactic(auto, unfolding(crate::specs::ReadingActions::say_at, crate::specs::Terms::order_of))]
fn say_at(alloc: Global, tokens: &[Token]) -> Result<(PlainAction, &[Token]), ExprFault>
    ensures exact { Gives (λ x. (order_of x.0, map tok_of x.1.now)) result (say_at (map tok_of tokens.now)) }
    ensures no_longer { IfOk result (λ x. length x.1.now ≤ length tokens.now) }
{
    let (value, rest) = expr_at(alloc, tokens)?;
    Ok((PlainAction::Say(value), rest))
}

#[tactic(auto, unfolding(crate::specs::ReadingActions::post_at, crate::specs::Terms::order_of))]
fn post_at(alloc: Global, tokens: &[Token]) -> Result<(PlainAction, &[Token]), ExprFault>
    ensures exact { Gives (λ x. (order_of x.0, map tok_of x.1.now)) result (post_at (map tok_of tokens.now)) }
    ensures no_longer { IfOk result (λ x. length x.1.now ≤ length tokens.now) }
{
    let Some((to, rest)) = receiver_at(tokens) else {
        return Err(ExprFault::Bad);
    };
    match event_at(alloc, rest) {
        Ok((event, rest)) => {
            let (margin, rest) = margin_at(rest)?;
            let (reserve, rest) = reserve_at(rest)?;
            let post = PlainAction::Post {
                to,
                event,
                margin,
                reserve,
            };
            Ok((post, rest))
        }
        Err(fault) => Err(fault),
    }
}

#[tactic(auto, unfolding(crate::specs::ReadingActions::lifo_at, crate::specs::Terms::order_of))]
fn lifo_at(alloc: Global, tokens: &[Token]) -> Result<(PlainAction, &[Token]), ExprFault>
    ensures exact { Gives (λ x. (order_of x.0, map tok_of x.1.now)) result (lifo_at (map tok_of tokens.now)) }
    ensures no_longer { IfOk result (λ x. length x.1.now ≤ length tokens.now) }
{
    match event_at(alloc, tokens) {
        Ok((event, rest)) => {
            let (reserve, rest) = reserve_at(rest)?;
            Ok((PlainAction::Lifo { event, reserve }, rest))
        }
        Err(fault) => Err(fault),
    }
}

#[tactic(auto, unfolding(crate::specs::ReadingActions::forward_at, crate::specs::Terms::order_of))]
fn forward_at(tokens: &[Token]) -> Result<(PlainAction, &[Token]), ExprFault>
    ensures exact { Gives (λ x. (order_of x.0, map tok_of x.1.now)) result (forward_at (map tok_of tokens.now)) }
    ensures no_longer { IfOk result (λ x. length x.1.now ≤ length tokens.now) }
{
    let Some((to, rest)) = receiver_at(tokens) else {
        return Err(ExprFault::Bad);
    };
    let (margin, rest) = margin_at(rest)?;
    Ok((PlainAction::Forward { to, margin }, rest))
}

#[tactic(auto, unfolding(crate::specs::ReadingActions::publish_at, crate::specs::Terms::order_of))]
fn publish_at(alloc: Global, tokens: &[Token]) -> Result<(PlainAction, &[Token]), ExprFault>
    ensures exact { Gives (λ x. (order_of x.0, map tok_of x.1.now)) result (publish_at (map tok_of tokens.now)) }
    ensures no_longer { IfOk result (λ x. length x.1.now ≤ length tokens.now) }
{
    match event_at(alloc, tokens) {
        Ok((event, rest)) => {
            let (reserve, rest) = reserve_at(rest)?;
            Ok((PlainAction::Publish { event, reserve }, rest))
        }
        Err(fault) => Err(fault),
    }
}

#[tactic(auto, unfolding(crate::specs::ReadingActions::arm_at, crate::specs::Terms::order_of))]
fn arm_at(alloc: Global, tokens: &[Token]) -> Result<(PlainAction, &[Token]), ExprFault>
    ensures exact { Gives (λ x. (order_of x.0, map tok_of x.1.now)) result (arm_at (map tok_of tokens.now)) }
    ensures no_longer { IfOk result (λ x. length x.1.now ≤ length tokens.now) }
{
    let Some((timer, rest)) = name_at(tokens) else {
        return Err(ExprFault::Bad);
    };
    let Some(rest) = after_open(rest) else {
        return Err(ExprFault::Bad);
    };
    let (ticks, rest) = expr_at(alloc, rest)?;
    let Some(rest) = after_comma(rest) else {
        return Err(ExprFault::Bad);
    };
    let (interval, rest) = expr_at(alloc, rest)?;
    let Some(rest) = after_close(rest) else {
        return Err(ExprFault::Bad);
    };
    Ok((
        PlainAction::Arm {
            timer,
            ticks,
            interval,
        },
        rest,
    ))
}

#[tactic(auto, unfolding(crate::specs::ReadingActions::rearm_at, crate::specs::Terms::order_of))]
fn rearm_at(alloc: Global, tokens: &[Token]) -> Result<(PlainAction, &[Token]), ExprFault>
    ensures exact { Gives (λ x. (order_of x.0, map tok_of x.1.now)) result (rearm_at (map tok_of tokens.now)) }
    ensures no_longer { IfOk result (λ x. length x.1.now ≤ length tokens.now) }
{
    let Some((timer, rest)) = name_at(tokens) else {
        return Err(ExprFault::Bad);
    };
    let Some(rest) = after_open(rest) else {
        return Err(ExprFault::Bad);
    };
    let (ticks, rest) = expr_at(alloc, rest)?;
    let Some(rest) = after_close(rest) else {
        return Err(ExprFault::Bad);
    };
    Ok((PlainAction::Rearm { timer, ticks }, rest))
}

// A signal and its parameters.
#[tactic(auto, unfolding(crate::specs::ReadingActions::event_tree_at, crate::specs::Terms::event_of_tree))]
fn event_at(alloc: Global, tokens: &[Token]) -> Result<(EventTree, &[Token]), ExprFault>
    ensures exact { Gives (λ x. (event_of_tree x.0, map tok_of x.1.now)) result (event_tree_at (map tok_of tokens.now)) }
    ensures no_longer { IfOk result (λ x. length x.1.now ≤ length tokens.now) }
{
    let Some((signal, rest)) = name_at(tokens) else {
        return Err(ExprFault::Bad);
    };
    let (pars, rest) = pars_at(alloc, rest)?;
    Ok((EventTree { signal, pars }, rest))
}

// Parameters in parentheses, or none.
#[tactic(auto, unfolding(crate::specs::ReadingActions::pars_at))]
fn pars_at(alloc: Global, tokens: &[Token]) -> Result<(Exprs, &[Token]), ExprFault>
    ensures exact { Gives (λ x. (map term_of x.0, map tok_of x.1.now)) result (pars_at (map tok_of tokens.now)) }
    ensures no_longer { IfOk result (λ x. length x.1.now ≤ length tokens.now) }
{
    let Some(rest) = after_open(tokens) else {
        let items = Vec::new(alloc);
        return Ok((Exprs { items }, tokens));
    };
    let (pars, rest) = terms_at(alloc, rest)?;
    match after_close(rest) {
        Some(rest) => Ok((pars, rest)),
        None => Err(ExprFault::Bad),
    }
}

// One or more expressions.
#[tactic(auto, unfolding(crate::specs::ReadingActions::terms_at))]
fn terms_at(alloc: Global, tokens: &[Token]) -> Result<(Exprs, &[Token]), ExprFault>
    ensures exact { Gives (λ x. (map term_of x.0, map tok_of x.1.now)) result (terms_at (map tok_of tokens.now)) }
    ensures no_longer { IfOk result (λ x. length x.1.now ≤ length tokens.now) }
{
    let (first, rest) = expr_at(alloc, tokens)?;
    let mut items = Vec::new(alloc);
    items.push(first)?;
    more_terms(alloc, items, rest)
}

// These expressions, and then each that stands behind a comma.
fn more_terms(
    alloc: Global,
    mut items: Vec<Expr>,
    tokens: &[Token],
) -> Result<(Exprs, &[Token]), ExprFault>
    ensures exact { (n : ℕ) → length tokens.now ≤ n → Gives (λ x. (map term_of x.0, map tok_of x.1.now)) result
        (more_terms n (map term_of items.items) (map tok_of tokens.now)) }
    ensures no_longer { IfOk result (λ x. length x.1.now ≤ length tokens.now) }
{
    let mut rest = tokens;
    while let Some(behind) = after_comma(rest) {
        let (next, after) = expr_at(alloc, behind)?;
        items.push(next)?;
        rest = after;
    }
    Ok((Exprs { items }, rest))
}
