//! The value of an expression.

ghost use Rattle.std.specs.Prelude.{◌≡◌, ◌-◌, pos, slice_get};
ghost use Rattle.std.specs.Option.{unwrap_or};
ghost use Rattle.std.specs.Int.{w64, cast_signed};
ghost use Rattle.qp_chart.specs.Expr.{value_of, unary_value, binary_value, names_in, of_truth};

use crate::expression::{Bound, Node};
use qp_chart_text::{Binary, Unary};

/// What the names of an expression stand for: the object's variables in ascending name, the parameters of the event,
/// the object's last answer and its priority.
#[derive(Clone, Copy)]
pub struct Env<'a> {
    pub vars: &'a [i64],
    pub pars: &'a [u64],
    pub ok: i64,
    pub me: u8,
}

/// The value of an expression. A variable or a parameter that isn't there counts as 0. It takes no memory.
#[tactic(auto, unfolding(crate::specs::Expr::value_of))]
pub fn eval(e: &Bound, env: &Env<'_>) -> i64
    ensures { result ≡ value_of (names_in env.now) e.now }
{
    match &e.node {
        Node::Num(n) => *n,
        Node::Var(v) => variable(env.vars, *v),
        Node::Ok => env.ok,
        Node::Me => i64::from(env.me),
        Node::Par(j) => parameter(env.pars, *j),
        Node::One(op, x) => unary(*op, eval(x, env)),
        Node::Two(op, x, y) => {
            let left = eval(x, env);
            binary(*op, left, eval(y, env))
        }
    }
}

fn variable(vars: &[i64], v: u8) -> i64
    ensures { result ≡ unwrap_or (slice_get vars.now v) (pos 0) }
{
    match vars.get(usize::from(v)) {
        Some(x) => *x,
        None => 0,
    }
}

/// The 64 bits of a parameter, numbered from 1.
fn parameter(pars: &[u64], j: u8) -> i64
    ensures { result ≡ cast_signed w64 (unwrap_or (slice_get pars.now (j - 1)) 0) }
{
    match pars.get(usize::from(j).saturating_sub(1)) {
        Some(x) => x.cast_signed(),
        None => 0,
    }
}

#[tactic(auto, unfolding(crate::specs::Expr::unary_value))]
fn unary(op: Unary, x: i64) -> i64
    ensures { result ≡ unary_value op x }
{
    match op {
        Unary::Minus => x.wrapping_neg(),
        Unary::Not => truth(x == 0),
    }
}

#[tactic(auto, unfolding(crate::specs::Expr::binary_value))]
fn binary(op: Binary, x: i64, y: i64) -> i64
    ensures { result ≡ binary_value op x y }
{
    match op {
        Binary::Or => truth(x != 0 || y != 0),
        Binary::And => truth(x != 0 && y != 0),
        Binary::Equal => truth(x == y),
        Binary::Differs => truth(x != y),
        Binary::Below => truth(x < y),
        Binary::AtMost => truth(x <= y),
        Binary::Above => truth(x > y),
        Binary::AtLeast => truth(x >= y),
        Binary::Plus => x.wrapping_add(y),
        Binary::Minus => x.wrapping_sub(y),
        Binary::Times => x.wrapping_mul(y),
        Binary::Over => { if y == 0 { 0 } else { x.wrapping_div(y) } }
        Binary::Rest => { if y == 0 { 0 } else { x.wrapping_rem(y) } }
    }
}

// 1 or 0.
fn truth(holds: bool) -> i64
    ensures { result ≡ of_truth holds }
{
    i64::from(holds)
}
