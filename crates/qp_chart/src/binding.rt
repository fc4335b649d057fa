//! Resolving the names of an expression.

ghost use Rattle.std.specs.Prelude.{◌≡◌, ◌<◌, ◌≤◌, ℕ, List, false, true, length, slice_get, IfOk, IfErr, IfSome, IfNone};
ghost use Rattle.qp_chart_text.specs.Terms.{Word, Term, One, Two, term_of};
ghost use Rattle.std.specs.List.{list_any, position};
ghost use Rattle.qp_chart.specs.Binding.{Binds, IsCause};
ghost use Rattle.qp_chart_names.specs.Known.{has_name, words, is_among, knows};

use crate::expression::{Bound, Node};
use qp_chart_names::known::is_known;
use qp_chart_text::{Binary, Expr, Name, Unary};
use std::alloc::{AllocError, AllocFailed, Global};

/// Why the names of an expression are not resolved.
#[derive(Clone, Copy, PartialEq, Eq, Debug, Drop)]
pub enum BindFault {
    /// Memory ran out.
    Memory,
    /// A name is no variable.
    NoName,
    /// Each name is known, and a parameter's number is above the number of parameters.
    NoParameter,
}

impl From<AllocError> for BindFault {
    ghost use Rattle.std.specs.Prelude.{◌≡◌};
    ghost use Rattle.qp_chart.specs.declared.binding.BindFault.TheVariants.{Memory};

    ghost from_gives = { λ _ e. e ≡ Memory };

    fn from(_: AllocError) -> Self {
        BindFault::Memory
    }
}

impl<T: Drop> From<AllocFailed<T>> for BindFault {
    ghost use Rattle.std.specs.Prelude.{◌≡◌};
    ghost use Rattle.qp_chart.specs.declared.binding.BindFault.TheVariants.{Memory};

    ghost from_gives = { λ _ e. e ≡ Memory };

    fn from(_: AllocFailed<T>) -> Self {
        BindFault::Memory
    }
}

/// Resolves the names of an expression: `vars` are the names of the variables, and `params` is the number of
/// parameters of the event. A name that isn't known comes before a parameter that isn't.
pub fn bind(alloc: Global, e: &Expr, vars: &[Name], params: u8) -> Result<Bound, BindFault>
    requires { length vars.now ≤ 16 }
    ensures ok { IfOk result (Binds (words vars.now) params (term_of e.now)) }
    ensures refused { IfErr result (IsCause (words vars.now) params (term_of e.now)) }
    ensures known_first { result ≡ Err BindFault.NoParameter → knows (words vars.now) (term_of e.now) ≡ true }
{
    if is_known(e, vars) {
        resolve(alloc, e, vars, params)
    } else {
        Err(BindFault::NoName)
    }
}

// The bound expression, or the first fault from the left.
#[tactic(auto, unfolding(qp_chart_text::specs::Terms::term_of, qp_chart_names::specs::Known::knows, qp_chart_names::specs::Known::reaches, crate::specs::Binding::named, crate::specs::Binding::bound_in, crate::specs::Expr::InRange))]
fn resolve(alloc: Global, e: &Expr, vars: &[Name], params: u8) -> Result<Bound, BindFault>
    requires { length vars.now ≤ 16 }
    ensures ok { IfOk result (Binds (words vars.now) params (term_of e.now)) }
    ensures refused { IfErr result (IsCause (words vars.now) params (term_of e.now)) }
{
    match e {
        Expr::Num(n) => Ok(Bound {
            node: Node::Num(*n),
        }),
        Expr::Var(name) => match place(name, vars) {
            Some(v) => Ok(Bound {
                node: Node::Var(v as u8),
            }),
            None => Err(BindFault::NoName),
        },
        Expr::Ok => Ok(Bound { node: Node::Ok }),
        Expr::Me => Ok(Bound { node: Node::Me }),
        Expr::Par(j) => {
            if 1 <= *j && *j <= params {
                Ok(Bound {
                    node: Node::Par(*j),
                })
            } else {
                Err(BindFault::NoParameter)
            }
        }
        Expr::One(op, x) => {
            let inner = resolve(alloc, x, vars, params)?;
            one(alloc, *op, inner)
        }
        Expr::Two(op, x, y) => {
            let left = resolve(alloc, x, vars, params)?;
            let right = resolve(alloc, y, vars, params)?;
            two(alloc, *op, left, right)
        }
    }
}

// An operator and its operand.
#[tactic(auto, unfolding(qp_chart_names::specs::Known::knows, qp_chart_names::specs::Known::reaches, crate::specs::Binding::named, crate::specs::Binding::bound_in, crate::specs::Expr::InRange))]
fn one(alloc: Global, op: Unary, inner: Bound) -> Result<Bound, BindFault>
    ensures ok { (names : List Word) (params : ℕ) (e : Term) → Binds names params e inner → IfOk result (Binds names params (One op e)) }
    ensures memory { IfErr result (λ e. e ≡ BindFault.Memory) }
{
    Ok(Bound {
        node: Node::One(op, Box::new(alloc, inner)?),
    })
}

// An operator and its operands.
#[tactic(auto, unfolding(qp_chart_names::specs::Known::knows, qp_chart_names::specs::Known::reaches, crate::specs::Binding::named, crate::specs::Binding::bound_in, crate::specs::Expr::InRange))]
fn two(alloc: Global, op: Binary, left: Bound, right: Bound) -> Result<Bound, BindFault>
    ensures ok { (names : List Word) (params : ℕ) (e f : Term) → Binds names params e left → Binds names params f right →
        IfOk result (Binds names params (Two op e f)) }
    ensures memory { IfErr result (λ e. e ≡ BindFault.Memory) }
{
    Ok(Bound {
        node: Node::Two(op, Box::new(alloc, left)?, Box::new(alloc, right)?),
    })
}

// The first place of a name among the variables.
fn place(name: &Name, vars: &[Name]) -> Option<usize>
    ensures { result ≡ position (has_name name.now) vars.now }
{
    vars.iter().position(|v| v == name)
}
