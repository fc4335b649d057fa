//! Expressions and actions as their texts have them: no name is resolved.
ghost use Rattle.std.specs.Prelude.{◌≡◌};

use crate::names::Name;
use crate::operators::{Binary, Unary};
use std::alloc::{AllocError, AllocFailed};
use std::marker::Model;

/// An expression of a text. A number is never negative; `Par(j)` stands for `pj`.
#[derive(Drop)]
pub enum Expr {
    Num(i64),
    Var(Name),
    Ok,
    Me,
    Par(u8),
    One(Unary, Box<Expr>),
    Two(Binary, Box<Expr>, Box<Expr>),
}

/// Some expressions, in order. Contracts see the list.
#[derive(Drop)]
pub struct Exprs {
    pub items: Vec<Expr>,
}

impl Model for Exprs {
    ghost use Rattle.std.specs.Prelude.{List};
    ghost use Rattle.qp_chart_text.specs.declared.trees.Expr.{Expr};
    ghost use Rattle.std.specs.Coded.{codes};
    ghost use Rattle.qp_chart_text.specs.contracts.trees.Expr as expr;

    ghost Value = { List Expr };

    ghost coded = { Prim.hlevel (codes, expr.the_row.coded) };

    ghost view = { λ b. b.items.items };
}

impl Exprs {
    /// The list as a slice.
    pub fn as_slice(&self) -> &[Expr]
        ensures { result.now ≡ self.now }
    {
        self.items.as_slice()
    }
}

/// The object to which an action posts.
#[derive(Drop)]
pub enum Receiver {
    Me,
    Object(Name),
}

/// An event to be made: its signal and the values of its parameters.
#[derive(Drop)]
pub struct EventTree {
    pub signal: Name,
    pub pars: Exprs,
}

/// An action that may stand within `locked`. Its numbers are as the text has them, in no range but their type's.
#[derive(Drop)]
pub enum PlainAction {
    Set {
        var: Name,
        value: Expr,
    },
    Say(Expr),
    Post {
        to: Receiver,
        event: EventTree,
        margin: Option<i64>,
        reserve: Option<i64>,
    },
    Lifo {
        event: EventTree,
        reserve: Option<i64>,
    },
    Forward {
        to: Receiver,
        margin: Option<i64>,
    },
    Publish {
        event: EventTree,
        reserve: Option<i64>,
    },
    Defer,
    Recall,
    Flush,
    Subscribe(Name),
    Unsubscribe(Name),
    Arm {
        timer: Name,
        ticks: Expr,
        interval: Expr,
    },
    Rearm {
        timer: Name,
        ticks: Expr,
    },
    Disarm {
        timer: Name,
    },
}

/// Some actions, in order. Contracts see the list.
#[derive(Drop)]
pub struct PlainActions {
    pub items: Vec<PlainAction>,
}

impl Model for PlainActions {
    ghost use Rattle.std.specs.Prelude.{List};
    ghost use Rattle.qp_chart_text.specs.declared.trees.PlainAction.{PlainAction};
    ghost use Rattle.std.specs.Coded.{codes};
    ghost use Rattle.qp_chart_text.specs.contracts.trees.Expr as expr;

    ghost Value = { List PlainAction };

    ghost coded = { Prim.hlevel (codes, expr.the_row.coded) };

    ghost view = { λ b. b.items.items };
}

impl PlainActions {
    /// The list as a slice.
    pub fn as_slice(&self) -> &[PlainAction]
        ensures { result.now ≡ self.now }
    {
        self.items.as_slice()
    }
}

/// An action of a text.
#[derive(Drop)]
pub enum Action {
    Plain(PlainAction),
    Locked { ceiling: i64, acts: PlainActions },
}

/// Why a text gives no tree.
#[derive(Clone, Copy, PartialEq, Eq, Debug, Drop)]
pub enum ExprFault {
    /// Memory ran out.
    Memory,
    /// The text isn't in the grammar.
    Bad,
}

impl From<AllocError> for ExprFault {
    ghost use Rattle.std.specs.Prelude.{◌≡◌};
    ghost use Rattle.qp_chart_text.specs.declared.trees.ExprFault.TheVariants.{Memory};

    ghost from_gives = { λ _ e. e ≡ Memory };

    fn from(_: AllocError) -> Self {
        ExprFault::Memory
    }
}

impl<T: Drop> From<AllocFailed<T>> for ExprFault {
    ghost use Rattle.std.specs.Prelude.{◌≡◌};
    ghost use Rattle.qp_chart_text.specs.declared.trees.ExprFault.TheVariants.{Memory};

    ghost from_gives = { λ _ e. e ≡ Memory };

    fn from(_: AllocFailed<T>) -> Self {
        ExprFault::Memory
    }
}
