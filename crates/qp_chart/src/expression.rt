//! Expressions whose names are resolved.

use qp_chart_text::{Binary, Unary};
use std::marker::Model;

/// An expression whose names are resolved. Contracts see what it says, and not where its parts lie.
#[cycle(bound)]
#[derive(Drop)]
pub struct Bound {
    pub node: Node,
}

/// How an expression is made.
#[cycle(bound)]
#[derive(Drop)]
pub enum Node {
    Num(i64),
    Var(u8),
    Ok,
    Me,
    Par(u8),
    One(Unary, Box<Bound>),
    Two(Binary, Box<Bound>, Box<Bound>),
}

impl Model for Bound {
    ghost use Rattle.qp_chart.specs.Tree.{Tree, tree_code, tree_size};

    ghost Value = { Tree };

    ghost coded = { tree_code };

    ghost use Rattle.qp_chart.specs.TreeOf.{tree_of};

    ghost view = { λ b. tree_of b.node };

    ghost size = { tree_size };

    ghost use Rattle.std.proofs.Common.{arith};

    ghost size_decreases = { λ b h. Prim.grind (arith) };
}

/// Some expressions, in order. Contracts see the list.
#[derive(Drop)]
pub struct BoundExprs {
    pub items: Vec<Bound>,
}

impl Model for BoundExprs {
    ghost use Rattle.std.specs.Prelude.{List};
    ghost use Rattle.qp_chart.specs.declared.expression.Bound.{Bound};
    ghost use Rattle.std.specs.Coded.{codes};
    ghost use Rattle.qp_chart.specs.contracts.expression.Bound as bound;

    ghost Value = { List Bound };

    ghost coded = { Prim.hlevel (codes, bound.the_row.coded) };

    ghost view = { λ b. b.items.items };
}
