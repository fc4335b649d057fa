//! Actions of a checked chart.

use crate::expression::{Bound, BoundExprs};
use std::marker::Model;

/// To which object an event is posted.
#[derive(Drop)]
pub enum Target {
    Me,
    Object(u8),
}

#[derive(Drop)]
pub enum Plain {
    Set {
        var: u8,
        value: Bound,
    },
    Say(Bound),
    Post {
        to: Target,
        sig: u16,
        pars: BoundExprs,
        margin: Option<u8>,
        reserve: Option<u8>,
    },
    Lifo {
        sig: u16,
        pars: BoundExprs,
        reserve: Option<u8>,
    },
    Forward {
        to: Target,
        margin: Option<u8>,
    },
    Publish {
        sig: u16,
        pars: BoundExprs,
        reserve: Option<u8>,
    },
    Defer,
    Recall,
    Flush,
    Subscribe(u16),
    Unsubscribe(u16),
    Arm {
        timer: u8,
        ticks: Bound,
        interval: Bound,
    },
    Rearm {
        timer: u8,
        ticks: Bound,
    },
    Disarm {
        timer: u8,
    },
}

#[derive(Drop)]
pub struct Plains {
    pub items: Vec<Plain>,
}

impl Model for Plains {
    ghost use Rattle.std.specs.Prelude.{List};
    ghost use Rattle.qp_chart.specs.declared.actions.Plain.{Plain};
    ghost use Rattle.std.specs.Coded.{codes};
    ghost use Rattle.qp_chart.specs.contracts.expression.Bound as bound;

    ghost Value = { List Plain };

    ghost coded = { Prim.hlevel (codes, bound.the_row.coded) };

    ghost view = { λ b. b.items.items };
}

#[derive(Drop)]
pub enum Act {
    Plain(Plain),
    Locked { ceiling: u8, acts: Plains },
}

#[derive(Drop)]
pub struct Acts {
    pub items: Vec<Act>,
}

impl Model for Acts {
    ghost use Rattle.std.specs.Prelude.{List};
    ghost use Rattle.qp_chart.specs.declared.actions.Act.{Act};
    ghost use Rattle.std.specs.Coded.{codes};
    ghost use Rattle.qp_chart.specs.contracts.expression.Bound as bound;

    ghost Value = { List Act };

    ghost coded = { Prim.hlevel (codes, bound.the_row.coded) };

    ghost view = { λ b. b.items.items };
}
