//! Checked charts.
ghost use Rattle.std.specs.Prelude.{◌≡◌};
ghost use Rattle.std.specs.Option.{option_copied};

use crate::actions::{Act, Acts};
use crate::expression::Bound;
use qp_chart_names::Vars;
use qp_chart_text::Name;
use std::marker::Model;

/// A row of a state: on which signal, under which guard, what is done, and to which state.
#[derive(Drop)]
pub struct Row {
    pub(crate) on: u16,
    pub(crate) when: Option<Bound>,
    pub(crate) acts: Acts,
    pub(crate) to: Option<u8>,
}

impl Row {
    /// The number of the signal that the row is for.
    pub fn on(&self) -> u16
        ensures { result ≡ self.now.on }
    {
        self.on
    }

    /// The guard. A row without one is always open.
    pub fn when(&self) -> Option<&Bound>
        ensures { option_copied result ≡ self.now.when }
    {
        self.when.as_ref()
    }

    /// What is done, in order: the key `do`.
    pub fn acts(&self) -> &[Act]
        ensures { result.now ≡ self.now.acts }
    {
        self.acts.items.as_slice()
    }

    /// The target of the transition. A row without one stays in its state.
    pub fn to(&self) -> Option<u8>
        ensures { result ≡ self.now.to }
    {
        self.to
    }
}

/// The rows of a state, numbered from 1. Contracts see the list.

#[derive(Drop)]
pub struct Rows {
    pub items: Vec<Row>,
}

impl Model for Rows {
    ghost use Rattle.std.specs.Prelude.{List};
    ghost use Rattle.qp_chart.specs.declared.checked.Row.{Row};
    ghost use Rattle.std.specs.Coded.{codes};
    ghost use Rattle.qp_chart.specs.contracts.expression.Bound as bound;

    ghost Value = { List Row };

    ghost coded = { Prim.hlevel (codes, bound.the_row.coded) };

    ghost view = { λ b. b.items.items };
}

/// A state of a chart.
#[derive(Drop)]
pub struct State {
    pub(crate) name: Name,
    pub(crate) parent: Option<u8>,
    pub(crate) entry: Acts,
    pub(crate) exit: Acts,
    pub(crate) init: Option<u8>,
    pub(crate) init_do: Acts,
    pub(crate) row: Rows,
}

impl State {
    pub fn name(&self) -> &Name
        ensures { result.now ≡ self.now.name }
    {
        &self.name
    }

    /// The number of the state round it. A state without one stands below the top.
    pub fn parent(&self) -> Option<u8>
        ensures { result ≡ self.now.parent }
    {
        self.parent
    }

    /// What is done on entry, in order.
    pub fn entry(&self) -> &[Act]
        ensures { result.now ≡ self.now.entry }
    {
        self.entry.items.as_slice()
    }

    /// What is done on exit, in order.
    pub fn exit(&self) -> &[Act]
        ensures { result.now ≡ self.now.exit }
    {
        self.exit.items.as_slice()
    }

    /// The target of the initial transition, which is properly below the state.
    pub fn init(&self) -> Option<u8>
        ensures { result ≡ self.now.init }
    {
        self.init
    }

    /// What is done on the initial transition, in order.
    pub fn init_do(&self) -> &[Act]
        ensures { result.now ≡ self.now.init_do }
    {
        self.init_do.items.as_slice()
    }

    /// The rows, numbered from 1.
    pub fn row(&self) -> &[Row]
        ensures { result.now ≡ self.now.row }
    {
        self.row.items.as_slice()
    }
}

/// The states of a chart, numbered from 1. Contracts see the list.

#[derive(Drop)]
pub struct States {
    pub items: Vec<State>,
}

impl Model for States {
    ghost use Rattle.std.specs.Prelude.{List};
    ghost use Rattle.qp_chart.specs.declared.checked.State.{State};
    ghost use Rattle.std.specs.Coded.{codes};
    ghost use Rattle.qp_chart.specs.contracts.expression.Bound as bound;

    ghost Value = { List State };

    ghost coded = { Prim.hlevel (codes, bound.the_row.coded) };

    ghost view = { λ b. b.items.items };
}

/// A time event of a chart.
#[derive(Drop)]
pub struct Timer {
    pub(crate) name: Name,
    pub(crate) signal: u16,
    pub(crate) rate: u8,
}

impl Timer {
    pub fn name(&self) -> &Name
        ensures { result.now ≡ self.now.name }
    {
        &self.name
    }

    /// The number of the static signal that it posts.
    pub fn signal(&self) -> u16
        ensures { result ≡ self.now.signal }
    {
        self.signal
    }

    /// The tick rate that it counts.
    pub fn rate(&self) -> u8
        ensures { result ≡ self.now.rate }
    {
        self.rate
    }
}

/// The time events of a chart, numbered from 1. Contracts see the list.

#[derive(Drop)]
pub struct Timers {
    pub items: Vec<Timer>,
}

impl Model for Timers {
    ghost use Rattle.std.specs.Prelude.{List};
    ghost use Rattle.qp_chart.specs.declared.checked.Timer.{Timer};

    ghost Value = { List Timer };

    ghost view = { λ b. b.items.items };
}

/// A chart whose names are resolved.
#[derive(Drop)]
pub struct Chart {
    pub(crate) name: Name,
    pub(crate) init: u8,
    pub(crate) init_do: Acts,
    pub(crate) vars: Vars,
    pub(crate) timer: Timers,
    pub(crate) state: States,
}

impl Chart {
    pub fn name(&self) -> &Name
        ensures { result.now ≡ self.now.name }
    {
        &self.name
    }

    /// The number of the state in which an object of this chart starts.
    pub fn init(&self) -> u8
        ensures { result ≡ self.now.init }
    {
        self.init
    }

    /// What is done at the start, in order.
    pub fn init_do(&self) -> &[Act]
        ensures { result.now ≡ self.now.init_do }
    {
        self.init_do.items.as_slice()
    }

    /// The variables in ascending name, with their first values.
    pub fn vars(&self) -> &[(Name, i64)]
        ensures { result.now ≡ self.now.vars }
    {
        self.vars.items.as_slice()
    }

    /// The time events, numbered from 1.
    pub fn timer(&self) -> &[Timer]
        ensures { result.now ≡ self.now.timer }
    {
        self.timer.items.as_slice()
    }

    /// The states, numbered from 1.
    pub fn state(&self) -> &[State]
        ensures { result.now ≡ self.now.state }
    {
        self.state.items.as_slice()
    }
}
