//! Systems: what a system file says.

use qp_chart::{Chart, Name};
use std::marker::Model;

/// A pool: how many parameters an event in it has room for (0 to 8), and how many blocks it has (1 to 32).
#[derive(Drop)]
pub struct PoolDef {
    pub size: u8,
    pub blocks: u8,
}

/// The pools, numbered from 1, in strictly ascending size. Contracts see the list.
#[derive(Drop)]
pub struct PoolDefs {
    pub items: Vec<PoolDef>,
}

impl Model for PoolDefs {
    ghost use Rattle.std.specs.Prelude.{List};
    ghost use Rattle.qp_model.specs.declared.systems.PoolDef.{PoolDef};

    ghost Value = { List PoolDef };

    ghost view = { λ b. b.items.items };
}

/// A signal: its name, how many parameters its events have (0 to 8), and whether its events are static (`fixed`).
#[derive(Drop)]
pub struct SignalDef {
    pub name: Name,
    pub params: u8,
    pub fixed: bool,
}

/// The signals, numbered from 4 in the file's order. Contracts see the list.
#[derive(Drop)]
pub struct SignalDefs {
    pub items: Vec<SignalDef>,
}

impl Model for SignalDefs {
    ghost use Rattle.std.specs.Prelude.{List};
    ghost use Rattle.qp_model.specs.declared.systems.SignalDef.{SignalDef};

    ghost Value = { List SignalDef };

    ghost view = { λ b. b.items.items };
}

/// The first values of an object's variables, in ascending name. Contracts see the list.
#[derive(Drop)]
pub struct Values {
    pub items: Vec<i64>,
}

impl Model for Values {
    ghost use Rattle.std.specs.Prelude.{List, ℤ};

    ghost Value = { List ℤ };

    ghost view = { λ b. b.items.items };
}

/// An active object: its chart by number from 1, its priority and its threshold (1 to 32, the threshold at least the priority), the
/// lengths of its queue's ring and of its deferred list (0 to 255), and the first values of its variables.
#[derive(Drop)]
pub struct ObjectDef {
    pub name: Name,
    pub chart: u8,
    pub priority: u8,
    pub threshold: u8,
    pub ring: u8,
    pub defer: u8,
    pub vars: Values,
}

/// The objects, in ascending priority, by which they are named. Contracts see the list.
#[derive(Drop)]
pub struct ObjectDefs {
    pub items: Vec<ObjectDef>,
}

impl Model for ObjectDefs {
    ghost use Rattle.std.specs.Prelude.{List};
    ghost use Rattle.qp_model.specs.declared.systems.ObjectDef.{ObjectDef};

    ghost Value = { List ObjectDef };

    ghost view = { λ b. b.items.items };
}

/// A time event: the priority of its object, the static signal that it posts, and its rate (0 to 3).
#[derive(Drop)]
pub struct TimerDef {
    pub object: u8,
    pub sig: u16,
    pub rate: u8,
}

/// The time events, numbered from 1 by ascending priority of their object, then by the order in its chart. Contracts see the list.
#[derive(Drop)]
pub struct TimerDefs {
    pub items: Vec<TimerDef>,
}

impl Model for TimerDefs {
    ghost use Rattle.std.specs.Prelude.{List};
    ghost use Rattle.qp_model.specs.declared.systems.TimerDef.{TimerDef};

    ghost Value = { List TimerDef };

    ghost view = { λ b. b.items.items };
}

/// The charts, numbered from 1 in the file's order. Contracts see the list.
#[derive(Drop)]
pub struct Charts {
    pub items: Vec<Chart>,
}

impl Model for Charts {
    ghost use Rattle.std.specs.Prelude.{List};
    ghost use Rattle.std.specs.Coded.{codes};
    ghost use Rattle.qp_chart.specs.declared.Chart.{Chart};
    ghost use Rattle.qp_chart.specs.contracts.Bound as bound;

    ghost Value = { List Chart };

    ghost coded = { Prim.hlevel (codes, bound.the_row.coded) };

    ghost view = { λ b. b.items.items };
}

/// A system, as its file describes it.
#[derive(Drop)]
pub struct System {
    pub pools: PoolDefs,
    pub signals: SignalDefs,
    pub charts: Charts,
    pub objects: ObjectDefs,
    pub timers: TimerDefs,
}
