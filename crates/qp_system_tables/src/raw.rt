//! A system as its file has it, before its names are looked up.

use qp_chart::{Name, RawChart, Vars};
use qp_model::{PoolDefs, SignalDefs};
use std::marker::Model;

/// An object.
#[derive(Drop)]
pub struct RawObject {
    pub name: Name,
    pub chart: Name,
    pub priority: u8,
    pub threshold: u8,
    pub queue: u8,
    pub defer: u8,
    pub vars: Vars,
}

/// The objects, in the file's order. Contracts see the list.
#[derive(Drop)]
pub struct RawObjects {
    pub items: Vec<RawObject>,
}

impl Model for RawObjects {
    ghost use Rattle.std.specs.Prelude.{List};
    ghost use Rattle.qp_system_tables.specs.declared.raw.RawObject.{RawObject};

    ghost Value = { List RawObject };

    ghost view = { λ t. t.items.items };
}

/// The charts, in the file's order. Contracts see the list.
#[derive(Drop)]
pub struct RawCharts {
    pub items: Vec<RawChart>,
}

impl Model for RawCharts {
    ghost use Rattle.std.specs.Prelude.{List};
    ghost use Rattle.qp_chart_names.specs.declared.raw.RawChart.{RawChart};

    ghost Value = { List RawChart };

    ghost view = { λ t. t.items.items };
}

/// A system whose names aren't looked up.
#[derive(Drop)]
pub struct RawSystem {
    pub pools: PoolDefs,
    pub signals: SignalDefs,
    pub charts: RawCharts,
    pub objects: RawObjects,
}
