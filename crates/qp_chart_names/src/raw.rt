//! A chart as its file has it, before its names are resolved.
ghost use Rattle.std.specs.Prelude.{◌≡◌};

use qp_chart_text::{Name, Text, Texts};
use std::marker::Model;

/// Variables with their first values, in ascending name. Contracts see the list.
#[derive(Drop)]
pub struct Vars {
    pub items: Vec<(Name, i64)>,
}

impl Model for Vars {
    ghost use Rattle.std.specs.Prelude.{List, ℕ, ℤ};

    ghost Value = { List (List ℕ × ℤ) };

    ghost view = { λ b. b.items.items };
}

impl Vars {
    /// The list as a slice.
    pub fn as_slice(&self) -> &[(Name, i64)]
        ensures { result.now ≡ self.now }
    {
        self.items.as_slice()
    }
}

/// A time event of a chart.
#[derive(Drop)]
pub struct RawTimer {
    pub name: Name,
    pub signal: Name,
    pub rate: u8,
}

/// The time events of a chart, in the file's order. Contracts see the list.
#[derive(Drop)]
pub struct RawTimers {
    pub items: Vec<RawTimer>,
}

impl Model for RawTimers {
    ghost use Rattle.std.specs.Prelude.{List};
    ghost use Rattle.qp_chart_names.specs.declared.raw.RawTimer.{RawTimer};

    ghost Value = { List RawTimer };

    ghost view = { λ t. t.items.items };
}

impl RawTimers {
    /// The list as a slice.
    pub fn as_slice(&self) -> &[RawTimer]
        ensures { result.now ≡ self.now }
    {
        self.items.as_slice()
    }
}

/// A row of a state. `acts` holds the key `do`.
#[derive(Drop)]
pub struct RawRow {
    pub on: Name,
    pub when: Option<Text>,
    pub acts: Texts,
    pub to: Option<Name>,
}

/// The rows of a state, in the file's order. Contracts see the list.
#[derive(Drop)]
pub struct RawRows {
    pub items: Vec<RawRow>,
}

impl Model for RawRows {
    ghost use Rattle.std.specs.Prelude.{List};
    ghost use Rattle.qp_chart_names.specs.declared.raw.RawRow.{RawRow};

    ghost Value = { List RawRow };

    ghost view = { λ t. t.items.items };
}

impl RawRows {
    /// The list as a slice.
    pub fn as_slice(&self) -> &[RawRow]
        ensures { result.now ≡ self.now }
    {
        self.items.as_slice()
    }
}

/// A state of a chart.
#[derive(Drop)]
pub struct RawState {
    pub name: Name,
    pub parent: Option<Name>,
    pub entry: Texts,
    pub exit: Texts,
    pub init: Option<Name>,
    pub init_do: Texts,
    pub row: RawRows,
}

/// The states of a chart, in the file's order. Contracts see the list.
#[derive(Drop)]
pub struct RawStates {
    pub items: Vec<RawState>,
}

impl Model for RawStates {
    ghost use Rattle.std.specs.Prelude.{List};
    ghost use Rattle.qp_chart_names.specs.declared.raw.RawState.{RawState};

    ghost Value = { List RawState };

    ghost view = { λ t. t.items.items };
}

impl RawStates {
    /// The list as a slice.
    pub fn as_slice(&self) -> &[RawState]
        ensures { result.now ≡ self.now }
    {
        self.items.as_slice()
    }
}

/// A chart. Its variables stand in ascending name.
#[derive(Drop)]
pub struct RawChart {
    pub name: Name,
    pub init: Name,
    pub init_do: Texts,
    pub vars: Vars,
    pub timer: RawTimers,
    pub state: RawStates,
}

/// A declared signal: its name, its count of parameters, and whether it is static.
#[derive(Drop)]
pub struct SigName {
    pub name: Name,
    pub params: u8,
    pub fixed: bool,
}

/// The declared signals, numbered from 4. Contracts see the list.
#[derive(Drop)]
pub struct SigNames {
    pub items: Vec<SigName>,
}

impl Model for SigNames {
    ghost use Rattle.std.specs.Prelude.{List};
    ghost use Rattle.qp_chart_names.specs.declared.raw.SigName.{SigName};

    ghost Value = { List SigName };

    ghost view = { λ t. t.items.items };
}

impl SigNames {
    /// The list as a slice.
    pub fn as_slice(&self) -> &[SigName]
        ensures { result.now ≡ self.now }
    {
        self.items.as_slice()
    }
}

/// A declared object: its name and its priority.
#[derive(Drop)]
pub struct ObjName {
    pub name: Name,
    pub priority: u8,
}

/// The declared objects. Contracts see the list.
#[derive(Drop)]
pub struct ObjNames {
    pub items: Vec<ObjName>,
}

impl Model for ObjNames {
    ghost use Rattle.std.specs.Prelude.{List};
    ghost use Rattle.qp_chart_names.specs.declared.raw.ObjName.{ObjName};

    ghost Value = { List ObjName };

    ghost view = { λ t. t.items.items };
}

impl ObjNames {
    /// The list as a slice.
    pub fn as_slice(&self) -> &[ObjName]
        ensures { result.now ≡ self.now }
    {
        self.items.as_slice()
    }
}

/// What a chart may name outside itself.
#[derive(Drop)]
pub struct Names {
    pub signals: SigNames,
    pub objects: ObjNames,
}
