//! Journals: the lanes of a run and how it ended.

use crate::record::Rec;
use std::marker::Model;

#[derive(Drop)]
pub struct Lane {
    pub items: Vec<Rec>,
}

impl Model for Lane {
    ghost use Rattle.std.specs.Prelude.{List};
    ghost use Rattle.qp_model.specs.declared.record.Rec.{Rec};

    ghost Value = { List Rec };

    ghost view = { λ b. b.items.items };
}

#[derive(Drop)]
pub struct Lanes {
    pub items: Vec<Lane>,
}

impl Model for Lanes {
    ghost use Rattle.std.specs.Prelude.{List};
    ghost use Rattle.qp_model.specs.declared.record.Rec.{Rec};

    ghost Value = { List (List Rec) };

    ghost view = { λ b. b.items.items };
}

#[derive(Drop)]
pub struct Journal {
    pub kernel: u8,
    pub budget: u32,
    pub lanes: Lanes,
    pub end: u8,
}
