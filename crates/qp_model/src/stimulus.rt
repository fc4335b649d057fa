//! Stimuli: what the sources do, in order.

use qp_base::Ev;
use std::marker::Model;

#[derive(Drop)]
pub enum Stim {
    Post {
        to: u8,
        ev: Ev,
        margin: Option<u8>,
        reserve: Option<u8>,
    },
    Publish {
        ev: Ev,
        reserve: Option<u8>,
    },
    Tick {
        rate: u8,
    },
    Settle,
}

#[derive(Drop)]
pub struct Source {
    pub items: Vec<Stim>,
}

impl Model for Source {
    ghost use Rattle.std.specs.Prelude.{List};
    ghost use Rattle.qp_model.specs.declared.stimulus.Stim.{Stim};

    ghost Value = { List Stim };

    ghost view = { λ b. b.items.items };
}

#[derive(Drop)]
pub struct Stimuli {
    pub sources: Vec<Source>,
}

impl Model for Stimuli {
    ghost use Rattle.std.specs.Prelude.{List};
    ghost use Rattle.qp_model.specs.declared.stimulus.Stim.{Stim};

    ghost Value = { List (List Stim) };

    ghost view = { λ b. b.sources.items };
}
