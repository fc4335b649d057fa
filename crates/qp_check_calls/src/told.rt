//! Records with what their lane knows beside them.

use qp_model::{Body, Params};
use std::marker::Model;

/// What is known beside a record, and the record doesn't state.
#[derive(Drop)]
pub enum Known {
    Nothing,
    /// The event of the entry taken.
    OfEvent { sig: u64, pars: Params },
    /// The blocks that were free before a block was given out.
    Free { n: u64 },
    /// The references that were left when one was dropped.
    Left { n: u64 },
    /// The ceiling before it was raised.
    Former { ceiling: u64 },
    /// Whether the object subscribes.
    Member { is: bool },
}

/// A record with what is known beside it. Contracts see it as the definition of records that are told.
#[derive(Drop)]
pub struct Told {
    pub body: Body,
    pub known: Known,
}

impl Model for Told {
    ghost use Rattle.qp_model.specs.Told as told;
    ghost use Rattle.qp_check_calls.specs.AsKnown.{as_known};

    ghost Value = { told.Told };

    ghost view = { λ t. record { body = t.body; known = as_known t.known } };
}
