//! What a line says, with its names looked up.

ghost use Rattle.std.specs.Prelude.{◌≡◌};
ghost use Rattle.qp_stim.specs.Reading.{no_pars, with_par};

use crate::names::Signal;
use crate::numbers::Number;
use arrayvec::ArrayVec;

/// The parameters of an event: the first eight that 64 bits hold, whether 64 bits hold all, and whether there are more.
#[derive(Drop)]
pub struct Pars {
    pub kept: ArrayVec<u64, 8>,
    pub fit: bool,
    pub many: bool,
}

impl Pars {
    pub fn new() -> Self
        ensures { result ≡ no_pars }
    {
        Pars {
            kept: ArrayVec::new(),
            fit: true,
            many: false,
        }
    }

    pub fn add(&mut self, number: Number)
        ensures { self.new ≡ with_par self.old number }
    {
        match number {
            None => self.fit = false,
            Some(_) if self.kept.is_full() => self.many = true,
            Some(par) => self.kept.push(par),
        }
    }
}

/// An event, with its signal where that is declared.
#[derive(Drop)]
pub struct Event {
    pub signal: Option<Signal>,
    pub pars: Pars,
}

/// A line of the grammar, with the object and the signal where they are declared.
#[derive(Drop)]
pub enum Heard {
    Source(Number),
    Post {
        to: Option<u8>,
        event: Event,
        margin: Option<Number>,
        reserve: Option<Number>,
    },
    Publish {
        event: Event,
        reserve: Option<Number>,
    },
    Tick(Number),
    Settle,
}
