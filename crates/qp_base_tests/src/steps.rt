//! The counter of steps, and the gate that does nothing.

ghost use Rattle.std.specs.Prelude.{◌≡◌, ◌+◌, ◌<◌, ◌≤◌};

use qp_base::{Gate, NoGate, Steps};
use std::marker::Brand;
use std::sync::ledger::{Blank, Ledger};

/// Something that is tried, with how often at most.
trait Tried {
    fn is_done<L: Ledger>(&mut self, steps: &mut Steps<L>) -> bool
        ensures { steps.new ≤ steps.old + 2 };
}

/// Tries so many times until it works.
#[derive(Drop)]
struct Once(u8);

impl Tried for Once {
    fn is_done<L: Ledger>(&mut self, steps: &mut Steps<L>) -> bool {
        steps.step();
        if self.0 == 0 {
            return true;
        }
        steps.step();
        self.0 -= 1;
        self.0 == 0
    }
}

/// Hands the counter through.
fn is_done_twice<T: Tried, L: Ledger>(what: &mut T, steps: &mut Steps<L>) -> bool
    ensures { steps.new ≤ steps.old + 4 }
{
    what.is_done(steps) && what.is_done(steps)
}

/// Tries with a counter of its own.
fn is_done_in<L: Ledger>(blank: Blank, tries: u8) -> bool
    requires name { blank.name ≡ L.name }
    requires parts { blank.parts ≡ L.parts }
    requires some { 0 < blank.parts }
{
    let mut steps = Steps::<L>::open(blank);
    is_done_twice(&mut Once(tries), &mut steps)
}

#[test]
fn steps_are_counted_in_a_ledger_of_their_own(rt: HostRuntime) {
    assert!(rt; is_done_in::<Brand>(Blank::new(1), 1));
    assert!(rt; !is_done_in::<Brand>(Blank::new(1), 3));
}

#[test]
fn no_gate_does_nothing(_rt: HostRuntime) {
    NoGate.at(0, 1);
}
