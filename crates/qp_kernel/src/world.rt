//! The world that a kernel looks at.

ghost use Rattle.std.specs.Prelude.{◌≡◌, Bool};
ghost use Rattle.qp_model.specs.Sound.{IsSound};
ghost use Rattle.qp_stim.specs.Rules.{StimuliFit};
ghost use Rattle.qp_kernel.specs.Interrupting.{Interrupts};

use qp_base::Steps;
use qp_calls::Ops;
use qp_model::System;
use std::sync::Wait;
use std::sync::ledger::Ledger;

/// What a look lets happen. `Stopped` and `Memory` end the run; `Stopped` comes only where `stopped` has answered.
#[derive(Debug, Clone, Copy, PartialEq, Eq)]
pub enum Irq {
    /// One stimulus, with all its records.
    Happened,
    /// No source may act.
    Nothing,
    /// A stimulus ended in its assertion, or its lane has no room.
    Stopped,
    /// Memory was refused.
    Memory,
}

/// A lane in a world whose sources act in its looks.
pub trait World: Ops {
    /// Whether the world has sources that act in its looks; those of other worlds are threads of their own.
    ghost acts: { Bool };

    /// Lets at most one stimulus happen in the look with this count; `base` tells that no step is under way. The
    /// source is the first, in cyclic order behind the one that acted last, that has a stimulus left which may act:
    /// a `settle` acts only at the base and where all queues are empty. `Nothing` exactly where no source may act.
    /// The lane chosen, its records and the object set by `by` are afterwards as they were.
    fn interrupt<R: Wait, L: Ledger>(
        &mut self,
        rt: &R,
        sys: &System,
        look: u32,
        base: bool,
        steps: &mut Steps<L>,
    ) -> Irq
        requires made_for { (Self.lane self.old).sys ≡ sys.now }
        requires sound { IsSound sys.now }
        requires fit { StimuliFit sys.now (Self.lane self.old).plan }
        ensures { Interrupts acts look base (Self.lane self.old) (Self.lane self.new) result };
}
