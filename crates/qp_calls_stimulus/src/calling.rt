//! The calls of a stimulus.

ghost use Rattle.std.specs.Prelude.{◌≡◌};
ghost use Rattle.qp_model.specs.Sound.{IsSound};
ghost use Rattle.qp_stim.specs.Rules.{StimulusFits};
ghost use Rattle.qp_calls_stimulus.specs.Calling.{Calls, called_of};

use crate::settling::{Sight, settle};
use qp_base::Steps;
use qp_calls::{Did, Ops, RoomFault, post, publish, tick_rate};
use qp_model::{Stim, System};
use std::sync::ledger::Ledger;

/// What became of the calls of a stimulus.
#[derive(Drop)]
pub(crate) enum Called {
    /// All were made; one that was refused has answered 0.
    Whole,
    /// A settle saw an entry.
    Tried,
    /// An assertion ended them.
    Asserted(u8),
}

fn outcome(did: Did) -> Called
    ensures { result ≡ called_of did }
{
    match did {
        Did::Value(_) => Called::Whole,
        Did::Assert { code } => Called::Asserted(code),
    }
}

/// Makes the calls of a stimulus.
pub(crate) fn make<O: Ops, L: Ledger>(
    ops: &mut O,
    sys: &System,
    s: &Stim,
    steps: &mut Steps<L>,
) -> Result<Called, RoomFault>
    requires of { (O.lane ops.old).sys ≡ sys.now }
    requires sound { IsSound sys.now }
    requires none { (O.lane ops.old).by ≡ 0 }
    requires fits { StimulusFits sys.now s.now }
    ensures { Calls sys.now s.now (O.lane ops.old) (O.lane ops.new) result }
{
    match s {
        Stim::Post {
            to,
            ev,
            margin,
            reserve,
        } => Ok(outcome(post(ops, sys, *to, ev, *margin, *reserve, steps)?)),
        Stim::Publish { ev, reserve } => Ok(outcome(publish(ops, sys, ev, *reserve, steps)?)),
        Stim::Tick { rate } => Ok(outcome(tick_rate(ops, sys, *rate, steps)?)),
        Stim::Settle => match settle(ops, sys)? {
            Sight::Empty => Ok(Called::Whole),
            Sight::Entry { .. } => Ok(Called::Tried),
        },
    }
}
