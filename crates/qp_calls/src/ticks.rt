//! Ticks of the time events of a rate.

ghost use Rattle.std.specs.Prelude.{◌≡◌, IsTrue};
ghost use Rattle.qp_model.specs.Parts.{is_static};
ghost use Rattle.qp_model.specs.Sound.{IsSound};
ghost use Rattle.qp_model.specs.WordLaw.{is_object, is_timer};
ghost use Rattle.qp_calls.specs.Ticking.{TicksRate, TicksTimer};

use crate::answers::{RoomFault, Tick};
use crate::did::Did;
use crate::entries::post_entry;
use crate::ops::Ops;
use crate::tokens::HeldEntry;
use qp_base::Steps;
use qp_model::System;
use std::sync::ledger::Ledger;

/// A tick of one timer: where it fires, its signal is posted to its object.
fn tick_timer<O: Ops, L: Ledger>(
    ops: &mut O,
    t: u8,
    object: u8,
    sig: u16,
    steps: &mut Steps<L>,
) -> Result<Did, RoomFault>
    requires timer { IsTrue (is_timer (O.lane ops.old).sys t) }
    requires object { IsTrue (is_object (O.lane ops.old).sys object) }
    requires fixed { IsTrue (is_static (O.lane ops.old).sys sig) }
    ensures { TicksTimer t object sig (O.lane ops.old) (O.lane ops.new) result }
{
    ops.room()?;
    match ops.tick_one(t, steps) {
        Tick::Idle => Ok(Did::Value(1)),
        Tick::Down => Ok(Did::Value(1)),
        Tick::Fired => Ok(post_entry(ops, object, HeldEntry::Static(sig), None, steps)),
    }
}

/// A tick of the time events of a rate, in ascending number. The answer is 1; a full queue is assertion 1, and cuts
/// the others.
pub fn tick_rate<O: Ops, L: Ledger>(
    ops: &mut O,
    sys: &System,
    rate: u8,
    steps: &mut Steps<L>,
) -> Result<Did, RoomFault>
    requires of { (O.lane ops.old).sys ≡ sys.now }
    requires sound { IsSound sys.now }
    ensures { TicksRate rate (O.lane ops.old) (O.lane ops.new) result }
{
    for (i, d) in sys.timers.items.iter().enumerate() {
        if d.rate == rate {
            match tick_timer(ops, i as u8 + 1, d.object, d.sig, steps)? {
                Did::Value(_) => {}
                Did::Assert { code } => return Ok(Did::Assert { code }),
            }
        }
    }
    Ok(Did::Value(1))
}
