//! Lanes without room.

ghost use Rattle.std.specs.Prelude.{◌≡◌, false};
ghost use Rattle.qp_calls.specs.Clauses.{IsFault};
ghost use Rattle.qp_calls.specs.Halting.{Halts};
ghost use Rattle.qp_calls.specs.Notes.{spills_told};

use crate::answers::RoomFault;
use crate::ops::Ops;
use qp_model::{Rec, stops};

/// How a lane without room has stopped.
#[derive(Drop)]
pub enum Halted {
    /// It is full: its `spill` was added, and 6 handed in.
    Full,
    /// Memory was refused: 7 was handed in.
    Memory,
}

/// Stops a lane by what `room` answered. The `spill` of a full lane is its last record.
pub fn halt<O: Ops>(ops: &mut O, fault: RoomFault) -> Halted
    requires fault { IsFault (O.lane ops.old) fault }
    requires spills { spills_told (O.lane ops.old).told ≡ false }
    ensures { Halts (O.lane ops.old) (O.lane ops.new) result }
{
    match fault {
        RoomFault::Memory => {
            ops.stop(stops::MEMORY);
            Halted::Memory
        }
        RoomFault::LaneFull { len } => {
            ops.note(Rec::spill(len));
            ops.stop(stops::SPENT);
            Halted::Full
        }
    }
}
