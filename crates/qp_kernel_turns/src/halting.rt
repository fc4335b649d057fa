//! Where a run stops.

ghost use Rattle.std.specs.Prelude.{◌≡◌, false};
ghost use Rattle.qp_calls.specs.Clauses.{IsFault};
ghost use Rattle.qp_calls.specs.Notes.{spills_told};
ghost use Rattle.qp_kernel_turns.specs.Halting.{GivesUp, Readies};

use qp_calls::{Halted, Ops, RoomFault, halt};

/// Why a turn doesn't go on.
#[derive(Drop)]
pub enum Halt {
    /// The lane has just stopped the run, or the stop word was found set.
    Stopped,
    /// Memory was refused.
    Memory,
}

/// Stops the lane where it has no room, or memory was refused.
fn give_up<O: Ops>(ops: &mut O, fault: RoomFault) -> Halt
    requires fault { IsFault (O.lane ops.old) fault }
    requires spills { spills_told (O.lane ops.old).told ≡ false }
    ensures { GivesUp (O.lane ops.old) (O.lane ops.new) result }
{
    match halt(ops, fault) {
        Halted::Full => Halt::Stopped,
        Halted::Memory => Halt::Memory,
    }
}

/// Looks at the stop word, and makes room for eight records.
pub fn ready<O: Ops>(ops: &mut O) -> Result<(), Halt>
    requires { spills_told (O.lane ops.old).told ≡ false }
    ensures { Readies (O.lane ops.old) (O.lane ops.new) result }
{
    match ops.stopped() {
        Some(_) => Err(Halt::Stopped),
        None => match ops.room() {
            Ok(()) => Ok(()),
            Err(fault) => Err(give_up(ops, fault)),
        },
    }
}
