//! Answers of turns.

ghost use Rattle.std.specs.Prelude.{◌≡◌};
ghost use Rattle.qp_port_lanes.specs.Answers.{is_idle, is_short, turn_by};

use qp_dispatch::Turn;
use qp_port_phases::Passed;

/// Whether a turn with this answer may be followed by another.
pub fn is_idle(turn: &Turn) -> bool
    ensures { result ≡ is_idle turn.now }
{
    matches!(turn, Turn::Idle)
}

/// Whether it ended for want of memory.
pub fn is_short(turn: &Turn) -> bool
    ensures { result ≡ is_short turn.now }
{
    matches!(turn, Turn::Memory)
}

/// What a `settle` leaves of a worker: the answer of its turn.
pub fn turn_by(passed: &Passed) -> Turn
    ensures { result ≡ turn_by passed.now }
{
    match passed {
        Passed::Yes | Passed::Found { .. } => Turn::Idle,
        Passed::Stopped => Turn::Stopped,
        Passed::Memory => Turn::Memory,
    }
}
