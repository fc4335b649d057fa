//! What a lane is told beside its turns.

ghost use Rattle.std.specs.Prelude.{◌≡◌};

use qp_dispatch::Turn;

/// What a lane is told beside its turns.
#[derive(Drop)]
pub enum Beside {
    /// So many sources take a turn next, and no lane runs.
    Round(u32),
    /// A source has taken part in a round, and this is its turn's answer, or that of the turn in which it had stopped before.
    Over(Turn),
}

/// The same answer once more.
pub(crate) fn again(turn: &Turn) -> Turn
    ensures { result ≡ turn.now }
{
    match turn {
        Turn::Idle => Turn::Idle,
        Turn::Stopped => Turn::Stopped,
        Turn::Memory => Turn::Memory,
    }
}
