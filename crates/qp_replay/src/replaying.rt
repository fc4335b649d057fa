//! One order of a lawful journal.

ghost use Rattle.std.specs.Prelude.{IfOk};
ghost use Rattle.qp_model.specs.Lawful.{Lawful};
ghost use Rattle.qp_model.specs.Sound.{IsSound};
ghost use Rattle.qp_stim.specs.Rules.{StimuliFit};
ghost use Rattle.qp_replay.specs.Replaying.{IsReplay};

use crate::order::ordered;
use crate::places::Replayed;
use qp_base::Memory;
use qp_model::{Journal, Stimuli, System};
use std::alloc::Global;

/// The one order of all records in which each next one is from the lowest lane whose next record has all that must stand before it,
/// or a cycle of records, where there is one. The system and its stimuli say of which journals this can be asked, and nothing else.
pub fn replay(
    alloc: Global,
    _sys: &System,
    _stim: &Stimuli,
    j: &Journal,
) -> Result<Replayed, Memory>
    requires sound { IsSound _sys.now }
    requires fit { StimuliFit _sys.now _stim.now }
    requires lawful { Lawful _sys.now _stim.now j.now }
    ensures { IfOk result (λ r. IsReplay j.now.lanes r) }
{
    let Ok(replayed) = ordered(alloc, &j.lanes) else {
        return Err(Memory);
    };
    Ok(replayed)
}
