//! What the two files say.

ghost use Rattle.std.specs.Prelude.{◌≤◌, IfOk};
ghost use Rattle.qp_system.specs.Made.{IsMade};

use crate::files::{stimuli_text, system_text};
use crate::system::system_of_bytes;
use qp_base::Memory;
use qp_model::{Stimuli, System};
use qp_stim::stimuli_of_bytes;
use std::alloc::Global;

/// The system that relays and sums up numbers, and stimuli for it: each of four sources posts `n` numbers below 1000, and behind each
/// waits until all queues are empty. `n` is 1 to 1000.
pub fn generate(alloc: Global, n: u32) -> Result<(System, Stimuli), Memory>
    requires some { 1 ≤ n }
    requires few { n ≤ 1000 }
    ensures { IfOk result (λ both. IsMade n both.0 both.1) }
{
    let Ok(text) = stimuli_text(alloc, n) else {
        return Err(Memory);
    };
    // Both files are well-formed, so the readers refuse them for want of memory alone.
    let Ok(sys) = system_of_bytes(alloc, system_text().as_bytes()) else {
        return Err(Memory);
    };
    let Ok(stim) = stimuli_of_bytes(alloc, &sys, text.as_bytes()) else {
        return Err(Memory);
    };
    Ok((sys, stim))
}
