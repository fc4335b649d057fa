//! What the files of a call say.
ghost use Rattle.std.specs.Prelude.{◌≡◌, ◌≤◌, ◌⊎◌, length, Ok, IfOk, IfErr, true};
ghost use Rattle.qp_stim.specs.Rules.{StimuliFit};
ghost use Rattle.qp_stim.specs.Stimuli.{stimuli_of};
ghost use Rattle.qp_model.specs.Sound.{IsSound};
ghost use Rattle.qp_system.specs.SystemOf.{IsSystemOf};
ghost use Rattle.qp_run_parts.specs.Checks.{is_of_files};
ghost use Rattle.qp_run_parts.specs.Refusals.{RefusesFirst, RefusesSecond};
ghost use Rattle.qp_run_parts.specs.declared.status.Status.{Status};

use crate::status::Status;
use qp_model::{Stimuli, System};
use qp_stim::stimuli_of_bytes;
use qp_system::system_of_bytes;
use std::alloc::Global;

/// The system of a file.
pub fn system_in(alloc: Global, bytes: &[u8]) -> Result<System, Status>
    ensures read { IfOk result (λ sys. IsSystemOf bytes.now sys) }
    ensures sound { IfOk result (λ sys. IsSound sys) }
    ensures told { IfErr result (λ status. (status ≡ Status.Memory) ⊎ RefusesFirst bytes.now status) }
    ensures about { IfErr result (λ status. is_of_files status ≡ true) }
{
    Ok(system_of_bytes(alloc, bytes)?)
}

/// The stimuli of a file.
pub fn stimuli_in(alloc: Global, system: &System, bytes: &[u8]) -> Result<Stimuli, Status>
    requires { IsSound system.now }
    ensures read { IfOk result (λ sources. stimuli_of system.now bytes.now ≡ Ok sources) }
    ensures fit { IfOk result (StimuliFit system.now) }
    ensures few { IfOk result (λ sources. length sources ≤ 16) }
    ensures told { IfErr result (λ status. (status ≡ Status.Memory) ⊎ RefusesSecond (stimuli_of system.now bytes.now) status) }
    ensures about { IfErr result (λ status. is_of_files status ≡ true) }
{
    Ok(stimuli_of_bytes(alloc, system, bytes)?)
}
