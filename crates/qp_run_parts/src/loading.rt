//! Loads of the files that a call names.
ghost use Rattle.std.specs.Prelude.{◌≡◌, ◌≢◌, ◌≤◌, true, IfOk, IfErr, IfSome};
ghost use Rattle.qp_run_parts.specs.Loads.{IsLoaded};
ghost use Rattle.qp_run_parts.specs.Verdict.{FailsToLoad, HasCause, is_refusal, reads_of};
ghost use Rattle.qp_run_parts.specs.declared.status.Status.{Status};

use crate::status::Status;
use qp_base::{Shelf, ShelfFault};
use std::alloc::Global;

/// Loads a file. `file` is its operand's place, counted from 1.
pub fn load<F: Shelf>(alloc: Global, files: &mut F, file: u8, name: &str) -> Result<Vec<u8>, Status>
    ensures held { IfOk result (λ bytes. IfSome (F.holds files.old) (λ held. IsLoaded (held name.now) bytes.items)) }
    ensures told { IfErr result (λ status. IfSome (F.holds files.old) (λ held. FailsToLoad file (held name.now) status)) }
    ensures cause { IfErr result (HasCause (reads_of F.faults F.misses files.old files.new)) }

    ensures about { IfErr result (λ status. (is_refusal status ≡ true) × (status ≢ Status.Words)) }

    ensures holds { F.holds files.new ≡ F.holds files.old }
    ensures faults_last { F.faults files.old ≤ F.faults files.new }
    ensures misses_last { F.misses files.old ≤ F.misses files.new }
{
    match files.load(alloc, name) {
        Ok(bytes) => Ok(bytes),
        Err(ShelfFault::Memory) => Err(Status::Memory),
        Err(ShelfFault::Failed) => Err(Status::ReadFault),
        Err(ShelfFault::Absent) => Err(Status::Absent { file }),
        Err(ShelfFault::TooLong { len }) => Err(Status::TooLong { file, len }),
    }
}
