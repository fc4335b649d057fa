//! Whether the end of a journal is as it says.

ghost use Rattle.std.specs.Prelude.{◌≡◌, IfOk};
ghost use Rattle.qp_model.specs.Lawful.{EndHolds};
ghost use Rattle.qp_check_calls.specs.Decides.{Decides};
ghost use Rattle.qp_check_words.specs.Numbers.{WordsFit};

use crate::journal_end::end_is_right;
use crate::resting::rests;
use qp_check_words::records_by_word::RecordsByWord;
use qp_model::ends::QUIET;
use qp_model::{Journal, System};
use std::alloc::{AllocError, Global};

/// Whether the end is as a lawful journal has it: as stated, with its records in their places, and after a quiet end no queue and no
/// block holds what no deferred entry has.
pub fn end_holds(
    alloc: Global,
    sys: &System,
    j: &Journal,
    records: &RecordsByWord,
) -> Result<bool, AllocError>
    requires few { WordsFit sys.now }
    requires same { records.now ≡ j.now.lanes }
    ensures { IfOk result (λ b. Decides b (EndHolds sys.now j.now)) }
{
    if !end_is_right(sys, j) {
        return Ok(false);
    }
    if j.end != QUIET {
        return Ok(true);
    }
    let rests = rests(alloc, sys, j, records)?;
    Ok(rests)
}
