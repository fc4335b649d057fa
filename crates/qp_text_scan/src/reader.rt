//! Journals read from text.

ghost use Rattle.std.specs.Prelude.{◌≡◌, IfOk, IsTrue};
ghost use Rattle.qp_model.specs.Output.{has_form, is_in_range};
ghost use Rattle.qp_model.specs.OutputText.{text};
ghost use Rattle.qp_text.specs.Found.{ReadsJournal};
ghost use Rattle.qp_text.specs.ReadText.{read_text};
ghost use Rattle.qp_text.specs.TextLaw.{ReadsTexts};

use crate::scan::scan_journal;
use qp_text::{Found, TextFault};
use std::alloc::Global;

/// Reads the text of a journal, of either form: the journal, or the first line that is wrong with its lowest code.
///
/// A text that isn't a journal's, and one for which memory is refused, is read once more by `qp_text::read_journal`, which names
/// the fault. Lines and codes are those of that function.
pub fn read_journal(alloc: Global, bytes: &[u8]) -> Result<Found, TextFault>
    ensures exact { ReadsJournal result (read_text bytes.now) }

    // What is read is the text of a journal in range.
    ensures text { IfOk result (λ found. text found.form found.journal ≡ bytes.now) }
    ensures range { IfOk result (λ found. IsTrue (is_in_range found.form found.journal)) }
    ensures form { IfOk result (λ found. IsTrue (has_form found.form found.journal)) }

    // The text of each journal in range is read, as this journal in its form.
    ensures only { ReadsTexts result bytes.now }
{
    read(alloc, bytes)
}

/// Reads a text in one pass, and where that says nothing, line by line.
fn read(alloc: Global, bytes: &[u8]) -> Result<Found, TextFault>
    ensures { ReadsJournal result (read_text bytes.now) }
{
    match scan_journal(alloc, bytes) {
        Some(found) => Ok(found),
        None => qp_text::read_journal(alloc, bytes),
    }
}
