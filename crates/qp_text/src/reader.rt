//! Journals read from text.

ghost use Rattle.std.specs.Prelude.{◌≡◌, IfOk, IsTrue};
ghost use Rattle.qp_model.specs.Output.{has_form, is_in_range};
ghost use Rattle.qp_model.specs.OutputText.{text};
ghost use Rattle.qp_text.specs.Found.{ReadsJournal};
ghost use Rattle.qp_text.specs.ReadText.{finish, last_part, read_text};
ghost use Rattle.qp_text.specs.TextLaw.{ReadsTexts};

use crate::code;
use crate::faults::LineFault;
use crate::found::{Found, TextFault};
use crate::parts::cut;
use crate::progress::Reading;
use qp_model::Journal;
use std::alloc::Global;

/// Reads the text of a journal, of either form: the journal, or the first line that is wrong with its lowest code.
///
/// Lines count from 1. The codes are: 1 no known word or no newline, 2 no number, 3 a wrong count of numbers, 4 an item
/// that isn't allowed there, 5 the text ends without `end`, 6 a number out of range.
pub fn read_journal(alloc: Global, bytes: &[u8]) -> Result<Found, TextFault>
    ensures exact { ReadsJournal result (read_text bytes.now) }

    // What is read is the text of a journal in range.
    ensures text { IfOk result (λ found. text found.form found.journal ≡ bytes.now) }
    ensures range { IfOk result (λ found. IsTrue (is_in_range found.form found.journal)) }
    ensures form { IfOk result (λ found. IsTrue (has_form found.form found.journal)) }

    // The text of each journal in range is read, as this journal in its form.
    ensures only { ReadsTexts result bytes.now }
{
    read(alloc, bytes)
}

/// Reads a text line by line.
fn read(alloc: Global, bytes: &[u8]) -> Result<Found, TextFault>
    ensures { ReadsJournal result (read_text bytes.now) }
{
    let mut reading = Reading::new(alloc);
    let mut number = 1u64;
    let mut rest = bytes;
    loop {
        let (line, more) = cut(rest, b'\n');
        let Some(next) = more else {
            return last_part(number, reading, line);
        };
        match reading.take_line(alloc, line) {
            Ok(()) => {}
            Err(LineFault::Memory) => return Err(TextFault::Memory),
            Err(LineFault::Code(code)) => return Err(TextFault::Line { number, code }),
        }
        number += 1;
        rest = next;
    }
}

/// What stands behind the last newline.
fn last_part(number: u64, reading: Reading, part: &[u8]) -> Result<Found, TextFault>
    ensures { ReadsJournal result (last_part number reading part.now) }
{
    if part.is_empty() {
        finish(number, reading)
    } else {
        Err(TextFault::Line {
            number,
            code: code::WORD,
        })
    }
}

/// The text ends here.
fn finish(number: u64, reading: Reading) -> Result<Found, TextFault>
    ensures { ReadsJournal result (finish number reading reading.end) }
{
    let Some(end) = reading.end else {
        return Err(TextFault::Line {
            number,
            code: code::NO_END,
        });
    };
    Ok(Found {
        form: reading.form,
        journal: Journal {
            kernel: reading.kernel,
            budget: reading.budget,
            lanes: reading.lanes,
            end,
        },
    })
}
