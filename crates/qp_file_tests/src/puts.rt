//! How many puts a journal is written with: one for each line of its text, and one for each of its frames.

ghost use Rattle.std.specs.Prelude.{IfOk, IsTrue};
ghost use Rattle.qp_model.specs.Output.{has_form, is_in_range};

use qp_base::MemSink;
use qp_frames::write_frames;
use qp_text::{Found, TextFault, read_journal, write_journal};
use std::alloc::{AllocError, Global};

/// A start that says 126, the end byte of a frame, and a lane of a source.
const TEXT_1: &[u8] =
    b"qp 1 0 100000\nlane 0\nbegin 1\nenter 1 1\nsay 1 126\nlane 1\nstim 0 1 1\nend 0\n";

const FRAMES_1: &[u8] =
    b"\x01\x01\x01\0\0\0\0\0\0\0\0\0\0\0\0\0\0\0\xA0\x86\x01\0\0\0\0\0\xD5\x7E\x02\x02\0\0\0\0\0\0\0\0\xFB\x7E\x03\x04\x01\0\0\0\0\0\0\0\xF7\x7E\x04\x0B\x01\0\0\0\0\0\0\0\x01\0\0\0\0\0\0\0\xEE\x7E\x05\x0D\x01\0\0\0\0\0\0\0\x7D\x5E\0\0\0\0\0\0\0\x6E\x7E\x06\x02\x01\0\0\0\0\0\0\0\xF6\x7E\x07\x28\0\0\0\0\0\0\0\0\x01\0\0\0\0\0\0\0\x01\0\0\0\0\0\0\0\xCE\x7E\x08\x03\0\0\0\0\0\0\0\0\xF4\x7E";

/// The same in form 2.
const TEXT_2: &[u8] =
    b"qp 2 0 100000\nlane 0\nbegin 1\nenter 1 1\nsay 1 126\nlane 1\nstim 0 1 1\nend 0\n";

const FRAMES_2: &[u8] =
    b"\x01\x01\x02\0\xA0\x8D\x06\xC8\x7E\x02\x02\0\xFB\x7E\x03\x04\x01\xF7\x7E\x04\x0B\x01\x01\xEE\x7E\x05\x0D\x01\x7D\x5E\x6E\x7E\x06\x02\x01\xF6\x7E\x07\x28\0\x01\x01\xCE\x7E\x08\x03\0\xF4\x7E";

/// A sink whose put of this number fails before it takes a byte.
fn failing(alloc: Global, put: u64) -> Result<MemSink, AllocError> {
    match MemSink::new(alloc, 1 << 10, Vec::from_slice(alloc, &[(put, 0)])?) {
        Ok(sink) => Ok(sink),
        Err(_) => Err(AllocError),
    }
}

/// The journal of a text.
fn journal(alloc: Global, text: &[u8]) -> Result<Found, TextFault>
    ensures form { IfOk result (λ found. IsTrue (has_form found.form found.journal)) }
    ensures range { IfOk result (λ found. IsTrue (is_in_range found.form found.journal)) }
{
    read_journal(alloc, text)
}

/// A journal goes on as text or as frames.
#[derive(Clone, Copy)]
enum Form {
    Text,
    Frames,
}

/// Whether the journal is written whole, and so, where the put of this number fails.
fn has_put(
    alloc: Global,
    form: Form,
    found: &Found,
    put: u64,
    is_whole: bool,
    front: &[u8],
) -> Result<bool, AllocError>
    requires form { IsTrue (has_form found.now.form found.now.journal) }
    requires range { IsTrue (is_in_range found.now.form found.now.journal) }
{
    let mut sink = failing(alloc, put)?;
    let is_ok = match form {
        Form::Text => write_journal(&found.journal, found.form, &mut sink).is_ok(),
        Form::Frames => write_frames(&found.journal, found.form, &mut sink).is_ok(),
    };
    Ok(is_ok == is_whole && sink.bytes() == front)
}

/// Whether each piece of the whole, which ends with this byte, is one put: each put is tried as the one that fails, and behind them none
/// comes.
fn are_puts(
    alloc: Global,
    form: Form,
    found: &Found,
    whole: &[u8],
    ends: u8,
) -> Result<bool, AllocError>
    requires form { IsTrue (has_form found.now.form found.now.journal) }
    requires range { IsTrue (is_in_range found.now.form found.now.journal) }
{
    let (mut puts, mut end) = (0u64, 0usize);
    for piece in whole.split_inclusive(|byte| *byte == ends) {
        let front = whole.get(..end).unwrap_or(&[]);
        if !has_put(alloc, form, found, puts, false, front)? {
            return Ok(false);
        }
        end = end.saturating_add(piece.len());
        puts = puts.saturating_add(1);
    }
    has_put(alloc, form, found, puts, true, whole)
}

/// The same of the journal of a text.
fn has_puts(
    alloc: Global,
    form: Form,
    text: &[u8],
    whole: &[u8],
    ends: u8,
) -> Result<bool, AllocError> {
    match journal(alloc, text) {
        Ok(found) => are_puts(alloc, form, &found, whole, ends),
        Err(_) => Ok(false),
    }
}

/// Texts and their frames.
const JOURNALS: [(&[u8], &[u8]); 2] = [(TEXT_1, FRAMES_1), (TEXT_2, FRAMES_2)];

#[test]
fn each_line_and_each_frame_is_one_put(rt: HostRuntime) {
    for (text, frames) in &JOURNALS {
        assert!(rt; has_puts(rt.alloc(), Form::Text, text, text, b'\n') == Ok(true));
        assert!(rt; has_puts(rt.alloc(), Form::Frames, text, frames, 0x7E) == Ok(true));
    }
}
