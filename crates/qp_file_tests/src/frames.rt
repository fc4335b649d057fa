//! Journals as frames: read and written alike, cut anywhere, and with each fault.

ghost use Rattle.std.specs.Prelude.{◌≤◌, length, IfOk, IsTrue};
ghost use Rattle.qp_model.specs.Output.{has_form, is_in_range};

use qp_base::MemSink;
use qp_frames::{Decoder, FrameFault, write_frames};
use qp_text::{Found, read_journal, write_journal};
use std::alloc::{AllocError, Global};

/// A run without stimuli.
const QUIET_TEXT_1: &[u8] =
    b"qp 1 0 100000\nlane 0\nbegin 1\nenter 1 1\ndone 1\nlook 0 1 0\nseen 0 1 0 0 0\nend 0\n";

const QUIET_1: &[u8] =
    b"\x01\x01\x01\0\0\0\0\0\0\0\0\0\0\0\0\0\0\0\xA0\x86\x01\0\0\0\0\0\xD5\x7E\x02\x02\0\0\0\0\0\0\0\0\xFB\x7E\x03\x04\x01\0\0\0\0\0\0\0\xF7\x7E\x04\x0B\x01\0\0\0\0\0\0\0\x01\0\0\0\0\0\0\0\xEE\x7E\x05\x0E\x01\0\0\0\0\0\0\0\xEB\x7E\x06\x2D\0\0\0\0\0\0\0\0\x01\0\0\0\0\0\0\0\0\0\0\0\0\0\0\0\xCB\x7E\x07\x07\0\0\0\0\0\0\0\0\x01\0\0\0\0\0\0\0\0\0\0\0\0\0\0\0\0\0\0\0\0\0\0\0\0\0\0\0\0\0\0\0\xF0\x7E\x08\x03\0\0\0\0\0\0\0\0\xF4\x7E";

/// The same in form 2.
const QUIET_TEXT_2: &[u8] =
    b"qp 2 0 100000\nlane 0\nbegin 1\nenter 1 1\ndone 1\nlook 0 1 0\nseen 0 1 0 0 0\nend 0\n";

const QUIET_2: &[u8] =
    b"\x01\x01\x02\0\xA0\x8D\x06\xC8\x7E\x02\x02\0\xFB\x7E\x03\x04\x01\xF7\x7E\x04\x0B\x01\x01\xEE\x7E\x05\x0E\x01\xEB\x7E\x06\x2D\0\x01\0\xCB\x7E\x07\x07\0\x01\0\0\0\xF0\x7E\x08\x03\0\xF4\x7E";

/// A value that is the end byte.
const ESCAPED_TEXT_1: &[u8] = b"qp 1 0 100000\nlane 0\nbegin 1\nenter 1 1\nsay 1 126\nend 0\n";

const ESCAPED_1: &[u8] =
    b"\x01\x01\x01\0\0\0\0\0\0\0\0\0\0\0\0\0\0\0\xA0\x86\x01\0\0\0\0\0\xD5\x7E\x02\x02\0\0\0\0\0\0\0\0\xFB\x7E\x03\x04\x01\0\0\0\0\0\0\0\xF7\x7E\x04\x0B\x01\0\0\0\0\0\0\0\x01\0\0\0\0\0\0\0\xEE\x7E\x05\x0D\x01\0\0\0\0\0\0\0\x7D\x5E\0\0\0\0\0\0\0\x6E\x7E\x06\x03\0\0\0\0\0\0\0\0\xF6\x7E";

const ESCAPED_TEXT_2: &[u8] = b"qp 2 0 100000\nlane 0\nbegin 1\nenter 1 1\nsay 1 126\nend 0\n";

const ESCAPED_2: &[u8] =
    b"\x01\x01\x02\0\xA0\x8D\x06\xC8\x7E\x02\x02\0\xFB\x7E\x03\x04\x01\xF7\x7E\x04\x0B\x01\x01\xEE\x7E\x05\x0D\x01\x7D\x5E\x6E\x7E\x06\x03\0\xF6\x7E";

/// A negative value.
const SIGNED_TEXT_1: &[u8] =
    b"qp 1 0 100000\nlane 0\nbegin 1\nenter 1 1\nsay 1 18446744073709551612\nend 0\n";

const SIGNED_1: &[u8] =
    b"\x01\x01\x01\0\0\0\0\0\0\0\0\0\0\0\0\0\0\0\xA0\x86\x01\0\0\0\0\0\xD5\x7E\x02\x02\0\0\0\0\0\0\0\0\xFB\x7E\x03\x04\x01\0\0\0\0\0\0\0\xF7\x7E\x04\x0B\x01\0\0\0\0\0\0\0\x01\0\0\0\0\0\0\0\xEE\x7E\x05\x0D\x01\0\0\0\0\0\0\0\xFC\xFF\xFF\xFF\xFF\xFF\xFF\xFF\xF7\x7E\x06\x03\0\0\0\0\0\0\0\0\xF6\x7E";

const SIGNED_TEXT_2: &[u8] = b"qp 2 0 100000\nlane 0\nbegin 1\nenter 1 1\nsay 1 -4\nend 0\n";

const SIGNED_2: &[u8] =
    b"\x01\x01\x02\0\xA0\x8D\x06\xC8\x7E\x02\x02\0\xFB\x7E\x03\x04\x01\xF7\x7E\x04\x0B\x01\x01\xEE\x7E\x05\x0D\x01\xFC\xFF\xFF\xFF\xFF\xFF\xFF\xFF\xFF\x01\xF7\x7E\x06\x03\0\xF6\x7E";

/// Texts and their frames.
const JOURNALS: [(&[u8], &[u8]); 6] = [
    (QUIET_TEXT_1, QUIET_1),
    (QUIET_TEXT_2, QUIET_2),
    (ESCAPED_TEXT_1, ESCAPED_1),
    (ESCAPED_TEXT_2, ESCAPED_2),
    (SIGNED_TEXT_1, SIGNED_1),
    (SIGNED_TEXT_2, SIGNED_2),
];

/// What a decoder answers on a stream that comes in two pieces.
fn decoded_in_two(alloc: Global, stream: &[u8], cut: usize) -> Result<Found, FrameFault>
    requires { cut ≤ length stream.now }
    ensures form { IfOk result (λ found. IsTrue (has_form found.form found.journal)) }
    ensures range { IfOk result (λ found. IsTrue (is_in_range found.form found.journal)) }
{
    let mut decoder = Decoder::new(alloc);
    decoder.feed(&stream[..cut])?;
    decoder.feed(&stream[cut..])?;
    decoder.end()
}

/// What a decoder answers on a stream that comes byte by byte.
fn decoded_by_bytes(alloc: Global, stream: &[u8]) -> Result<Found, FrameFault>
    ensures form { IfOk result (λ found. IsTrue (has_form found.form found.journal)) }
    ensures range { IfOk result (λ found. IsTrue (is_in_range found.form found.journal)) }
{
    let mut decoder = Decoder::new(alloc);
    for b in stream {
        decoder.feed(&[*b])?;
    }
    decoder.end()
}

/// The text of what was read.
fn text_of(alloc: Global, found: &Found) -> Option<MemSink>
    requires form { IsTrue (has_form found.now.form found.now.journal) }
    requires range { IsTrue (is_in_range found.now.form found.now.journal) }
{
    let mut sink = MemSink::new(alloc, 400, Vec::new(alloc)).ok()?;
    write_journal(&found.journal, found.form, &mut sink).ok()?;
    Some(sink)
}

/// Whether this is a journal with this text.
fn has_text(alloc: Global, answer: Result<Found, FrameFault>, text: &[u8]) -> bool
    requires form { IfOk answer (λ found. IsTrue (has_form found.form found.journal)) }
    requires range { IfOk answer (λ found. IsTrue (is_in_range found.form found.journal)) }
{
    match answer {
        Ok(found) => match text_of(alloc, &found) {
            Some(sink) => sink.bytes() == text,
            None => false,
        },
        Err(_) => false,
    }
}

/// Whether this is a fault with these numbers.
fn has_fault(answer: Result<Found, FrameFault>, offset: u64, code: u8, want: u8, got: u8) -> bool {
    match answer {
        Ok(_) => false,
        Err(fault) => {
            fault
                == FrameFault::At {
                    offset,
                    code,
                    want,
                    got,
                }
        }
    }
}

/// Whether the journal of a text is written as these frames.
fn is_written(alloc: Global, text: &[u8], frames: &[u8]) -> Result<bool, AllocError> {
    let Ok(found) = read_journal(alloc, text) else {
        return Ok(false);
    };
    let Ok(mut sink) = MemSink::new(alloc, 200, Vec::new(alloc)) else {
        return Err(AllocError);
    };
    let is_whole = write_frames(&found.journal, found.form, &mut sink).is_ok();
    Ok(is_whole && sink.bytes() == frames)
}

/// Whether the journal of the text is decoded from the frames, however they are cut in two, and byte by byte.
fn is_decoded(alloc: Global, text: &[u8], frames: &[u8]) -> bool {
    for cut in 0..=frames.len() {
        if !has_text(alloc, decoded_in_two(alloc, frames, cut), text) {
            return false;
        }
    }
    has_text(alloc, decoded_by_bytes(alloc, frames), text)
}

/// Whether each stream that is cut off before its end is refused: within a frame by the frame's place, and behind one for the end.
fn are_refused(alloc: Global, frames: &[u8]) -> bool {
    let mut start = 0;
    for (end, b) in frames.iter().enumerate() {
        let (code, got) = if end == start { (6, 5) } else { (4, 0) };
        let answer = decoded_in_two(alloc, &frames[..end], 0);
        if !has_fault(answer, start as u64, code, 0, got) {
            return false;
        }
        if *b == 0x7E {
            start = end + 1;
        }
    }
    true
}

#[test]
fn frames_have_the_bytes_of_their_form_and_are_decoded(rt: HostRuntime) {
    for (i, (text, frames)) in JOURNALS.iter().enumerate() {
        assert!(rt;
            is_written(rt.alloc(), text, frames) == Ok(true),
            "journal {i}"
        );
        assert!(rt; is_decoded(rt.alloc(), text, frames), "journal {i}");
        assert!(rt; are_refused(rt.alloc(), frames), "journal {i}");
    }
}

/// A stream, the place of its fault, its code, and the byte that is wanted and the one that stands there.
type Case = (&'static [u8], u64, u8, u8, u8);

const FAULTS_1: [Case; 17] = [
    (b"\x01\x7D\x7E", 0, 1, 0x00, 0x7E),
    (b"\x01\x7D\x41", 0, 1, 0x00, 0x41),
    (
        b"\x01\x01\x01\0\0\0\0\0\0\0\0\0\0\0\0\0\0\0\xA0\x86\x01\0\0\0\0\0\xD4\x7E",
        0,
        2,
        0xD5,
        0xD4,
    ),
    (
        b"\x02\x01\x01\0\0\0\0\0\0\0\0\0\0\0\0\0\0\0\xA0\x86\x01\0\0\0\0\0\xD4\x7E",
        0,
        3,
        1,
        2,
    ),
    (
        b"\x01\x01\x01\0\0\0\0\0\0\0\0\0\0\0\0\0\0\0\xA0\x86\x01\0\0\0\0\0\xD5\x7E\x01\x02\0\0\0\0\0\0\0\0\xFC\x7E",
        28,
        3,
        2,
        1,
    ),
    (b"\x7E", 0, 4, 0, 0),
    (b"\x01\xFE\x7E", 0, 4, 0, 0),
    (b"\x01\x01\0\xFD\x7E", 0, 4, 0, 0),
    (b"\x01", 0, 4, 0, 0),
    (b"\x7D", 0, 4, 0, 0),
    (b"\x01\0\xFE\x7E", 0, 5, 0, 0),
    (b"\x01\x2E\xD0\x7E", 0, 5, 0, 46),
    (
        b"\x01\x01\x01\0\0\0\0\0\0\0\0\0\0\0\0\0\0\0\xFC\x7E",
        0,
        6,
        0,
        3,
    ),
    (b"\x01\x02\0\0\0\0\0\0\0\0\xFC\x7E", 0, 6, 0, 4),
    (
        b"\x01\x01\x01\0\0\0\0\0\0\0\x03\0\0\0\0\0\0\0\x01\0\0\0\0\0\0\0\xF8\x7E",
        0,
        6,
        0,
        6,
    ),
    (b"", 0, 6, 0, 5),
    (
        b"\x01\x01\x01\0\0\0\0\0\0\0\0\0\0\0\0\0\0\0\xA0\x86\x01\0\0\0\0\0\xD5\x7E",
        28,
        6,
        0,
        5,
    ),
];

const FAULTS_2: [Case; 13] = [
    (b"\x01\x01\x02\x7D\0", 0, 1, 0x00, 0x00),
    (b"\x01\x01\x02\0\xA0\x8D\x06\xC7\x7E", 0, 2, 0xC8, 0xC7),
    (
        b"\x01\x01\x02\0\xA0\x8D\x06\xC8\x7E\x03\x02\0\xFA\x7E",
        9,
        3,
        2,
        3,
    ),
    (b"\x01\x01\x02\0\x80\x7B\x7E", 0, 4, 0, 0),
    (b"\x01\x01\x02\0\xA0\x8D\x06\xC8\x7E\x02\x02", 9, 4, 0, 0),
    (
        b"\x01\x01\x02\0\xA0\x8D\x06\xC8\x7E\x02\x2F\xCE\x7E",
        9,
        5,
        0,
        47,
    ),
    (
        b"\x01\x01\x02\0\xA0\x8D\x06\xC8\x7E\x02\x2E\0\x01\xCE\x7E",
        9,
        6,
        0,
        4,
    ),
    (
        b"\x01\x01\x02\0\xA0\x8D\x06\xC8\x7E\x02\x02\0\0\xFB\x7E",
        9,
        6,
        0,
        3,
    ),
    (b"\x01\x01\x02\x04\x01\xF6\x7E", 0, 6, 0, 6),
    (b"\x01\x01\x02\0\xA0\x8D\x06\xC8\x7E", 9, 6, 0, 5),
    (
        b"\x01\x01\x02\0\xA0\x8D\x06\xC8\x7E\x02\x02\x80\0\x7B\x7E",
        9,
        7,
        0,
        0,
    ),
    (
        b"\x01\x01\x02\0\xA0\x8D\x06\xC8\x7E\x02\x02\xFF\xFF\xFF\xFF\xFF\xFF\xFF\xFF\xFF\x02\x02\x7E",
        9,
        7,
        0,
        2,
    ),
    (
        b"\x01\x01\x02\0\xA0\x8D\x06\xC8\x7E\x02\x02\xFF\xFF\xFF\xFF\xFF\xFF\xFF\xFF\xFF\x81\x01\x82\x7E",
        9,
        7,
        0,
        129,
    ),
];

#[test]
fn faults_of_both_forms_are_told(rt: HostRuntime) {
    for (stream, offset, code, want, got) in FAULTS_1.iter().chain(&FAULTS_2) {
        let answer = decoded_by_bytes(rt.alloc(), stream);
        assert!(rt;
            has_fault(answer, *offset, *code, *want, *got),
            "code {code} at {offset}, want {want}, got {got}"
        );
    }
}

/// Whether a decoder answers its first fault again, whatever it is fed.
fn keeps_its_fault(alloc: Global) -> bool {
    let mut decoder = Decoder::new(alloc);
    let begins = decoder.feed(b"\x01\x01").is_ok();
    let fault = FrameFault::At {
        offset: 0,
        code: 1,
        want: 0,
        got: 0x41,
    };
    let is_told = decoder.feed(b"\x7D\x41\x7D\x42") == Err(fault);
    let is_kept = decoder.feed(QUIET_1) == Err(fault);
    begins && is_told && is_kept && has_fault(decoder.end(), 0, 1, 0, 0x41)
}

#[test]
fn the_first_fault_stays(rt: HostRuntime) {
    assert!(rt; keeps_its_fault(rt.alloc()));
}
