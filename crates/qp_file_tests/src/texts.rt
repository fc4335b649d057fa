//! Journals as text: read and written alike, and cut anywhere.

use qp_base::MemSink;
use qp_text::{TextFault, read_journal, write_journal};
use std::alloc::{AllocError, Global};

/// A run of one object and one source, in form 1.
pub(crate) const LAMP: &[u8] =
    b"qp 1 0 100000\nlane 0\nbegin 1\nenter 1 1\ndone 1\nlook 0 1 0\nseen 0 1 1 0 0\ntook 1 1 0 1 0 4 0\nrun 1 1 1\nexit 1 1\nenter 1 2\ndone 1\nlook 0 2 0\nseen 0 1 1 0 1\nlane 1\nstim 0 1 1\npost 0 1 1 0 0 0 4 0\nend 0\n";

/// A value with a sign, in form 2.
const SIGNED: &[u8] =
    b"qp 2 3 1\nlane 0\nsay 1 -4\nsay 1 9223372036854775807\nrest 0 1\nnew 0 1 0 0 0 5 1 2 3 4 5 6 7 18446744073709551615\nassert 1 4 2 0 0\nend 4\n";

/// The same value in form 1.
const UNSIGNED: &[u8] = b"qp 1 0 1000000\nlane 0\nsay 1 18446744073709551612\nend 3\n";

pub(crate) const TEXTS: [&[u8]; 3] = [LAMP, SIGNED, UNSIGNED];

/// Whether a text is read, and written as it is.
fn is_written_alike(alloc: Global, text: &[u8]) -> Result<bool, AllocError> {
    let Ok(found) = read_journal(alloc, text) else {
        return Ok(false);
    };
    let Ok(mut sink) = MemSink::new(alloc, text.len() as u64, Vec::new(alloc)) else {
        return Err(AllocError);
    };
    let is_whole = write_journal(&found.journal, found.form, &mut sink).is_ok();
    Ok(is_whole && sink.bytes() == text)
}

#[test]
fn a_text_is_read_and_written_alike(rt: HostRuntime) {
    for (i, text) in TEXTS.iter().enumerate() {
        assert!(rt; is_written_alike(rt.alloc(), text) == Ok(true), "text {i}");
    }
}

/// Why a text isn't read.
fn fault_of(alloc: Global, text: &[u8]) -> Option<TextFault> {
    match read_journal(alloc, text) {
        Ok(_) => None,
        Err(fault) => Some(fault),
    }
}

/// A text that ends behind a whole line lacks its `end`, and one that ends within a line lacks a newline there.
#[test]
fn a_cut_text_is_told_by_its_last_line(rt: HostRuntime) {
    let mut number: u64 = 1;
    let mut is_whole = true;
    for (k, byte) in LAMP.iter().enumerate() {
        let code = if is_whole { 5 } else { 1 };
        let fault = TextFault::Line { number, code };
        assert!(rt;
            fault_of(rt.alloc(), &LAMP[..k]) == Some(fault),
            "the first {k} bytes"
        );
        is_whole = *byte == b'\n';
        number = number.wrapping_add(u64::from(is_whole));
    }
    assert!(rt; number == 19);
}
