//! Journals read from text in one pass.

use crate::texts::{LAMP, TEXTS};
use qp_text::{Found, TextFault};
use qp_text_scan::{read_journal, scan_journal};
use std::alloc::Global;

/// A text with each word of form 2.
const WORDS: &[u8] =
    b"qp 2 3 1000000\nlane 0\nbegin 1\ntook 1 2 3 4 5 6 7\nnil 1 2 3 4\nseen 1 2 3 4 5\nrun 1 2 3\nnone 1\nexit 1 2\nenter 1 2\ninit 1 2\nsay 1 -9223372036854775808\ndone 1\nnew 1 2 3 4 5 6\nshort 1 2 3 4 5\ninc 1 2 3 4\ndec 1 2 3 4 5\nback 1 2 3 4 5\npost 1 2 3 4 5 6 7 8\nlifo 1 2 3 4 5 6 7\nfull 1 2 3 4 5 6\npub 1 2 3 4\nlock 1 2\nunlock 1 2\ndefer 1 2 3 4\nnodefer 1\nrecall 1 2 3 4\nnorecall 1\nflush 1 2 3 4\nsub 1 2 3\nunsub 1 2 3\nsame 1 2 3\narm 1 2 3 4 5\ndisarm 1 2 3 4\nrearm 1 2 3 4 5\nidle 1 2 3\ntick 1 2 3 4\nfire 1 2 3 4\nstim 1 2 3\nsettle 1\nassert 1 1 2 3 4 5\nspent 1\nspill 1 2\nlook 1 2 3\nrest 1 2\nlane 1\nend 3\n";

/// Texts with a fault in their last line: the line of a lane or of the end, and then a record.
const FAULTS: [&[u8]; 22] = [
    b"qp 3 0 1\n",
    b"qp 1 0 1\nlamp 0\n",
    b"qp 1 0 1\nlane 00\n",
    b"qp 1 0 1\nlane 1\n",
    b"qp 1 0 1\nlane 0 \n",
    b"qp 1 0 1\nlane  0\n",
    b"qp 1 0 1\nlane\n",
    b"qp 1 0 1\nlane 0 0\n",
    b"qp 1 0 1\nlane 18446744073709551616\n",
    b"qp 1 0 1\nbegin 1\n",
    b"qp 1 0 1\nend 1\n",
    b"qp 1 0 1\nqp 1 0 1\n",
    b"qp 1 0 1\nend 0\nend 0\n",
    b"qp 1 0 1\nlane 0\nbegin 33\n",
    b"qp 1 0 1\nlane 0\nrest 1 2\n",
    b"qp 1 0 1\nlane 0\nsay 1 -1\n",
    b"qp 2 0 1\nlane 0\nsay 1 -0\n",
    b"qp 1 0 1\nlane 0\nbegin 1 1\n",
    b"qp 1 0 1\nlane 0\nnew 1 2 3 4 5\n",
    b"qp 1 0 1\nlane 0\nassert 1 1 2 3 4\n",
    b"qp 1 0 1\nlane 0\nbegin 01\n",
    b"qp 1 0 1\nlane 0\nbegin 1\r\n",
];

#[test]
fn a_text_without_a_fault_is_read_in_one_pass(rt: HostRuntime) {
    for (i, text) in TEXTS.iter().enumerate() {
        assert!(rt; scan_journal(rt.alloc(), text).is_some(), "text {i}");
    }
    assert!(rt; scan_journal(rt.alloc(), WORDS).is_some(), "each word");
}

/// Why a text isn't read.
fn fault_of(answer: Result<Found, TextFault>) -> Option<TextFault> {
    match answer {
        Ok(_) => None,
        Err(fault) => Some(fault),
    }
}

/// The fault of a text, if both readers answer the same one.
fn same_fault(alloc: Global, text: &[u8]) -> Option<TextFault> {
    let fault = fault_of(read_journal(alloc, text))?;
    let named = fault_of(qp_text::read_journal(alloc, text))?;
    if fault == named { Some(fault) } else { None }
}

#[test]
fn a_fault_is_named_by_the_other_reader(rt: HostRuntime) {
    for (i, text) in FAULTS.iter().enumerate() {
        assert!(rt; same_fault(rt.alloc(), text).is_some(), "text {i}");
    }
    for (k, _) in LAMP.iter().enumerate() {
        assert!(rt;
            same_fault(rt.alloc(), &LAMP[..k]).is_some(),
            "the first {k} bytes"
        );
    }
}
