//! Calls whose output goes on in pieces, to sinks that take all of it and to sinks that fail.

use crate::asked::{Failing, World};
use crate::samples::LAMP;
use qp_process::Flow;
use std::alloc::{AllocError, Global};
use std::process::Abort;
use std::sync::Wait;
use std::thread::Threads;

/// The room for the output, its puts that fail and those of the note, each with how many bytes it keeps; and what the call comes to: the
/// number of its answer, how many bytes of its output have gone on, and its note.
type Case = (
    u64,
    &'static [(u64, u64)],
    &'static [(u64, u64)],
    u8,
    usize,
    &'static str,
);

/// A call by its words and files, with its whole output.
#[derive(Clone, Copy)]
struct Call<'t> {
    words: &'t [&'t str],
    files: &'t [(&'t str, &'t str)],
    whole: &'t str,
}

/// Whether the call comes to what the case says.
fn is_so<R: Threads + Wait + Sync>(waits: &R, alloc: Global, call: &Call<'_>, case: &Case) -> bool {
    let (room, puts, notes, answer, len, note) = *case;
    let world = World {
        files: call.files,
        frames: &[],
        flow: Flow::Pieces,
    };
    let failing = Failing {
        room,
        loads: &[],
        puts,
        notes,
    };
    match call.whole.as_bytes().get(..len) {
        Some(front) => world.is_so(waits, alloc, call.words, &failing, (answer, front, note)),
        None => false,
    }
}

/// Asserts that the call comes to what each case says.
fn expect<R: Abort + Threads + Wait + Sync>(
    rt: &R,
    alloc: Global,
    call: &Call<'_>,
    cases: &[Case],
) {
    for (i, case) in cases.iter().enumerate() {
        assert!(rt; is_so(rt, alloc, call, case), "case {i}");
    }
}

/// A journal of so many records, each a line of 8 bytes, and 27 bytes besides.
fn journal(alloc: Global, records: usize) -> Result<String, AllocError> {
    let mut text = String::from_str(alloc, "qp 1 0 100000\nlane 0\n")?;
    for _ in 0..records {
        text.push_str("begin 1\n")?;
    }
    text.push_str("end 0\n")?;
    Ok(text)
}

/// The same of what `migrate --to 1` makes of a journal in form 1, which is the journal again. Whether there was memory for it.
fn expect_again<R: Abort + Threads + Wait + Sync>(
    rt: &R,
    alloc: Global,
    records: usize,
    cases: &[Case],
) -> bool {
    let Ok(text) = journal(alloc, records) else {
        return false;
    };
    let call = Call {
        words: &["migrate", "--to", "1", "journal"],
        files: &[("journal", text.as_str())],
        whole: text.as_str(),
    };
    expect(rt, alloc, &call, cases);
    true
}

const FAULT: &str = "qp: write fault\n";

/// 160,027 bytes go on as 65,533, 65,536 and 28,958.
const LONG: [Case; 11] = [
    // A full device, a pipe that closes, a fault at each piece, and no fourth piece.
    (200000, &[(0, 0)], &[], 7, 0, FAULT),
    (200000, &[(0, 100)], &[], 7, 100, FAULT),
    (200000, &[(1, 5)], &[], 7, 65538, FAULT),
    (200000, &[(1, 65536)], &[], 7, 131069, FAULT),
    (200000, &[(2, 7)], &[], 7, 131076, FAULT),
    (200000, &[(2, 28958)], &[], 7, 160027, FAULT),
    (200000, &[(3, 0)], &[], 0, 160027, ""),
    // Rooms for a part of the output, and just enough.
    (0, &[], &[], 7, 0, FAULT),
    (70000, &[], &[], 7, 70000, FAULT),
    (160026, &[], &[], 7, 160026, FAULT),
    (160027, &[], &[], 0, 160027, ""),
];

/// An output of 51 bytes goes on at the end.
const SHORT: [Case; 3] = [
    (1000, &[(1, 0)], &[], 0, 51, ""),
    (1000, &[(0, 50)], &[], 7, 50, FAULT),
    (1000, &[(0, 0)], &[], 7, 0, FAULT),
];

/// A run of the lamp that spends its budget, which is one event, and has two.
const SPENDING: Call = Call {
    words: &["run", "--budget", "1", "system", "stimuli"],
    files: &[
        ("system", LAMP),
        ("stimuli", "source 1\npost lamp GO\npost lamp GO\n"),
    ],
    whole: "qp 1 0 1
lane 0
begin 1
enter 1 1
done 1
look 0 1 0
seen 0 1 1 0 0
took 1 1 0 1 0 4 0
run 1 1 1
exit 1 1
enter 1 2
done 1
look 0 2 0
seen 0 1 2 0 1
spent 1
lane 1
stim 0 1 1
post 0 1 1 0 0 0 4 0
stim 0 2 2
post 0 1 2 0 1 0 4 0
end 4
",
};

/// No fault; one of the output, for which the note is held back; and one of the note.
const SPENT: [Case; 3] = [
    (1000, &[], &[], 4, 233, "qp: spent in lane 0\n"),
    (1000, &[(0, 20)], &[], 7, 20, FAULT),
    (1000, &[], &[(0, 3)], 7, 233, "qp:"),
];

/// A refusal puts nothing but its line.
const REFUSED: Call = Call {
    words: &["decode", "x.qs"],
    files: &[],
    whole: "",
};

const REFUSALS: [Case; 1] = [(0, &[(0, 0)], &[], 2, 0, "qp: x.qs: absent\n")];

#[test]
fn outputs_go_on_in_pieces(rt: HostRuntime) {
    let alloc = rt.alloc();
    assert!(rt; expect_again(&rt, alloc, 20000, &LONG) && expect_again(&rt, alloc, 3, &SHORT));
    expect(&rt, alloc, &SPENDING, &SPENT);
    expect(&rt, alloc, &REFUSED, &REFUSALS);
}
