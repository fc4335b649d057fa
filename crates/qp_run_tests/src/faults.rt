//! Calls of which something fails: each put of their output in turn, each load, and the put of the note; line by line and in pieces.

use crate::asked::{Ended, Failing, NOTHING, World};
use crate::samples::{LAMP, TABLE};
use qp_process::Flow;
use std::alloc::Global;
use std::process::Abort;
use std::sync::Wait;
use std::thread::Threads;

/// A call: its words, the byte that ends each of its puts where they go line by line, and how many files it loads.
type Call = (&'static [&'static str], u8, u64);

/// Whether the byte of this number is the last of a put.
fn ends_put(flow: Flow, whole: &[u8], i: usize, is_end: bool) -> bool {
    i.saturating_add(1) == whole.len() || is_end && flow == Flow::Lines
}

impl World<'_> {
    /// Whether the put of this number leaves what it has kept of an output of which so many bytes have gone on then.
    fn keeps<R: Threads + Wait + Sync>(
        &self,
        waits: &R,
        alloc: Global,
        words: &[&str],
        whole: &[u8],
        put: u64,
        start: usize,
        kept: u8,
    ) -> bool {
        let end = start.saturating_add(usize::from(kept));
        let front = whole.get(..end).unwrap_or(&[]);
        let failing = Failing {
            puts: &[(put, u64::from(kept))],
            ..NOTHING
        };
        self.is_so(
            waits,
            alloc,
            words,
            &failing,
            (7, front, "qp: write fault\n"),
        )
    }

    /// Whether each put of a call that fails in turn leaves what it should, after keeping no byte or one, and it has no more of them.
    fn puts_fail<R: Threads + Wait + Sync>(
        &self,
        waits: &R,
        alloc: Global,
        words: &[&str],
        ends: u8,
        whole: &[u8],
    ) -> bool {
        let mut is_right = true;
        let (mut put, mut start) = (0u64, 0usize);
        for (i, byte) in whole.iter().enumerate() {
            if ends_put(self.flow, whole, i, *byte == ends) {
                is_right &= self.keeps(waits, alloc, words, whole, put, start, 0);
                is_right &= self.keeps(waits, alloc, words, whole, put, start, 1);
                put = put.saturating_add(1);
                start = i.saturating_add(1);
            }
        }
        let failing = Failing {
            puts: &[(put, 0)],
            ..NOTHING
        };
        is_right && self.is_so(waits, alloc, words, &failing, (0, whole, ""))
    }

    /// Whether a call is done and has an output, each of whose puts fails as it should.
    fn is_put<R: Threads + Wait + Sync>(&self, waits: &R, alloc: Global, call: &Call) -> bool {
        let (words, ends, _) = call;
        let whole = self.ask(waits, alloc, words, &NOTHING);
        let bytes = whole.bytes();
        whole.is_done() && !bytes.is_empty() && self.puts_fail(waits, alloc, words, *ends, bytes)
    }

    /// Whether a call of which these loads and these puts of the note fail comes to this answer, output and note.
    fn fails_so<'f, R: Threads + Wait + Sync>(
        &self,
        waits: &R,
        alloc: Global,
        words: &[&str],
        loads: &'f [u64],
        notes: &'f [(u64, u64)],
        want: (u8, &[u8], &str),
    ) -> bool {
        let failing = Failing {
            loads,
            notes,
            ..NOTHING
        };
        self.is_so(waits, alloc, words, &failing, want)
    }

    /// Whether each load of a call that fails is told, puts nothing, and is a failed write where its note can't be put.
    fn loads_fail<R: Threads + Wait + Sync>(&self, waits: &R, alloc: Global, call: &Call) -> bool {
        let (words, _, loads) = call;
        let mut is_right = true;
        for load in 0..*loads {
            let told = "qp: read fault\n";
            is_right &= self.fails_so(waits, alloc, words, &[load], &[], (6, b"", told));
            is_right &= self.fails_so(waits, alloc, words, &[load], &[(0, 0)], (7, b"", ""));
            is_right &= self.fails_so(waits, alloc, words, &[load], &[(0, 1)], (7, b"", "q"));
        }
        is_right
    }

    /// Whether a call has this answer and note, and is a failed write with the same output where the note's put fails.
    fn is_noted<R: Threads + Wait + Sync>(&self, waits: &R, alloc: Global, noted: &Noted) -> bool {
        let (words, answer, note) = noted;
        let ended = self.ask(waits, alloc, words, &NOTHING);
        let out = ended.bytes();
        ended.is(*answer, out, note)
            && self.fails_so(waits, alloc, words, &[], &[(0, 0)], (7, out, ""))
            && self.fails_so(waits, alloc, words, &[], &[(0, 1)], (7, out, "q"))
    }
}

/// Each command and kernel: a lamp that is switched on, with a pool or without, and five philosophers, whose journal is given as text and as
/// frames. Of a run with threads it is the summary, which is the same each time.
const CALLS: [Call; 14] = [
    (&["run", "lamp", "go"], b'\n', 2),
    (&["run", "--kernel", "qv", "lamp", "go"], b'\n', 2),
    (&["gen", "1"], b'\n', 0),
    (&["run", "--out", "frames", "table", "two"], 0x7E, 2),
    (&["run", "--out", "summary", "table", "two"], b'\n', 2),
    (&["run", "--out", "summary", "pooled", "go"], b'\n', 2),
    (
        &["run", "--kernel", "qk", "--out", "summary", "lamp", "go"],
        b'\n',
        2,
    ),
    (
        &["run", "--kernel", "port", "--out", "summary", "lamp", "go"],
        b'\n',
        2,
    ),
    (
        &["run", "--kernel", "wait", "--out", "summary", "lamp", "go"],
        b'\n',
        2,
    ),
    (&["decode", "frames"], b'\n', 1),
    (&["migrate", "journal"], b'\n', 1),
    (&["migrate", "--from", "frames", "frames"], 0x7E, 1),
    (&["check", "table", "two", "journal"], b'\n', 3),
    (&["replay", "table", "two", "journal"], b'\n', 3),
];

/// The lamp with a pool.
const POOLED: &str = "qp = 1
pool = [{ size = 1, blocks = 2 }]
signal = [{ name = 'GO', static = true }]
chart = [{ name = 'lamp', init = 'off', state = [
  { name = 'off', row = [{ on = 'GO', to = 'on' }] }, { name = 'on' },
] }]
object = [{ name = 'lamp', chart = 'lamp', priority = 1, queue = 1 }]
";

const FILES: [(&str, &str); 5] = [
    ("lamp", LAMP),
    ("pooled", POOLED),
    ("go", "source 1\npost lamp GO\n"),
    ("table", TABLE),
    ("two", "source 1\ntick 0\nsettle\ntick 0\n"),
];

/// Asserts it of each call, whose output goes on so.
fn expect<R: Abort + Threads + Wait + Sync>(rt: &R, alloc: Global, world: &World<'_>) {
    for (i, call) in CALLS.iter().enumerate() {
        let is_right = world.is_put(rt, alloc, call) && world.loads_fail(rt, alloc, call);
        assert!(rt; is_right, "call {i}");
    }
}

/// The same over these files, a journal, and one as frames.
fn expect_beside<R: Abort + Threads + Wait + Sync>(
    rt: &R,
    alloc: Global,
    journal: &Ended,
    frames: &Ended,
) {
    let [lamp, pooled, go, table, two] = FILES;
    let files = [lamp, pooled, go, table, two, ("journal", journal.text())];
    for flow in [Flow::Lines, Flow::Pieces] {
        let world = World {
            files: &files,
            frames: frames.bytes(),
            flow,
        };
        expect(rt, alloc, &world);
    }
}

#[test]
fn each_put_and_each_load_fails_in_turn(rt: HostRuntime) {
    let alloc = rt.alloc();
    let world = World {
        files: &FILES,
        frames: &[],
        flow: Flow::Lines,
    };
    let journal = world.ask(&rt, alloc, &["run", "table", "two"], &NOTHING);
    let words = ["run", "--out", "frames", "table", "two"];
    let frames = world.ask(&rt, alloc, &words, &NOTHING);
    expect_beside(&rt, alloc, &journal, &frames);
}

/// Words, the number of the answer, and the note.
type Noted = (&'static [&'static str], u8, &'static str);

/// Each answer that has a note of its own, but want of memory and reads and writes that fail.
const NOTED: [Noted; 7] = [
    (&["walk"], 1, "qp: bad words\n"),
    (&["run", "lamp", "lost"], 2, "qp: lost: absent\n"),
    (&["run", "go", "go"], 2, "qp: go: 1 -\n"),
    (&["decode", "go"], 2, "qp: go: 4 0\n"),
    (&["run", "full", "go"], 3, "qp: assertion 1 in lane 0\n"),
    (
        &["run", "--budget", "1", "lamp", "twice"],
        4,
        "qp: spent in lane 0\n",
    ),
    (
        &["check", "lamp", "none", "floor"],
        8,
        "qp: broken D19 lane 0\n",
    ),
];

/// Its one row posts two events, and there is room for one.
const CROWDED: &str = "qp = 1
signal = [{ name = 'GO', static = true }]
chart = [{ name = 'lamp', init = 's', state = [
  { name = 's', row = [{ on = 'GO', do = ['post me GO', 'post me GO'] }] },
] }]
object = [{ name = 'lamp', chart = 'lamp', priority = 1, queue = 0 }]
";

/// The journal of a lamp without stimuli, but that its look states a floor of 1.
const FLOOR: &str =
    "qp 1 0 100000\nlane 0\nbegin 1\nenter 1 1\ndone 1\nlook 0 1 1\nseen 0 1 0 0 0\nend 0\n";

const NOTED_FILES: [(&str, &str); 6] = [
    ("lamp", LAMP),
    ("go", "source 1\npost lamp GO\n"),
    ("twice", "source 1\npost lamp GO\npost lamp GO\n"),
    ("none", ""),
    ("full", CROWDED),
    ("floor", FLOOR),
];

#[test]
fn a_note_that_fails_is_a_failed_write(rt: HostRuntime) {
    let alloc = rt.alloc();
    for flow in [Flow::Lines, Flow::Pieces] {
        let world = World {
            files: &NOTED_FILES,
            frames: &[],
            flow,
        };
        for noted in &NOTED {
            assert!(rt; world.is_noted(&rt, alloc, noted), "status {}", noted.1);
        }
    }
}
