//! Posts that are settled one by one, under each kernel: their summary, and the journal judged and replayed.

use crate::asked::{NOTHING, World};
use qp_process::Flow;
use std::alloc::Global;
use std::sync::Wait;
use std::thread::Threads;

/// A lamp with one place in its queue, which two posts that nobody settles would overflow.
const LAMP: &str = "qp = 1
pool = [{ size = 1, blocks = 2 }]
signal = [{ name = 'GO', static = true }, { name = 'N', params = 1 }, { name = 'X', static = true }, { name = 'TA', static = true }, { name = 'TB', static = true }]
object = [{ name = 'lamp', chart = 'c', priority = 1, queue = 0 }]
[[chart]]
name = 'c'
init = 's'
state = [{ name = 's', row = [{ on = 'GO', do = ['say 1', 'say 2'] }] }]
";

const POSTS: &str = "source 1
post lamp GO
settle
post lamp GO
settle
post lamp GO
settle
";

const SUMMARY: &str = "end 0\nobject lamp 3 s\npool 1 given 0 back 0\n";

/// Whether a line of a journal is a record.
fn is_record(line: &str) -> bool {
    !line.starts_with("qp ") && !line.starts_with("lane ") && !line.starts_with("end ")
}

/// How many records a journal has.
fn records(journal: &str) -> usize {
    let mut n: usize = 0;
    for line in journal.lines() {
        n = n.saturating_add(usize::from(is_record(line)));
    }
    n
}

/// Whether a text begins with a line of this word and this number.
fn has_head(alloc: Global, text: &str, word: &str, number: usize) -> bool {
    match format!(in alloc; "{word} {number}\n") {
        Ok(head) => text.starts_with(head.as_str()),
        Err(_) => false,
    }
}

/// Whether this is an order of so many records, or a cycle: a head that tells how many lines follow.
fn is_replay(alloc: Global, text: &str, records: usize) -> bool {
    let places = text.lines().count().saturating_sub(1);
    has_head(alloc, text, "order", places) && places == records
        || has_head(alloc, text, "cycle", places)
}

/// Whether the journal of a run of the lamp is lawful, and is replayed.
fn is_judged<R: Threads + Wait + Sync>(rt: &R, alloc: Global, journal: &str) -> bool {
    let world = World {
        files: &[("system", LAMP), ("stimuli", POSTS), ("journal", journal)],
        frames: &[],
        flow: Flow::Lines,
    };
    let words = ["check", "system", "stimuli", "journal"];
    let is_lawful = world.is_so(rt, alloc, &words, &NOTHING, (0, b"lawful\n", ""));
    let words = ["replay", "system", "stimuli", "journal"];
    let replayed = world.ask(rt, alloc, &words, &NOTHING);
    is_lawful && replayed.is_done() && is_replay(alloc, replayed.text(), records(journal))
}

/// Whether the journal that a run of the lamp prints is judged as it should.
fn is_run<R: Threads + Wait + Sync>(
    rt: &R,
    alloc: Global,
    world: &World<'_>,
    kernel: &str,
) -> bool {
    let words = ["run", "--kernel", kernel, "system", "stimuli"];
    let run = world.ask(rt, alloc, &words, &NOTHING);
    run.is_done() && is_judged(rt, alloc, run.text())
}

/// Whether the lamp comes to its summary, leaves a sealed journal or none as is wanted, and its journal is judged as it should.
fn is_same<R: Threads + Wait + Sync>(rt: &R, alloc: Global, kernel: &str, is_sealed: bool) -> bool {
    let world = World {
        files: &[("system", LAMP), ("stimuli", POSTS)],
        frames: &[],
        flow: Flow::Lines,
    };
    let words = [
        "run", "--kernel", kernel, "--out", "summary", "system", "stimuli",
    ];
    let run = world.ask(rt, alloc, &words, &NOTHING);
    run.is(0, SUMMARY.as_bytes(), "")
        && run.is_sealed() == is_sealed
        && is_run(rt, alloc, &world, kernel)
}

/// Each kernel, and whether it seals its journals.
const KERNELS: [(&str, bool); 4] = [("sim", false), ("qk", true), ("port", true), ("wait", true)];

#[test]
fn settled_posts_come_to_the_same_under_each_kernel(rt: HostRuntime) {
    for (kernel, is_sealed) in &KERNELS {
        assert!(rt; is_same(&rt, rt.alloc(), kernel, *is_sealed), "{kernel}");
    }
}
