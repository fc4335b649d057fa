//! A sum by eight sources, each on a thread of its own.

use crate::asked::{NOTHING, World};
use qp_process::Flow;
use std::alloc::{AllocError, Global};
use std::sync::Wait;
use std::thread::Threads;

const SUM: &str = "qp = 1
pool = [{ size = 1, blocks = 32 }]
signal = [{ name = 'ADD', params = 1 }]
object = [{ name = 'sum', chart = 'sum', priority = 1, queue = 31 }]
[[chart]]
name = 'sum'
init = 'wait'
vars = { total = 0 }
state = [{ name = 'wait', row = [{ on = 'ADD', do = ['total = total + p1'] }] }]
";

/// Eight times the sum of 1 to 1,000.
const SUMMARY: &str = "end 0\nobject sum 8000 wait total=4004000\npool 1 given 8000 back 8000\n";

/// Eight sources, each of which posts 1 to 1,000 and settles behind each fourth post.
fn posts(alloc: Global) -> Result<String, AllocError> {
    let mut text = String::new(alloc);
    for source in 1..9u32 {
        write!(text, "source {source}\n")?;
        for n in 1..1001u32 {
            write!(text, "post sum ADD({n})\n")?;
            if n % 4 == 0 {
                text.push_str("settle\n")?;
            }
        }
    }
    Ok(text)
}

/// Whether the sum of these stimuli is right, and all blocks came back.
fn is_summed<R: Threads + Wait + Sync>(
    rt: &R,
    alloc: Global,
    words: &[&str],
    stimuli: &str,
) -> bool {
    let world = World {
        files: &[("system", SUM), ("stimuli", stimuli)],
        frames: &[],
        flow: Flow::Lines,
    };
    world.is_so(rt, alloc, words, &NOTHING, (0, SUMMARY.as_bytes(), ""))
}

/// The same under a kernel, where the posts are made first.
fn adds_up<R: Threads + Wait + Sync>(rt: &R, alloc: Global, kernel: &str) -> bool {
    let words = [
        "run", "--kernel", kernel, "--out", "summary", "system", "stimuli",
    ];
    match posts(alloc) {
        Ok(stimuli) => is_summed(rt, alloc, &words, stimuli.as_str()),
        Err(_) => false,
    }
}

#[test]
fn eight_sources_add_up_under_port(rt: HostRuntime) {
    assert!(rt; adds_up(&rt, rt.alloc(), "port"));
}

#[test]
fn eight_sources_add_up_under_wait(rt: HostRuntime) {
    assert!(rt; adds_up(&rt, rt.alloc(), "wait"));
}

#[test]
fn eight_sources_add_up_under_qk(rt: HostRuntime) {
    assert!(rt; adds_up(&rt, rt.alloc(), "qk"));
}
