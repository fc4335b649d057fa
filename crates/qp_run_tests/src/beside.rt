//! Two lanes run beside one another: each waits at its first step until the other has begun its own.

use crate::asked::{NOTHING, World};
use crate::watch::{Watch, Watches};
use qp_process::Flow;
use std::alloc::Global;
use std::sync::Wait;
use std::thread::Threads;

/// Runs a system, whose lanes of these bits alone call the gate. Whether each of them saw another one begin.
fn meet<R: Threads + Wait + Sync>(
    rt: &R,
    alloc: Global,
    kernel: &str,
    files: &[(&str, &str)],
    lanes: u64,
) -> bool {
    let gate = Watch::of(Watches::Meetings);
    let world = World {
        files,
        frames: &[],
        flow: Flow::Lines,
    };
    let words = ["run", "--kernel", kernel, "system", "stimuli"];
    let run = world.watched(rt, alloc, &words, &NOTHING, &gate);
    run.is_sealed() && gate.has(lanes, lanes)
}

/// Two objects that each start with an event of their own.
const TWO: &str = "qp = 1
pool = [{ size = 1, blocks = 2 }]
signal = [{ name = 'GO', static = true }, { name = 'N', params = 1 }, { name = 'X', static = true }, { name = 'TA', static = true }, { name = 'TB', static = true }]
object = [
  { name = 'lamp', chart = 'c', priority = 1, queue = 1 },
  { name = 'next', chart = 'c', priority = 2, queue = 1 },
]
[[chart]]
name = 'c'
init = 's'
init_do = ['post me X']
state = [{ name = 's' }]
";

/// One of them.
const ONE: &str = "qp = 1
pool = [{ size = 1, blocks = 2 }]
signal = [{ name = 'GO', static = true }, { name = 'N', params = 1 }, { name = 'X', static = true }, { name = 'TA', static = true }, { name = 'TB', static = true }]
object = [{ name = 'lamp', chart = 'c', priority = 1, queue = 1 }]
[[chart]]
name = 'c'
init = 's'
init_do = ['post me X']
state = [{ name = 's' }]
";

/// Under `port` lanes 1 and 2 are those of the objects.
#[test]
fn gate_two_objects(rt: HostRuntime) {
    let files = [("system", TWO), ("stimuli", "")];
    assert!(rt; meet(&rt, rt.alloc(), "port", &files, 6));
}

/// And so they are in the waiting port.
#[test]
fn gate_two_parking_objects(rt: HostRuntime) {
    let files = [("system", TWO), ("stimuli", "")];
    assert!(rt; meet(&rt, rt.alloc(), "wait", &files, 6));
}

/// Under `qk` lane 0 is the kernel's, and lane 1 that of the source.
#[test]
fn gate_kernel_and_source(rt: HostRuntime) {
    let files = [("system", ONE), ("stimuli", "source 1\npost lamp GO\n")];
    assert!(rt; meet(&rt, rt.alloc(), "qk", &files, 3));
}
