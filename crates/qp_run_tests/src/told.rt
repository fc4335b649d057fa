//! A gate is told of each take and of each stimulus of a turn, with its lane and its count.

use crate::asked::{NOTHING, World};
use crate::watch::{Watch, Watches};
use qp_process::Flow;
use std::alloc::Global;
use std::sync::Wait;
use std::thread::Threads;

/// Two objects that each start with an event of their own.
const PAIR: &str = "qp = 1
signal = [{ name = 'GO', static = true }]
object = [
  { name = 'lamp', chart = 'c', priority = 1, queue = 1 },
  { name = 'next', chart = 'c', priority = 2, queue = 1 },
]
[[chart]]
name = 'c'
init = 's'
init_do = ['post me GO']
state = [{ name = 's' }]
";

/// Three more for the first object, and one for the second.
const POSTS: &str = "source 1
post lamp GO
post next GO
settle
post lamp GO
settle
post lamp GO
";

/// Under `port` and under `wait` the first object takes entries 1 to 4 in lane 1, and the second 1 and 2 in lane 2. Lane 3 is the source's, with its
/// stimuli 1, 2, 4 and 6: no turn does a `settle`.
const PORT: u64 = 0x56_0006_001E_0000;

/// Under `qk` the kernel takes entries 1 to 6 in lane 0, and lane 1 is the source's.
const QK: u64 = 0x56_007E;

/// Whether a run is done, and its gate is told of just these ten.
fn is_told<R: Threads + Wait + Sync>(rt: &R, alloc: Global, kernel: &str, wanted: u64) -> bool {
    let gate = Watch::of(Watches::Steps);
    let world = World {
        files: &[("system", PAIR), ("stimuli", POSTS)],
        frames: &[],
        flow: Flow::Lines,
    };
    let words = ["run", "--kernel", kernel, "system", "stimuli"];
    let run = world.watched(rt, alloc, &words, &NOTHING, &gate);
    run.is_done() && gate.has(10, wanted)
}

#[test]
fn each_step_is_told_once_under_port(rt: HostRuntime) {
    assert!(rt; is_told(&rt, rt.alloc(), "port", PORT));
}

#[test]
fn each_step_is_told_once_under_wait(rt: HostRuntime) {
    assert!(rt; is_told(&rt, rt.alloc(), "wait", PORT));
}

#[test]
fn each_step_is_told_once_under_qk(rt: HostRuntime) {
    assert!(rt; is_told(&rt, rt.alloc(), "qk", QK));
}
