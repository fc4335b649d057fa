//! What the gate of a source's lane is told.

use crate::stimuli_shown::trial_of;
use qp_base::Gate;
use std::sync::atomic::{AtomicU64, Ordering};
use std::test::Fail;

/// Adds up calls, lanes and steps.
#[derive(Drop)]
struct Sums {
    calls: AtomicU64,
    lanes: AtomicU64,
    steps: AtomicU64,
}

impl Gate for Sums {
    fn at(&self, lane: u32, step: u64) {
        self.calls.fetch_add(1, Ordering::SeqCst);
        self.lanes.fetch_add(u64::from(lane), Ordering::SeqCst);
        self.steps.fetch_add(1 << (step % 64), Ordering::SeqCst);
    }
}

#[test]
fn each_stimulus_is_told_once(rt: HostRuntime) -> Result<(), Fail> {
    let gate = Sums {
        calls: AtomicU64::new(0),
        lanes: AtomicU64::new(0),
        steps: AtomicU64::new(0),
    };
    let text = trial_of(
        rt.alloc(),
        "source 1\ntick 3\nsettle\npost lamp GO\nsettle\ntick 3",
        0,
        &gate,
    )?;
    // The settle at place 4 sees the entry, so place 5 isn't begun.
    if text.as_str()
        != "stim 0 1 0, stim 0 2 0, settle 0, seen 0 1 0 0 0, stim 0 3 0, post 0 1 1 0 0 0 4 0, stim 0 4 0, settle 0, seen 0 1 1 0 0, tried"
    {
        return Err(Fail::new(format_args!("{text}")));
    }
    assert!(rt; gate.calls.load(Ordering::SeqCst) == 4);
    assert!(rt; gate.lanes.load(Ordering::SeqCst) == 20);
    assert!(rt; gate.steps.load(Ordering::SeqCst) == 2 + 4 + 8 + 16);
    Ok(())
}
