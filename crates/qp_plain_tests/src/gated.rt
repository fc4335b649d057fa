//! A gate is told of each step, with its count.

use crate::reading::{is_word, played};
use qp_base::Gate;
use qp_model::Lanes;
use std::sync::atomic::{AtomicU64, Ordering};
use std::test::Fail;

/// Two objects: each GO for the first makes it post PING to the second, which is above it and interrupts its step.
const PAIR: &str = "qp = 1
signal = [{ name = 'GO', static = true }, { name = 'PING', static = true }]
object = [{ name = 'low', chart = 'c', priority = 1, queue = 3 }, { name = 'high', chart = 'd', priority = 2, queue = 3 }]
[[chart]]
name = 'c'
init = 's'
state = [{ name = 's', row = [{ on = 'GO', do = ['post high PING'] }] }]
[[chart]]
name = 'd'
init = 't'
state = [{ name = 't' }]
";

/// Two events for the first object, so that each object takes two entries.
const TWO: &str = "source 1
post low GO
post low GO
";

/// A gate that counts its calls, and those that weren't lane 0's with the next count.
#[derive(Drop)]
struct Tally {
    calls: AtomicU64,
    strange: AtomicU64,
}

impl Gate for Tally {
    fn at(&self, lane: u32, step: u64) {
        let before = self.calls.fetch_add(1, Ordering::SeqCst);
        if lane != 0 || step != before.wrapping_add(1) {
            let _ = self.strange.fetch_add(1, Ordering::SeqCst);
        }
    }
}

/// How many records of lane 0 have the word `took`.
fn took(lanes: &Lanes) -> u64 {
    let mut took = 0u64;
    if let Some(lane) = lanes.items.first() {
        for rec in &lane.items {
            if is_word(rec, "took") {
                took = took.saturating_add(1);
            }
        }
    }
    took
}

/// Each `took` of lane 0 is told once, the first with 1 and each other with one more.
#[test]
fn a_gate_sees_each_took_once(rt: HostRuntime) -> Result<(), Fail> {
    let gate = Tally {
        calls: AtomicU64::new(0),
        strange: AtomicU64::new(0),
    };
    let left = played(&rt, rt.alloc(), PAIR, TWO, &gate)?;
    assert!(rt; took(&left.lanes) == 4 && left.steps == 4);
    assert!(rt; gate.calls.load(Ordering::SeqCst) == 4);
    assert!(rt; gate.strange.load(Ordering::SeqCst) == 0);
    Ok(())
}
