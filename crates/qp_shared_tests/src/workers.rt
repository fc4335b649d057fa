//! Rows of no worker, of one, and of several, each of which takes one turn in a thread of its own.

ghost use Rattle.std.specs.Prelude.{◌≡◌, ◌+◌, ◌<◌};

use qp_port_phases::{Manner, run_lanes};
use std::sync::Wait;

/// Counts its turns.
#[derive(Drop)]
struct Counter {
    turns: u32,
}

/// Each counts one turn.
#[derive(Clone, Copy)]
struct Once;

impl Manner<Counter> for Once {
    ghost ready = { λ how w. w.turns < 1000 };

    ghost turned = { λ how v w. w.turns ≡ v.turns + 1 };

    fn turn<R: Wait>(&self, rt: &R, worker: &mut Counter) {
        let _ = rt;
        worker.turns += 1;
    }
}

#[test]
fn each_in_its_place(rt: HostRuntime) {
    let mut workers = [
        Counter { turns: 0 },
        Counter { turns: 10 },
        Counter { turns: 20 },
        Counter { turns: 30 },
        Counter { turns: 40 },
    ];
    run_lanes(&rt, &Once, &mut workers);
    for (k, worker) in workers.iter().enumerate() {
        assert_eq!(rt; worker.turns as usize, 10 * k + 1);
    }
}

#[test]
fn one_worker_or_none(rt: HostRuntime) {
    let mut one = [Counter { turns: 7 }];
    run_lanes(&rt, &Once, &mut one);
    assert_eq!(rt; one[0].turns, 8);
    run_lanes(&rt, &Once, &mut one[1..]);
    assert_eq!(rt; one[0].turns, 8);
}
