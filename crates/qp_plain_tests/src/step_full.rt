//! Lanes that are nearly full.

use crate::step_bench::{Case, PLAIN};
use crate::step_systems::{ONE_BLOCK, SIGNALS};
use crate::step_trial::Plan;

const SYSTEM: [&str; 3] = [
    ONE_BLOCK,
    SIGNALS,
    "object = [{ name = 'lamp', chart = 'c', priority = 1, queue = 1, defer = 0 }]
[[chart]]
name = 'c'
init = 's'
init_do = ['subscribe N']
state = [{ name = 's', row = [{ on = 'GO', do = ['publish N(7)', 'say 5'] }] }]
",
];

const GO: Plan<'static> = Plan {
    posts: &[(1, 4)],
    ..PLAIN
};

/// A part that finds more than 999,992 records isn't begun.
pub(crate) const CASES: &[Case<'static>] = &[
    Case {
        name: "behind 999,992 notes",
        system: &SYSTEM,
        plan: Plan {
            notes: 999_992,
            ..GO
        },
        records: &["post 0 1 1 0 0 0 4 0, spill 0 999993"],
        report: "stopped 6 taken 0",
    },
    Case {
        name: "behind 999,987 notes",
        system: &SYSTEM,
        plan: Plan {
            notes: 999_987,
            ..GO
        },
        records: &[
            "post 0 1 1 0 0 0 4 0, begin 1, sub 1 5 0, enter 1 1, done 1, took 1 1 0 1 0 4 0, spill 0 999993",
        ],
        report: "stopped 6 leaf 1 taken 1",
    },
    Case {
        name: "behind 999,985 notes",
        system: &SYSTEM,
        plan: Plan {
            notes: 999_985,
            ..GO
        },
        records: &[
            "post 0 1 1 0 0 0 4 0, begin 1, sub 1 5 0, enter 1 1, done 1, took 1 1 0 1 0 4 0, run 1 1 1, new 1 1 0 0 0 5 7, inc 1 1 0 0, pub 1 5 1 1, lock 1 1, spill 0 999996",
        ],
        report: "stopped 6 leaf 1 taken 1",
    },
    Case {
        name: "behind 999,979 notes",
        system: &SYSTEM,
        plan: Plan {
            notes: 999_979,
            ..GO
        },
        records: &[
            "post 0 1 1 0 0 0 4 0, begin 1, sub 1 5 0, enter 1 1, done 1, took 1 1 0 1 0 4 0, run 1 1 1, new 1 1 0 0 0 5 7, inc 1 1 0 0, pub 1 5 1 1, lock 1 1, inc 1 1 0 1, post 1 1 2 0 1 1 0 1, look 0 1 1, spill 0 999993",
        ],
        report: "stopped 6 leaf 1 taken 1",
    },
    Case {
        name: "behind 999,974 notes",
        system: &SYSTEM,
        plan: Plan {
            notes: 999_974,
            ..GO
        },
        records: &[
            "post 0 1 1 0 0 0 4 0, begin 1, sub 1 5 0, enter 1 1, done 1, took 1 1 0 1 0 4 0, run 1 1 1, new 1 1 0 0 0 5 7, inc 1 1 0 0, pub 1 5 1 1, lock 1 1, inc 1 1 0 1, post 1 1 2 0 1 1 0 1, look 0 1 1, unlock 1 0, dec 1 1 0 2 0, look 0 2 0, say 1 5, look 0 3 0, spill 0 999993",
        ],
        report: "stopped 6 leaf 1 taken 1",
    },
];
