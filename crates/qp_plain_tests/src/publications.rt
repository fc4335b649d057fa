//! Publications of a handler, part by part.

use crate::step_bench::{Case, PLAIN};
use crate::step_trial::Plan;

/// Objects 1, 2 and 3 subscribe to N; object 2 publishes it. Objects 1 and 3 have room for one entry, object 2 for two.
const THREE: &str = "qp = 1
pool = [{ size = 1, blocks = 1 }]
signal = [{ name = 'GO', static = true }, { name = 'N', params = 1 }, { name = 'X', static = true }]
object = [
  { name = 'low', chart = 'q', priority = 1, queue = 0 },
  { name = 'mid', chart = 'c', priority = 2, queue = 1 },
  { name = 'high', chart = 'q', priority = 3, queue = 0 },
]
[[chart]]
name = 'c'
init = 's'
init_do = ['subscribe N']
state = [{ name = 's', row = [{ on = 'GO', do = ['post me X margin 0', 'publish N(7)', 'say ok'] }] }]
[[chart]]
name = 'q'
init = 's'
init_do = ['subscribe N']
state = [{ name = 's' }]
";

const STARTS: &str =
    "begin 1, sub 1 5 0, enter 1 1, done 1, begin 3, sub 3 5 1, enter 3 1, done 3, begin 2, sub 2 5 2, enter 2 1, done 2";

/// Object 2 after the starts of the others.
const MIDDLE: Plan<'static> = Plan {
    me: 2,
    others: &[1, 3],
    ..PLAIN
};

/// The post and the starts, and what comes up to each scheduling point of the step that publishes.
const RECORDS: [&str; 8] = [
    "post 0 2 1 0 0 0 4 0, begin 1, sub 1 5 0, enter 1 1, done 1, begin 3, sub 3 5 1, enter 3 1, done 3, begin 2, sub 2 5 2, enter 2 1, done 2",
    "took 2 1 0 1 0 4 0, run 2 1 1, post 2 2 2 0 1 0 6 0, look 0 1 0",
    "new 2 1 0 0 0 5 7, inc 2 1 0 0, pub 2 5 3 7, lock 2 3, inc 2 1 0 1, post 2 3 1 0 0 1 0 1, look 0 2 3",
    "inc 2 1 0 2, post 2 2 3 0 1 1 0 2, look 0 3 3",
    "inc 2 1 0 3, post 2 1 1 0 0 1 0 3, look 0 4 3",
    "unlock 2 0, dec 2 1 0 4 0, look 0 5 0",
    "say 2 1, look 0 6 0",
    "done 2, took 2 3 0 2 0 6 0, none 2, done 2, took 2 3 0 3 1 0 2, none 2, done 2, dec 2 1 0 5 2, nil 2 3 0 3",
];

pub(crate) const WHOLE: Case<'static> = Case {
    name: "a publication",
    system: &[THREE],
    plan: Plan {
        posts: &[(2, 4)],
        ..MIDDLE
    },
    records: &RECORDS,
    report: "empty leaf 1 taken 3",
};

/// A queue is full by a post before the starts.
pub(crate) const CUTS: &[Case<'static>] = &[
    Case {
        name: "object 3 has a full queue",
        system: &[THREE],
        plan: Plan {
            posts: &[(2, 4), (3, 6)],
            ..MIDDLE
        },
        records: &[
            "post 0 2 1 0 0 0 4 0",
            "post 0 3 1 0 0 0 6 0",
            STARTS,
            "took 2 1 0 1 0 4 0, run 2 1 1, post 2 2 2 0 1 0 6 0, look 0 1 0, new 2 1 0 0 0 5 7, inc 2 1 0 0, pub 2 5 3 7, lock 2 3, inc 2 1 0 1, assert 2 1 3 1 0 0",
        ],
        report: "stopped 1 leaf 1 taken 1",
    },
    Case {
        name: "object 2 has a full queue",
        system: &[THREE],
        plan: Plan {
            posts: &[(2, 4), (2, 6)],
            ..MIDDLE
        },
        records: &[
            "post 0 2 1 0 0 0 4 0",
            "post 0 2 2 0 0 0 6 0",
            STARTS,
            "took 2 2 0 1 0 4 0, run 2 1 1, post 2 2 3 0 1 0 6 0, look 0 1 0, new 2 1 0 0 0 5 7, inc 2 1 0 0, pub 2 5 3 7, lock 2 3, inc 2 1 0 1, post 2 3 1 0 0 1 0 1, look 0 2 3, inc 2 1 0 2, assert 2 1 2 3 0 1",
        ],
        report: "stopped 1 leaf 1 taken 1",
    },
    Case {
        name: "object 1 has a full queue",
        system: &[THREE],
        plan: Plan {
            posts: &[(2, 4), (1, 6)],
            ..MIDDLE
        },
        records: &[
            "post 0 2 1 0 0 0 4 0",
            "post 0 1 1 0 0 0 6 0",
            STARTS,
            "took 2 1 0 1 0 4 0, run 2 1 1, post 2 2 2 0 1 0 6 0, look 0 1 0, new 2 1 0 0 0 5 7, inc 2 1 0 0, pub 2 5 3 7, lock 2 3, inc 2 1 0 1, post 2 3 1 0 0 1 0 1, look 0 2 3, inc 2 1 0 2, post 2 2 3 0 1 1 0 2, look 0 3 3, inc 2 1 0 3, assert 2 1 1 1 0 0",
        ],
        report: "stopped 1 leaf 1 taken 1",
    },
];
