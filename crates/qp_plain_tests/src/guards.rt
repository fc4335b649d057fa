//! Guards, and which state is asked first.

use crate::step_bench::{Case, PLAIN};
use crate::step_systems::{ONE_BLOCK, SIGNALS, TWO_BLOCKS};
use crate::step_trial::Plan;

pub(crate) const CASES: &[Case<'static>] = &[
    // The leaf's guard is 0, so that its outermost state handles; what no state has a row for is ignored.
    Case {
        name: "an event goes up to the state that handles it",
        system: &[
            TWO_BLOCKS,
            SIGNALS,
            "object = [{ name = 'lamp', chart = 'c', priority = 1, queue = 1, defer = 0 }]
[[chart]]
name = 'c'
init = 'c'
state = [
  { name = 'a', row = [{ on = 'GO', do = ['say 7'] }] },
  { name = 'b', parent = 'a' },
  { name = 'c', parent = 'b', row = [{ on = 'GO', when = '0', do = ['say 1'] }] },
]
",
        ],
        plan: Plan {
            posts: &[(1, 4), (1, 6)],
            ..PLAIN
        },
        records: &[
            "post 0 1 1 0 0 0 4 0, post 0 1 2 0 0 0 6 0, begin 1, enter 1 1, enter 1 2, enter 1 3, done 1, took 1 2 0 1 0 4 0, run 1 1 1, say 1 7, look 0 1 0, done 1, took 1 2 0 2 0 6 0, none 1, done 1, nil 1 2 0 2",
        ],
        report: "empty leaf 3 taken 2",
    },
    // Guards read variables, parameters, the last answer and the priority. Of two open rows the first is taken.
    Case {
        name: "the first open row is taken",
        system: &[
            ONE_BLOCK,
            SIGNALS,
            "object = [{ name = 'lamp', chart = 'c', priority = 1, queue = 3, defer = 0 }]
[[chart]]
name = 'c'
init = 'inner'
vars = { x = 0 }
state = [
  { name = 'outer', row = [
    { on = 'N', when = 'p1 == me', do = ['say 10'] },
    { on = 'N', when = 'ok && p1 == 43', do = ['say 11'] },
    { on = 'N', do = ['say 12'], to = 'outer' },
  ] },
  { name = 'inner', parent = 'outer', row = [
    { on = 'GO', when = 'x == 1', do = ['say 1', 'x = 2'] },
    { on = 'GO', when = 'x < 2', do = ['say 2', 'x = x + 1'] },
    { on = 'GO', do = ['say 3', 'x = x + 1', 'post me N(40 + x)'] },
  ] },
]
",
        ],
        plan: Plan {
            posts: &[(1, 4), (1, 4), (1, 4)],
            ..PLAIN
        },
        records: &[
            "post 0 1 1 0 0 0 4 0, post 0 1 2 0 0 0 4 0, post 0 1 3 0 0 0 4 0, begin 1, enter 1 1, enter 1 2, done 1, took 1 3 0 1 0 4 0, run 1 2 2, say 1 2, look 0 1 0, look 0 2 0, done 1, took 1 3 0 2 0 4 0, run 1 2 1, say 1 1, look 0 3 0, look 0 4 0, done 1, took 1 3 0 3 0 4 0, run 1 2 3, say 1 3, look 0 5 0, look 0 6 0, new 1 1 0 0 0 5 43, inc 1 1 0 0, post 1 1 4 0 3 1 0 0, look 0 7 0, done 1, took 1 4 0 4 1 0 0, run 1 1 2, say 1 11, look 0 8 0, done 1, dec 1 1 0 1 0, back 1 1 1 0 2, nil 1 4 0 4",
        ],
        report: "empty leaf 2 taken 4 vars 3",
    },
];
