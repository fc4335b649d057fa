//! What actions answer, and what expressions see of it.

use crate::step_bench::{Case, PLAIN};
use crate::step_systems::{ONE_BLOCK, SIGNALS, TWO_BLOCKS};
use crate::step_trial::Plan;

pub(crate) const CASES: &[Case<'static>] = &[
    // `ok` is 0 at first. Calls set it, `say` and assignments leave it, and it stays from step to step.
    Case {
        name: "the last answer goes through steps",
        system: &[
            TWO_BLOCKS,
            SIGNALS,
            "object = [{ name = 'lamp', chart = 'c', priority = 1, queue = 2, defer = 1 }]
[[chart]]
name = 'c'
init = 's'
vars = { x = 7 }
state = [{ name = 's', row = [
  { on = 'GO', when = 'x == 7', do = [
    'say ok', 'post me X', 'say ok', 'x = 9', 'say ok + x', 'post me X margin 255', 'say ok', 'defer', 'say ok', 'defer', 'say ok',
    'locked 2 [recall; say ok]', 'flush', 'say ok - 1', 'subscribe N', 'x = ok * 3',
  ] },
  { on = 'GO', when = 'ok == 1', do = ['say 60'] },
  { on = 'X', when = 'ok', do = ['say 61'] },
] }]
",
        ],
        plan: Plan {
            posts: &[(1, 4)],
            ..PLAIN
        },
        records: &[
            "post 0 1 1 0 0 0 4 0, begin 1, enter 1 1, done 1, took 1 1 0 1 0 4 0, run 1 1 1, say 1 0, look 0 1 0, post 1 1 2 0 1 0 6 0, look 0 2 0, say 1 1, look 0 3 0, look 0 4 0, say 1 10, look 0 5 0, full 1 1 2 0 1 255, look 0 6 0, say 1 0, look 0 7 0, defer 1 0 4 0, look 0 8 0, say 1 1, look 0 9 0, nodefer 1, look 0 10 0, say 1 0, look 0 11 0, lock 1 2, recall 1 0 4 0, lifo 1 2 1 1 0 4 0, look 0 12 2, say 1 1, look 0 13 2, unlock 1 0, look 0 14 0, look 0 15 0, say 1 18446744073709551615, look 0 16 0, sub 1 5 0, look 0 17 0, look 0 18 0, done 1, took 1 2 1 2 0 4 0, run 1 1 2, say 1 60, look 0 19 0, done 1, took 1 2 1 3 0 6 0, run 1 1 3, say 1 61, look 0 20 0, done 1, nil 1 2 1 3",
        ],
        report: "empty leaf 1 taken 3 vars 3",
    },
    // Each call that is granted answers 1, and a flush how many it dropped. Before each of them stands one that answers 0.
    Case {
        name: "what is granted answers 1",
        system: &[
            ONE_BLOCK,
            SIGNALS,
            "object = [{ name = 'lamp', chart = 'c', priority = 1, queue = 0, defer = 2 }]
[[chart]]
name = 'c'
init = 's'
timer = [{ name = 'A', signal = 'TA', rate = 0 }, { name = 'B', signal = 'TB', rate = 0 }]
state = [{ name = 's', row = [
  { on = 'GO', do = [
    'arm A(5, 1)', 'say ok', 'disarm B', 'rearm A(3)', 'say ok', 'disarm B', 'disarm A', 'say ok', 'defer', 'defer', 'flush', 'say ok',
    'unsubscribe X', 'lifo X', 'say ok',
  ] },
  { on = 'X', when = 'ok == 1', do = [
    'subscribe X', 'unsubscribe N', 'unsubscribe X', 'say ok', 'unsubscribe N', 'forward me', 'say ok', 'unsubscribe N', 'publish N(8)', 'say ok',
    'disarm B',
  ] },
] }]
",
        ],
        plan: Plan {
            posts: &[(1, 4)],
            ..PLAIN
        },
        records: &[
            "post 0 1 1 0 0 0 4 0, begin 1, enter 1 1, done 1, took 1 1 0 1 0 4 0, run 1 1 1, arm 1 1 0 5 1, look 0 1 0, say 1 1, look 0 2 0, idle 1 2 0, look 0 3 0, rearm 1 1 1 5 3, look 0 4 0, say 1 1, look 0 5 0, idle 1 2 0, look 0 6 0, disarm 1 1 2 3, look 0 7 0, say 1 1, look 0 8 0, defer 1 0 4 0, look 0 9 0, defer 1 0 4 0, look 0 10 0, flush 1 0 4 0, flush 1 0 4 0, look 0 11 0, say 1 2, look 0 12 0, same 1 6 0, look 0 13 0, lifo 1 1 1 1 0 6 0, look 0 14 0, say 1 1, look 0 15 0, done 1, took 1 1 1 2 0 6 0, run 1 1 2, sub 1 6 0, look 0 16 0, same 1 5 0, look 0 17 0, unsub 1 6 1, look 0 18 0, say 1 1, look 0 19 0, same 1 5 0, look 0 20 0, post 1 1 2 1 2 0 6 0, look 0 21 0, say 1 1, look 0 22 0, same 1 5 0, look 0 23 0, new 1 1 0 0 0 5 8, inc 1 1 0 0, pub 1 5 0 0, dec 1 1 0 1 0, back 1 1 1 0 2, look 0 24 0, say 1 1, look 0 25 0, idle 1 2 0, look 0 26 0, done 1, took 1 2 1 3 0 6 0, none 1, done 1, nil 1 2 1 3",
        ],
        report: "empty leaf 1 taken 3",
    },
    // A parameter is the 64 bits of its value; the block is read once, before the first action.
    Case {
        name: "an event carries eight parameters",
        system: &[
            "qp = 1
pool = [{ size = 8, blocks = 1 }]
signal = [{ name = 'M', params = 8 }]
object = [{ name = 'o', chart = 'c', priority = 9, queue = 0, vars = { x = 5 } }]
[[chart]]
name = 'c'
init = 's'
vars = { x = 0, y = 4 }
init_do = ['lifo M(1, 0 - 2, me, ok, x, 9223372036854775807, y / 0, 3)']
state = [{ name = 's', row = [{ on = 'M', do = ['say p1', 'say p2', 'say p3', 'say p4', 'say p5', 'x = p6 + p8', 'say p7', 'y = p8 - p2'] }] }]
",
        ],
        plan: Plan { me: 9, ..PLAIN },
        records: &[
            "begin 9, new 9 1 0 0 0 4 1 18446744073709551614 9 0 5 9223372036854775807 0 3, inc 9 1 0 0, lifo 9 0 1 0 1 0 0, enter 9 1, done 9, took 9 0 1 1 1 0 0, run 9 1 1, say 9 1, look 0 1 0, say 9 18446744073709551614, look 0 2 0, say 9 9, look 0 3 0, say 9 0, look 0 4 0, say 9 5, look 0 5 0, look 0 6 0, say 9 0, look 0 7 0, look 0 8 0, done 9, dec 9 1 0 1 0, back 9 1 1 0 2, nil 9 0 1 1",
        ],
        report: "empty leaf 1 taken 1 vars -9223372036854775806 5",
    },
    // Deferred events of a pool come back first, or are dropped.
    Case {
        name: "deferred events come back with references of their own",
        system: &[
            TWO_BLOCKS,
            SIGNALS,
            "object = [{ name = 'lamp', chart = 'c', priority = 1, queue = 3, defer = 2 }]
[[chart]]
name = 'c'
init = 's'
vars = { n = 0 }
init_do = ['post me N(1)', 'post me N(2)', 'post me GO']
state = [{ name = 's', row = [
  { on = 'N', when = 'n < 2', do = ['defer', 'n = n + 1'] },
  { on = 'GO', do = ['recall', 'flush', 'say ok'] },
] }]
",
        ],
        plan: PLAIN,
        records: &[
            "begin 1, new 1 1 0 0 0 5 1, inc 1 1 0 0, post 1 1 1 0 0 1 0 0, new 1 1 1 1 0 5 2, inc 1 1 1 0, post 1 1 2 0 0 1 1 0, post 1 1 3 0 0 0 4 0, enter 1 1, done 1, took 1 3 0 1 1 0 0, run 1 1 1, inc 1 1 0 1, defer 1 1 0 1, look 0 1 0, look 0 2 0, done 1, dec 1 1 0 2 0, took 1 3 0 2 1 1 0, run 1 1 1, inc 1 1 1 1, defer 1 1 1 1, look 0 3 0, look 0 4 0, done 1, dec 1 1 1 2 0, took 1 3 0 3 0 4 0, run 1 1 2, recall 1 1 0 1, inc 1 1 0 3, lifo 1 3 1 3 1 0 3, dec 1 1 0 4 1, look 0 5 0, flush 1 1 1 1, dec 1 1 1 3 1, back 1 1 2 1 4, look 0 6 0, say 1 1, look 0 7 0, done 1, took 1 3 1 4 1 0 3, none 1, done 1, dec 1 1 0 5 3, back 1 1 3 0 6, nil 1 3 1 4",
        ],
        report: "empty leaf 1 taken 4 vars 2",
    },
];
