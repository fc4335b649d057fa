//! Transitions: in every direction of a tree of nine states, and over six levels with actions at each.

use crate::step_bench::{Case, PLAIN};
use crate::step_trial::Plan;

/// a contains b contains c contains d contains e contains f; a contains g contains h; k stands at the top; b's initial target is e.
const TREE: &str = "qp = 1
signal = [
  { name = 'FF', static = true }, { name = 'CC', static = true }, { name = 'CD', static = true }, { name = 'CF', static = true },
  { name = 'FE', static = true }, { name = 'EB', static = true }, { name = 'BG', static = true }, { name = 'DH', static = true },
  { name = 'FK', static = true }, { name = 'AA', static = true },
]
object = [{ name = 'o', chart = 'tree', priority = 1, queue = 1 }]
[[chart]]
name = 'tree'
init = 'f'
state = [
  { name = 'a', row = [{ on = 'AA', to = 'a' }] },
  { name = 'b', parent = 'a', init = 'e', row = [{ on = 'BG', to = 'g' }] },
  { name = 'c', parent = 'b', row = [{ on = 'CC', to = 'c' }, { on = 'CD', to = 'd' }, { on = 'CF', to = 'f' }] },
  { name = 'd', parent = 'c', row = [{ on = 'DH', to = 'h' }] },
  { name = 'e', parent = 'd', row = [{ on = 'EB', to = 'b' }] },
  { name = 'f', parent = 'e', row = [{ on = 'FF', to = 'f' }, { on = 'FE', to = 'e' }, { on = 'FK', to = 'k' }] },
  { name = 'g', parent = 'a' },
  { name = 'h', parent = 'g' },
  { name = 'k' },
]
";

/// The start, whose leaf is f.
const IN_F: &str =
    "begin 1, enter 1 1, enter 1 2, enter 1 3, enter 1 4, enter 1 5, enter 1 6, done 1";

pub(crate) const STEPS: &[Case<'static>] = &[
    Case {
        name: "FF",
        system: &[TREE],
        plan: Plan {
            posts: &[(1, 4)],
            ..PLAIN
        },
        records: &[
            "post 0 1 1 0 0 0 4 0",
            IN_F,
            "took 1 1 0 1 0 4 0, run 1 6 1, exit 1 6, enter 1 6, done 1, nil 1 1 0 1",
        ],
        report: "empty leaf 6 taken 1",
    },
    Case {
        name: "CC",
        system: &[TREE],
        plan: Plan {
            posts: &[(1, 5)],
            ..PLAIN
        },
        records: &[
            "post 0 1 1 0 0 0 5 0",
            IN_F,
            "took 1 1 0 1 0 5 0, run 1 3 1, exit 1 6, exit 1 5, exit 1 4, exit 1 3, enter 1 3, done 1, nil 1 1 0 1",
        ],
        report: "empty leaf 3 taken 1",
    },
    Case {
        name: "CD",
        system: &[TREE],
        plan: Plan {
            posts: &[(1, 6)],
            ..PLAIN
        },
        records: &[
            "post 0 1 1 0 0 0 6 0",
            IN_F,
            "took 1 1 0 1 0 6 0, run 1 3 2, exit 1 6, exit 1 5, exit 1 4, enter 1 4, done 1, nil 1 1 0 1",
        ],
        report: "empty leaf 4 taken 1",
    },
    Case {
        name: "CF",
        system: &[TREE],
        plan: Plan {
            posts: &[(1, 7)],
            ..PLAIN
        },
        records: &[
            "post 0 1 1 0 0 0 7 0",
            IN_F,
            "took 1 1 0 1 0 7 0, run 1 3 3, exit 1 6, exit 1 5, exit 1 4, enter 1 4, enter 1 5, enter 1 6, done 1, nil 1 1 0 1",
        ],
        report: "empty leaf 6 taken 1",
    },
    Case {
        name: "FE",
        system: &[TREE],
        plan: Plan {
            posts: &[(1, 8)],
            ..PLAIN
        },
        records: &[
            "post 0 1 1 0 0 0 8 0",
            IN_F,
            "took 1 1 0 1 0 8 0, run 1 6 2, exit 1 6, done 1, nil 1 1 0 1",
        ],
        report: "empty leaf 5 taken 1",
    },
    Case {
        name: "EB",
        system: &[TREE],
        plan: Plan {
            posts: &[(1, 9)],
            ..PLAIN
        },
        records: &[
            "post 0 1 1 0 0 0 9 0",
            IN_F,
            "took 1 1 0 1 0 9 0, run 1 5 1, exit 1 6, exit 1 5, exit 1 4, exit 1 3, init 1 2, enter 1 3, enter 1 4, enter 1 5, done 1, nil 1 1 0 1",
        ],
        report: "empty leaf 5 taken 1",
    },
    Case {
        name: "BG",
        system: &[TREE],
        plan: Plan {
            posts: &[(1, 10)],
            ..PLAIN
        },
        records: &[
            "post 0 1 1 0 0 0 10 0",
            IN_F,
            "took 1 1 0 1 0 10 0, run 1 2 1, exit 1 6, exit 1 5, exit 1 4, exit 1 3, exit 1 2, enter 1 7, done 1, nil 1 1 0 1",
        ],
        report: "empty leaf 7 taken 1",
    },
    Case {
        name: "DH",
        system: &[TREE],
        plan: Plan {
            posts: &[(1, 11)],
            ..PLAIN
        },
        records: &[
            "post 0 1 1 0 0 0 11 0",
            IN_F,
            "took 1 1 0 1 0 11 0, run 1 4 1, exit 1 6, exit 1 5, exit 1 4, exit 1 3, exit 1 2, enter 1 7, enter 1 8, done 1, nil 1 1 0 1",
        ],
        report: "empty leaf 8 taken 1",
    },
    Case {
        name: "FK",
        system: &[TREE],
        plan: Plan {
            posts: &[(1, 12)],
            ..PLAIN
        },
        records: &[
            "post 0 1 1 0 0 0 12 0",
            IN_F,
            "took 1 1 0 1 0 12 0, run 1 6 3, exit 1 6, exit 1 5, exit 1 4, exit 1 3, exit 1 2, exit 1 1, enter 1 9, done 1, nil 1 1 0 1",
        ],
        report: "empty leaf 9 taken 1",
    },
    Case {
        name: "AA",
        system: &[TREE],
        plan: Plan {
            posts: &[(1, 13)],
            ..PLAIN
        },
        records: &[
            "post 0 1 1 0 0 0 13 0",
            IN_F,
            "took 1 1 0 1 0 13 0, run 1 1 1, exit 1 6, exit 1 5, exit 1 4, exit 1 3, exit 1 2, exit 1 1, enter 1 1, done 1, nil 1 1 0 1",
        ],
        report: "empty leaf 1 taken 1",
    },
];

/// Two chains of six states, each with an entry and an exit action.
const CHAINS: &str = "qp = 1
signal = [{ name = 'BACK', static = true }, { name = 'OVER', static = true }]
object = [{ name = 'o', chart = 'c', priority = 1, queue = 1 }]
[[chart]]
name = 'c'
init = 'a1'
init_do = ['say 1', 'locked 2 [say 3; say 4]', 'say 5']
state = [
  { name = 'a1', entry = ['say 11'], exit = ['say 21'], init = 'a3', init_do = ['say 91'] },
  { name = 'a2', parent = 'a1', entry = ['say 12'], exit = ['say 22'] },
  { name = 'a3', parent = 'a2', entry = ['say 13'], exit = ['say 23'], init = 'a6', init_do = ['locked 1 [say 92]'] },
  { name = 'a4', parent = 'a3', entry = ['say 14'], exit = ['say 24'] },
  { name = 'a5', parent = 'a4', entry = ['say 15'], exit = ['say 25'] },
  { name = 'a6', parent = 'a5', entry = ['say 16', 'say 116'], exit = ['say 26'], row = [{ on = 'OVER', do = ['locked 3 [say 6]'], to = 'b6' }] },
  { name = 'b1', entry = ['say 31'], exit = ['say 41'], row = [{ on = 'BACK', do = ['say 2'], to = 'a1' }] },
  { name = 'b2', parent = 'b1', entry = ['say 32'], exit = ['say 42'] },
  { name = 'b3', parent = 'b2', entry = ['say 33'], exit = ['say 43'] },
  { name = 'b4', parent = 'b3', entry = ['say 34'], exit = ['say 44'] },
  { name = 'b5', parent = 'b4', entry = ['say 35'], exit = ['say 45'] },
  { name = 'b6', parent = 'b5', entry = ['say 36'], exit = ['say 46'] },
]
";

/// What comes up to each scheduling point of the two steps. The start has none.
const RECORDS: [&str; 33] = [
    "post 0 1 1 0 0 0 5 0, post 0 1 2 0 0 0 4 0, begin 1, say 1 1, lock 1 2, say 1 3, say 1 4, unlock 1 0, say 1 5, enter 1 1, say 1 11, init 1 1, say 1 91, enter 1 2, say 1 12, enter 1 3, say 1 13, init 1 3, lock 1 1, say 1 92, unlock 1 0, enter 1 4, say 1 14, enter 1 5, say 1 15, enter 1 6, say 1 16, say 1 116, done 1",
    "took 1 2 0 1 0 5 0, run 1 6 1, lock 1 3, say 1 6, look 0 1 3",
    "unlock 1 0, look 0 2 0",
    "exit 1 6, say 1 26, look 0 3 0",
    "exit 1 5, say 1 25, look 0 4 0",
    "exit 1 4, say 1 24, look 0 5 0",
    "exit 1 3, say 1 23, look 0 6 0",
    "exit 1 2, say 1 22, look 0 7 0",
    "exit 1 1, say 1 21, look 0 8 0",
    "enter 1 7, say 1 31, look 0 9 0",
    "enter 1 8, say 1 32, look 0 10 0",
    "enter 1 9, say 1 33, look 0 11 0",
    "enter 1 10, say 1 34, look 0 12 0",
    "enter 1 11, say 1 35, look 0 13 0",
    "enter 1 12, say 1 36, look 0 14 0",
    "done 1, took 1 2 0 2 0 4 0, run 1 7 1, say 1 2, look 0 15 0",
    "exit 1 12, say 1 46, look 0 16 0",
    "exit 1 11, say 1 45, look 0 17 0",
    "exit 1 10, say 1 44, look 0 18 0",
    "exit 1 9, say 1 43, look 0 19 0",
    "exit 1 8, say 1 42, look 0 20 0",
    "exit 1 7, say 1 41, look 0 21 0",
    "enter 1 1, say 1 11, look 0 22 0",
    "init 1 1, say 1 91, look 0 23 0",
    "enter 1 2, say 1 12, look 0 24 0",
    "enter 1 3, say 1 13, look 0 25 0",
    "init 1 3, lock 1 1, say 1 92, look 0 26 1",
    "unlock 1 0, look 0 27 0",
    "enter 1 4, say 1 14, look 0 28 0",
    "enter 1 5, say 1 15, look 0 29 0",
    "enter 1 6, say 1 16, look 0 30 0",
    "say 1 116, look 0 31 0",
    "done 1, nil 1 2 0 2",
];

/// The two steps whole.
pub(crate) const THERE_AND_BACK: Case<'static> = Case {
    name: "two steps",
    system: &[CHAINS],
    plan: Plan {
        posts: &[(1, 5), (1, 4)],
        ..PLAIN
    },
    records: &RECORDS,
    report: "empty leaf 6 taken 2",
};
