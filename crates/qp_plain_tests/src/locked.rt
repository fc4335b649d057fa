//! `locked` in each kind of list.

use crate::step_bench::{Case, PLAIN};
use crate::step_systems::{SIGNALS, TWO_BLOCKS};
use crate::step_trial::Plan;

/// In the initial actions of the chart and of a state, in entry and exit actions, and in a row, there around a publication. The
/// ceiling is the larger of the two, and the former one comes back.
pub(crate) const RAISED: Case<'static> = Case {
    name: "each list may raise the ceiling",
    system: &[
        TWO_BLOCKS,
        SIGNALS,
        "object = [{ name = 'lamp', chart = 'c', priority = 1, queue = 2, defer = 0 }]
[[chart]]
name = 'c'
init = 's'
init_do = ['locked 5 [say 1; post me GO; subscribe N; publish N(2)]']
state = [
  { name = 's', entry = ['locked 2 [say 2]'], exit = ['locked 3 [say 3]'], row = [{ on = 'GO', do = ['locked 4 [publish N(7); say ok]'], to = 't' }] },
  { name = 't', entry = ['locked 6 [say 6; say 66]'], init = 'u', init_do = ['locked 7 [say 7]', 'say 8'] },
  { name = 'u', parent = 't', entry = ['locked 32 [recall]'] },
]
",
    ],
    plan: PLAIN,
    records: &[
        "begin 1, lock 1 5, say 1 1, post 1 1 1 0 0 0 4 0, sub 1 5 0, new 1 1 0 0 0 5 2, inc 1 1 0 0, pub 1 5 1 1, lock 1 5, inc 1 1 0 1, post 1 1 2 0 0 1 0 1, unlock 1 5, dec 1 1 0 2 0, unlock 1 0, enter 1 1, lock 1 2, say 1 2, unlock 1 0, done 1, took 1 2 0 1 0 4 0, run 1 1 1, lock 1 4, new 1 1 1 1 0 5 7, inc 1 1 1 0, pub 1 5 1 1, lock 1 4, inc 1 1 1 1, post 1 1 3 0 1 1 1 1, look 0 1 4, unlock 1 4, dec 1 1 1 2 0, look 0 2 4, say 1 1, look 0 3 4, unlock 1 0, look 0 4 0, exit 1 1, lock 1 3, say 1 3, look 0 5 3, unlock 1 0, look 0 6 0, enter 1 2, lock 1 6, say 1 6, look 0 7 6, say 1 66, look 0 8 6, unlock 1 0, look 0 9 0, init 1 2, lock 1 7, say 1 7, look 0 10 7, unlock 1 0, look 0 11 0, say 1 8, look 0 12 0, enter 1 3, lock 1 32, norecall 1, look 0 13 32, unlock 1 0, look 0 14 0, done 1, took 1 3 0 2 1 0 1, none 1, done 1, dec 1 1 0 3 1, back 1 1 2 0 4, took 1 3 0 3 1 1 1, none 1, done 1, dec 1 1 1 3 1, back 1 1 3 1 4, nil 1 3 0 3",
    ],
    report: "empty leaf 3 taken 3",
};
