//! Actions of starts and of transitions over six levels.

use crate::samples::{Step, Trial};

/// Two chains of six states, each with an entry and an exit action.
const CHAINS: &str = "qp = 1
signal = [{ name = 'A', static = true }, { name = 'B', static = true }, { name = 'HERE', static = true }]
object = [{ name = 'o', chart = 'c', priority = 1, queue = 1 }]
[[chart]]
name = 'c'
init = 'a1'
init_do = ['say 1', 'locked 2 [say 3; say 4]', 'say 5']
state = [
  { name = 'a1', entry = ['say 11'], exit = ['say 21'], init = 'a3', init_do = ['say 91'] },
  { name = 'a2', parent = 'a1', entry = ['say 12'], exit = ['say 22'] },
  { name = 'a3', parent = 'a2', entry = ['say 13'], exit = ['say 23'], init = 'a6', init_do = ['locked 1 [say 92]'] },
  { name = 'a4', parent = 'a3', entry = ['say 14'], exit = ['say 24'] },
  { name = 'a5', parent = 'a4', entry = ['say 15'], exit = ['say 25'], row = [{ on = 'HERE', do = ['say 7', 'locked 9 [say 8]'] }] },
  { name = 'a6', parent = 'a5', entry = ['say 16', 'say 116'], exit = ['say 26'], row = [{ on = 'B', do = ['locked 3 [say 6]'], to = 'b6' }] },
  { name = 'b1', entry = ['say 31'], exit = ['say 41'], row = [{ on = 'A', do = ['say 2'], to = 'a1' }] },
  { name = 'b2', parent = 'b1', entry = ['say 32'], exit = ['say 42'] },
  { name = 'b3', parent = 'b2', entry = ['say 33'], exit = ['say 43'] },
  { name = 'b4', parent = 'b3', entry = ['say 34'], exit = ['say 44'] },
  { name = 'b5', parent = 'b4', entry = ['say 35'], exit = ['say 45'] },
  { name = 'b6', parent = 'b5', entry = ['say 36'], exit = ['say 46'] },
]
";

const START: &str =
    "begin, say 1, lock 2, say 3, say 4, unlock, say 5, enter 1, say 11, init 1, say 91, enter 2, say 12, enter 3, say 13, init 3, lock 1, say 92, unlock, enter 4, say 14, enter 5, say 15, enter 6, say 16, say 116, done";

const STEPS: &[Step] = &[
    // A transition over six levels, and one back with its initial transitions.
    (
        6,
        5,
        &[],
        0,
        "run 6 1, lock 3, say 6, unlock, exit 6, say 26, exit 5, say 25, exit 4, say 24, exit 3, say 23, exit 2, say 22, exit 1, say 21, enter 7, say 31, enter 8, say 32, enter 9, say 33, enter 10, say 34, enter 11, say 35, enter 12, say 36, done",
        12,
    ),
    (
        12,
        4,
        &[],
        0,
        "run 7 1, say 2, exit 12, say 46, exit 11, say 45, exit 10, say 44, exit 9, say 43, exit 8, say 42, exit 7, say 41, enter 1, say 11, init 1, say 91, enter 2, say 12, enter 3, say 13, init 3, lock 1, say 92, unlock, enter 4, say 14, enter 5, say 15, enter 6, say 16, say 116, done",
        6,
    ),
    // A row without a target leaves the leaf, at whatever state it stands.
    (
        6,
        6,
        &[],
        0,
        "run 5 1, say 7, lock 9, say 8, unlock, done",
        6,
    ),
];

pub(crate) const CHAIN: Trial = Trial {
    file: CHAINS,
    start: (START, 6),
    steps: STEPS,
};
