//! Transitions in every direction of a tree of nine states.

use crate::samples::{Step, Trial};

/// a contains b contains c contains d contains e contains f; a contains g contains h; k stands at the top; b's initial target is e.
const TREE: &str = "qp = 1
signal = [
  { name = 'FF', static = true }, { name = 'CC', static = true }, { name = 'CD', static = true }, { name = 'CF', static = true },
  { name = 'FE', static = true }, { name = 'EB', static = true }, { name = 'BG', static = true }, { name = 'DH', static = true },
  { name = 'FK', static = true }, { name = 'AA', static = true },
]
object = [{ name = 'o', chart = 'tree', priority = 1, queue = 1 }]
[[chart]]
name = 'tree'
init = 'f'
state = [
  { name = 'a', row = [{ on = 'AA', to = 'a' }] },
  { name = 'b', parent = 'a', init = 'e', row = [{ on = 'BG', to = 'g' }] },
  { name = 'c', parent = 'b', row = [{ on = 'CC', to = 'c' }, { on = 'CD', to = 'd' }, { on = 'CF', to = 'f' }] },
  { name = 'd', parent = 'c', row = [{ on = 'DH', to = 'h' }] },
  { name = 'e', parent = 'd', row = [{ on = 'EB', to = 'b' }] },
  { name = 'f', parent = 'e', row = [{ on = 'FF', to = 'f' }, { on = 'FE', to = 'e' }, { on = 'FK', to = 'k' }] },
  { name = 'g', parent = 'a' },
  { name = 'h', parent = 'g' },
  { name = 'k' },
]
";

/// Steps from f in each direction; and leaves and signals that no row on the path is for: signals beyond all of the chart, and states that the
/// chart hasn't got.
const STEPS: &[Step] = &[
    (6, 4, &[], 0, "run 6 1, exit 6, enter 6, done", 6),
    (
        6,
        5,
        &[],
        0,
        "run 3 1, exit 6, exit 5, exit 4, exit 3, enter 3, done",
        3,
    ),
    (
        6,
        6,
        &[],
        0,
        "run 3 2, exit 6, exit 5, exit 4, enter 4, done",
        4,
    ),
    (
        6,
        7,
        &[],
        0,
        "run 3 3, exit 6, exit 5, exit 4, enter 4, enter 5, enter 6, done",
        6,
    ),
    (6, 8, &[], 0, "run 6 2, exit 6, done", 5),
    (
        6,
        9,
        &[],
        0,
        "run 5 1, exit 6, exit 5, exit 4, exit 3, init 2, enter 3, enter 4, enter 5, done",
        5,
    ),
    (
        6,
        10,
        &[],
        0,
        "run 2 1, exit 6, exit 5, exit 4, exit 3, exit 2, enter 7, done",
        7,
    ),
    (
        6,
        11,
        &[],
        0,
        "run 4 1, exit 6, exit 5, exit 4, exit 3, exit 2, enter 7, enter 8, done",
        8,
    ),
    (
        6,
        12,
        &[],
        0,
        "run 6 3, exit 6, exit 5, exit 4, exit 3, exit 2, exit 1, enter 9, done",
        9,
    ),
    (
        6,
        13,
        &[],
        0,
        "run 1 1, exit 6, exit 5, exit 4, exit 3, exit 2, exit 1, enter 1, done",
        1,
    ),
    (9, 4, &[], 0, "none, done", 9),
    (7, 10, &[], 0, "none, done", 7),
    (6, 0, &[], 0, "none, done", 6),
    (6, 14, &[], 0, "none, done", 6),
    (6, 18, &[], 0, "none, done", 6),
    (6, 65535, &[], 0, "none, done", 6),
    (10, 4, &[], 0, "none, done", 10),
    (255, 4, &[], 0, "none, done", 255),
];

pub(crate) const DIRECTIONS: Trial = Trial {
    file: TREE,
    start: (
        "begin, enter 1, enter 2, enter 3, enter 4, enter 5, enter 6, done",
        6,
    ),
    steps: STEPS,
};
