//! Guards, and which state is asked first.

use crate::samples::{Step, Trial};

const GUARDED: &str = "qp = 1
signal = [{ name = 'A', static = true }, { name = 'B', static = true }]
object = [{ name = 'o', chart = 'c', priority = 1, queue = 1, vars = { x = 0 } }]
[[chart]]
name = 'c'
init = 'inner'
vars = { x = 0 }
state = [
  { name = 'outer', row = [{ on = 'B', do = ['say 8'] }, { on = 'A', when = 'x < 9', do = ['say 9'] }] },
  { name = 'inner', parent = 'outer', row = [
    { on = 'A', when = '0', do = ['say 1'] },
    { on = 'B', when = 'ok == 5', do = ['say 2'] },
    { on = 'A', when = 'x == 1 || x == 2', do = ['say 3'] },
    { on = 'A', when = 'x == 2', do = ['say 4'], to = 'outer' },
    { on = 'A', when = 'x == 3', do = ['say 5'], to = 'outer' },
  ] },
]
";

/// The first open row of the innermost state handles.
const STEPS: &[Step] = &[
    (2, 4, &[1], 0, "run 2 3, say 3, done", 2),
    (2, 4, &[2], 0, "run 2 3, say 3, done", 2),
    (2, 4, &[3], 0, "run 2 5, say 5, exit 2, done", 1),
    (2, 4, &[4], 0, "run 1 2, say 9, done", 2),
    (2, 4, &[9], 0, "none, done", 2),
    (2, 5, &[0], 5, "run 2 2, say 2, done", 2),
    (2, 5, &[0], 4, "run 1 1, say 8, done", 2),
    (1, 5, &[1], 5, "run 1 1, say 8, done", 1),
    (1, 4, &[1], 0, "run 1 2, say 9, done", 1),
];

pub(crate) const ROWS: Trial = Trial {
    file: GUARDED,
    start: ("begin, enter 1, enter 2, done", 2),
    steps: STEPS,
};
