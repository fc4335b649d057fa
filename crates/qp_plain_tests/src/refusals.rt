//! Each action once refused, and once in its assertion.

use crate::step_bench::{Case, PLAIN, see};
use crate::step_systems::pair;
use crate::step_trial::Plan;
use std::alloc::Global;
use std::sync::Wait;
use std::test::Fail;

/// The queue of object 2 is full before object 1 starts.
const PLAN: Plan<'static> = Plan {
    posts: &[(2, 6), (1, 4)],
    ..PLAIN
};

/// The actions of a row, and what they do. Each refusal answers 0 where an answer before it was 1.
const REFUSED: [(&str, &str); 14] = [
    (
        "'subscribe X', 'post peer X margin 0', 'say ok'",
        "sub 1 6 0, look 0 1 0, full 1 2 1 0 0 0, look 0 2 0, say 1 0, look 0 3 0",
    ),
    (
        "'subscribe X', 'post me X margin 1', 'say ok'",
        "sub 1 6 0, look 0 1 0, full 1 1 1 0 1 1, look 0 2 0, say 1 0, look 0 3 0",
    ),
    (
        "'subscribe X', 'post peer N(3) margin 0', 'say ok'",
        "sub 1 6 0, look 0 1 0, new 1 1 0 0 0 5 3, inc 1 1 0 0, full 1 2 1 0 0 0, dec 1 1 0 1 0, back 1 1 1 0 2, look 0 2 0, say 1 0, look 0 3 0",
    ),
    (
        "'subscribe X', 'post me N(3) reserve 1', 'say ok'",
        "sub 1 6 0, look 0 1 0, short 1 1 0 1 1, look 0 2 0, say 1 0, look 0 3 0",
    ),
    (
        "'subscribe X', 'lifo N(3) reserve 1', 'say ok'",
        "sub 1 6 0, look 0 1 0, short 1 1 0 1 1, look 0 2 0, say 1 0, look 0 3 0",
    ),
    (
        "'subscribe X', 'forward peer margin 0', 'say ok'",
        "sub 1 6 0, look 0 1 0, full 1 2 1 0 0 0, look 0 2 0, say 1 0, look 0 3 0",
    ),
    (
        "'subscribe X', 'publish N(3) reserve 1', 'say ok'",
        "sub 1 6 0, look 0 1 0, short 1 1 0 1 1, look 0 2 0, say 1 0, look 0 3 0",
    ),
    (
        "'defer', 'defer', 'say ok'",
        "defer 1 0 4 0, look 0 1 0, nodefer 1, look 0 2 0, say 1 0, look 0 3 0",
    ),
    (
        "'subscribe X', 'recall', 'say ok'",
        "sub 1 6 0, look 0 1 0, norecall 1, look 0 2 0, say 1 0, look 0 3 0",
    ),
    (
        "'subscribe X', 'flush', 'say ok'",
        "sub 1 6 0, look 0 1 0, look 0 2 0, say 1 0, look 0 3 0",
    ),
    (
        "'subscribe X', 'subscribe X', 'say ok'",
        "sub 1 6 0, look 0 1 0, same 1 6 1, look 0 2 0, say 1 0, look 0 3 0",
    ),
    (
        "'subscribe X', 'unsubscribe N', 'say ok'",
        "sub 1 6 0, look 0 1 0, same 1 5 0, look 0 2 0, say 1 0, look 0 3 0",
    ),
    (
        "'subscribe X', 'rearm B(3)', 'say ok'",
        "sub 1 6 0, look 0 1 0, rearm 1 2 0 0 3, look 0 2 0, say 1 0, look 0 3 0",
    ),
    (
        "'subscribe X', 'disarm B', 'say ok'",
        "sub 1 6 0, look 0 1 0, idle 1 2 0, look 0 2 0, say 1 0, look 0 3 0",
    ),
];

/// Sees each action that is refused.
pub(crate) fn see_refused<R: Wait>(rt: &R, alloc: Global) -> Result<(), Fail> {
    for (acts, records) in &REFUSED {
        let case = Case {
            name: acts,
            system: &pair("", acts),
            plan: PLAN,
            records: &[
                "post 0 2 1 0 0 0 6 0, post 0 1 1 0 0 0 4 0, begin 1, enter 1 1, done 1, took 1 1 0 1 0 4 0, run 1 1 1",
                records,
                "done 1, nil 1 1 0 1",
            ],
            report: "empty leaf 1 taken 1",
        };
        see(rt, alloc, &case)?;
    }
    Ok(())
}

/// The actions of a row, the report with the code of their assertion, and what they do. Timer 1 is armed, and timer 2 isn't.
const ASSERTED: [(&str, &str, &str); 21] = [
    (
        "'post peer X', 'say ok'",
        "stopped 1 leaf 1 taken 1",
        "assert 1 1 2 1 0 0",
    ),
    (
        "'post peer N(3)', 'say ok'",
        "stopped 1 leaf 1 taken 1",
        "new 1 1 0 0 0 5 3, inc 1 1 0 0, assert 1 1 2 1 0 0",
    ),
    (
        "'post me N(1)', 'post me N(2)', 'say ok'",
        "stopped 2 leaf 1 taken 1",
        "new 1 1 0 0 0 5 1, inc 1 1 0 0, post 1 1 2 0 1 1 0 0, look 0 1 0, assert 1 2 1 1 0",
    ),
    (
        "'post me N(1)', 'lifo N(2)', 'say ok'",
        "stopped 2 leaf 1 taken 1",
        "new 1 1 0 0 0 5 1, inc 1 1 0 0, post 1 1 2 0 1 1 0 0, look 0 1 0, assert 1 2 1 1 0",
    ),
    (
        "'post me N(1)', 'publish N(2)', 'say ok'",
        "stopped 2 leaf 1 taken 1",
        "new 1 1 0 0 0 5 1, inc 1 1 0 0, post 1 1 2 0 1 1 0 0, look 0 1 0, assert 1 2 1 1 0",
    ),
    (
        "'post me X', 'lifo X', 'say ok'",
        "stopped 5 leaf 1 taken 1",
        "post 1 1 2 0 1 0 6 0, look 0 1 0, assert 1 5 1 2 0 1",
    ),
    (
        "'post me X', 'lifo N(3)', 'say ok'",
        "stopped 5 leaf 1 taken 1",
        "post 1 1 2 0 1 0 6 0, look 0 1 0, new 1 1 0 0 0 5 3, inc 1 1 0 0, assert 1 5 1 2 0 1",
    ),
    (
        "'forward peer', 'say ok'",
        "stopped 1 leaf 1 taken 1",
        "assert 1 1 2 1 0 0",
    ),
    (
        "'defer', 'post me X', 'recall', 'say ok'",
        "stopped 5 leaf 1 taken 1",
        "defer 1 0 4 0, look 0 1 0, post 1 1 2 0 1 0 6 0, look 0 2 0, recall 1 0 4 0, assert 1 5 1 2 0 1",
    ),
    (
        "'subscribe N', 'post me X', 'publish N(3)', 'say ok'",
        "stopped 1 leaf 1 taken 1",
        "sub 1 5 0, look 0 1 0, post 1 1 2 0 1 0 6 0, look 0 2 0, new 1 1 0 0 0 5 3, inc 1 1 0 0, pub 1 5 1 1, lock 1 1, inc 1 1 0 1, assert 1 1 1 2 0 1",
    ),
    (
        "'locked 3 [say 1; post peer X; say ok]', 'say ok'",
        "stopped 1 leaf 1 taken 1",
        "lock 1 3, say 1 1, look 0 1 3, assert 1 1 2 1 0 0",
    ),
    (
        "'arm A(1, 0)', 'say ok'",
        "stopped 3 leaf 1 taken 1",
        "assert 1 3 1 1 5",
    ),
    (
        "'arm B(65535, 65535)', 'arm B(1, 0)'",
        "stopped 3 leaf 1 taken 1",
        "arm 1 2 0 65535 65535, look 0 1 0, assert 1 3 2 1 65535",
    ),
    (
        "'arm A(0, 0)', 'say ok'",
        "stopped 4 leaf 1 taken 1",
        "assert 1 4 1 0 0",
    ),
    (
        "'arm A(65536, 1)', 'say ok'",
        "stopped 4 leaf 1 taken 1",
        "assert 1 4 1 65536 1",
    ),
    (
        "'arm A(1, 65536)', 'say ok'",
        "stopped 4 leaf 1 taken 1",
        "assert 1 4 1 1 65536",
    ),
    (
        "'arm B(0, 7)', 'say ok'",
        "stopped 4 leaf 1 taken 1",
        "assert 1 4 2 0 7",
    ),
    (
        "'arm B(1 - 2, 0)', 'say ok'",
        "stopped 4 leaf 1 taken 1",
        "assert 1 4 2 18446744073709551615 0",
    ),
    (
        "'rearm A(0)', 'say ok'",
        "stopped 4 leaf 1 taken 1",
        "assert 1 4 1 0 0",
    ),
    (
        "'rearm B(65536)', 'say ok'",
        "stopped 4 leaf 1 taken 1",
        "assert 1 4 2 65536 0",
    ),
    (
        "'rearm A(65535)', 'rearm A(0 - 1)'",
        "stopped 4 leaf 1 taken 1",
        "rearm 1 1 1 5 65535, look 0 1 0, assert 1 4 1 18446744073709551615 0",
    ),
];

/// Sees each action that ends in its assertion, which nothing follows. The leaf stays, and the stop word has its code.
pub(crate) fn see_asserted<R: Wait>(rt: &R, alloc: Global) -> Result<(), Fail> {
    for (acts, report, records) in &ASSERTED {
        let case = Case {
            name: acts,
            system: &pair("'arm A(5, 0)'", acts),
            plan: PLAN,
            records: &[
                "post 0 2 1 0 0 0 6 0, post 0 1 1 0 0 0 4 0, begin 1, arm 1 1 0 5 0, enter 1 1, done 1, took 1 1 0 1 0 4 0, run 1 1 1",
                records,
            ],
            report,
        };
        see(rt, alloc, &case)?;
    }
    Ok(())
}

/// An object whose start has ended in an assertion has no leaf.
pub(crate) fn see_start<R: Wait>(rt: &R, alloc: Global) -> Result<(), Fail> {
    let case = Case {
        name: "a start",
        system: &pair("'say 1', 'locked 3 [say 2; post peer X]', 'say 3'", ""),
        plan: PLAN,
        records: &[
            "post 0 2 1 0 0 0 6 0, post 0 1 1 0 0 0 4 0, begin 1, say 1 1, lock 1 3, say 1 2, assert 1 1 2 1 0 0",
        ],
        report: "stopped 1 taken 0",
    };
    see(rt, alloc, &case)
}
