//! Worked examples: the records of whole runs, act by act, in one lane and in two.

use crate::acts::{GO_POST, Kind, N, Run, X, X_POST};
use crate::bench::see_all;
use crate::deeds::Deed;
use crate::desk::Act;
use crate::limits::{LIMITS, defers};
use std::test::Fail;

const N_POST: Deed = Deed::Post(1, N, &[1], None, None);

const RESERVED: [Deed; 3] = [N_POST, Deed::Post(1, N, &[2], None, Some(0)), Deed::SayOk];

const ARMS: [Deed; 2] = [Deed::Arm(1, 2, 0), Deed::Arm(2, 2, 2)];

const TICKED: &str = "fire 0 1 2 0, post 0 1 1 0 0 0 7 0, fire 0 2 2 2, post 0 1 2 0 0 0 8 0";

const WITHIN: Deed = Deed::Forward(1, Some(0));

const X_PUBLISH: Deed = Deed::Publish(X, &[], None);

const RUNS: [Run<'static>; 16] = [
    Run {
        name: "a post that finds no entry free beyond its margin is dropped",
        system: Kind::One(1, 2),
        defer: 0,
        acts: &[
            Act::Source(&[GO_POST], "post 0 1 1 0 0 0 4 0"),
            Act::Step(
                1,
                &[
                    Deed::Post(1, N, &[5], Some(1), None),
                    Deed::Post(1, N, &[6], Some(1), None),
                    Deed::SayOk,
                ],
                "took 1 1 0 1 0 4 0, new 1 1 0 0 0 5 5, inc 1 1 0 0, post 1 1 2 0 1 1 0 0, new 1 1 1 1 0 5 6, inc 1 1 1 0, full 1 1 2 0 1 1, dec 1 1 1 1 0, back 1 1 2 1 2, say 1 0, done 1",
            ),
            Act::Step(
                1,
                &[],
                "took 1 2 0 2 1 0 0, done 1, dec 1 1 0 1 0, back 1 1 3 0 2",
            ),
        ],
    },
    Run {
        name: "a block is recycled and a reserve kept",
        system: Kind::One(3, 1),
        defer: 0,
        acts: &[
            Act::Source(&[GO_POST], "post 0 1 1 0 0 0 4 0"),
            Act::Step(
                1,
                &RESERVED,
                "took 1 1 0 1 0 4 0, new 1 1 0 0 0 5 1, inc 1 1 0 0, post 1 1 2 0 1 1 0 0, short 1 1 1 0 0, say 1 0, done 1",
            ),
            Act::Step(
                1,
                &[],
                "took 1 2 0 2 1 0 0, done 1, dec 1 1 0 1 0, back 1 1 1 0 2",
            ),
            Act::Source(&[GO_POST], "post 0 1 3 0 2 0 4 0"),
            Act::Step(
                1,
                &RESERVED,
                "took 1 3 0 3 0 4 0, new 1 1 2 0 2 5 1, inc 1 1 0 2, post 1 1 4 0 3 1 0 2, short 1 1 3 0 0, say 1 0, done 1",
            ),
            Act::Step(
                1,
                &[],
                "took 1 4 0 4 1 0 2, done 1, dec 1 1 0 3 2, back 1 1 3 0 4",
            ),
        ],
    },
    Run {
        name: "a pool without a free block is assertion 2",
        system: Kind::One(3, 1),
        defer: 0,
        acts: &[
            Act::Source(&[GO_POST], "post 0 1 1 0 0 0 4 0"),
            Act::Step(
                1,
                &[N_POST, Deed::Post(1, N, &[2], None, None), Deed::SayOk],
                "took 1 1 0 1 0 4 0, new 1 1 0 0 0 5 1, inc 1 1 0 0, post 1 1 2 0 1 1 0 0, assert 1 2 1 1 0",
            ),
        ],
    },
    Run {
        name: "an event without subscribers is recycled",
        system: Kind::One(1, 2),
        defer: 0,
        acts: &[Act::Source(
            &[Deed::Publish(N, &[9], None)],
            "new 0 1 0 0 0 5 9, inc 0 1 0 0, pub 0 5 0 0, dec 0 1 0 1 0, back 0 1 1 0 2",
        )],
    },
    Run {
        name: "a source publishes to one",
        system: Kind::One(1, 2),
        defer: 0,
        acts: &[
            Act::Owner(
                1,
                &[Deed::Subscribe(N), Deed::Subscribe(N)],
                "sub 1 5 0, same 1 5 1",
            ),
            Act::Source(
                &[Deed::Publish(N, &[4], None)],
                "new 0 1 0 0 0 5 4, inc 0 1 0 0, pub 0 5 1 1, inc 0 1 0 1, post 0 1 1 0 0 1 0 1, dec 0 1 0 2 0",
            ),
            Act::Step(
                1,
                &[Deed::SayFirst],
                "took 1 1 0 1 1 0 1, say 1 4, done 1, dec 1 1 0 3 1, back 1 1 1 0 4",
            ),
        ],
    },
    // The ceiling is raised to the highest subscriber for the posts, and restored.
    Run {
        name: "a handler publishes to itself",
        system: Kind::One(1, 2),
        defer: 0,
        acts: &[
            Act::Owner(1, &[Deed::Subscribe(N)], "sub 1 5 0"),
            Act::Source(&[GO_POST], "post 0 1 1 0 0 0 4 0"),
            Act::Step(
                1,
                &[Deed::Announce(N, &[4], None)],
                "took 1 1 0 1 0 4 0, lock 1 1, unlock 1 0, new 1 1 0 0 0 5 4, inc 1 1 0 0, pub 1 5 1 1, lock 1 1, inc 1 1 0 1, post 1 1 2 0 1 1 0 1, unlock 1 0, dec 1 1 0 2 0, done 1",
            ),
            Act::Step(
                1,
                &[Deed::SayFirst],
                "took 1 2 0 2 1 0 1, say 1 4, done 1, dec 1 1 0 3 1, back 1 1 1 0 4",
            ),
            Act::Owner(1, &[Deed::Unsubscribe(N)], "unsub 1 5 1"),
            Act::Owner(
                1,
                &[Deed::Announce(N, &[4], None)],
                "lock 1 1, unlock 1 0, new 1 1 2 0 4 5 4, inc 1 1 0 4, pub 1 5 2 0, dec 1 1 0 5 4, back 1 1 3 0 6",
            ),
        ],
    },
    Run {
        name: "an event is published from the highest down and forwarded",
        system: Kind::Many(3),
        defer: 0,
        acts: &[
            Act::Owner(1, &[Deed::Subscribe(N)], "sub 1 5 0"),
            Act::Owner(2, &[Deed::Subscribe(N)], "sub 2 5 1"),
            Act::Owner(3, &[Deed::Subscribe(N)], "sub 3 5 2"),
            Act::Source(
                &[Deed::Publish(N, &[7], None)],
                "new 0 1 0 0 0 5 7, inc 0 1 0 0, pub 0 5 3 7, inc 0 1 0 1, post 0 3 1 0 0 1 0 1, inc 0 1 0 2, post 0 2 1 0 0 1 0 2, inc 0 1 0 3, post 0 1 1 0 0 1 0 3, dec 0 1 0 4 0",
            ),
            Act::Step(
                3,
                &[Deed::Forward(3, None)],
                "took 3 1 0 1 1 0 1, inc 3 1 0 5, post 3 3 2 0 1 1 0 5, done 3, dec 3 1 0 6 1",
            ),
            Act::Step(3, &[], "took 3 2 0 2 1 0 5, done 3, dec 3 1 0 7 5"),
            Act::Step(2, &[], "took 2 1 0 1 1 0 2, done 2, dec 2 1 0 8 2"),
            Act::Step(
                1,
                &[],
                "took 1 1 0 1 1 0 3, done 1, dec 1 1 0 9 3, back 1 1 1 0 10",
            ),
        ],
    },
    Run {
        name: "a deferred entry comes back first",
        system: Kind::One(3, 2),
        defer: 2,
        acts: &[
            Act::Source(
                &[N_POST],
                "new 0 1 0 0 0 5 1, inc 0 1 0 0, post 0 1 1 0 0 1 0 0",
            ),
            Act::Step(
                1,
                &[Deed::Defer],
                "took 1 1 0 1 1 0 0, inc 1 1 0 1, defer 1 1 0 1, done 1, dec 1 1 0 2 0",
            ),
            Act::Source(
                &[Deed::Post(1, N, &[2], None, None)],
                "new 0 1 1 1 0 5 2, inc 0 1 1 0, post 0 1 2 0 1 1 1 0",
            ),
            Act::Step(
                1,
                &[Deed::Defer],
                "took 1 2 0 2 1 1 0, inc 1 1 1 1, defer 1 1 1 1, done 1, dec 1 1 1 2 0",
            ),
            Act::Source(&[GO_POST], "post 0 1 3 0 2 0 4 0"),
            Act::Step(
                1,
                &[Deed::Recall, Deed::Flush, Deed::SayOk],
                "took 1 3 0 3 0 4 0, recall 1 1 0 1, inc 1 1 0 3, lifo 1 3 1 3 1 0 3, dec 1 1 0 4 1, flush 1 1 1 1, dec 1 1 1 3 1, back 1 1 2 1 4, say 1 1, done 1",
            ),
            Act::Step(
                1,
                &[],
                "took 1 3 1 4 1 0 3, done 1, dec 1 1 0 5 3, back 1 1 3 0 6",
            ),
        ],
    },
    Run {
        name: "a recall to a full queue is assertion 5",
        system: Kind::One(0, 2),
        defer: 1,
        acts: &[
            Act::Source(
                &[N_POST],
                "new 0 1 0 0 0 5 1, inc 0 1 0 0, post 0 1 1 0 0 1 0 0",
            ),
            Act::Step(
                1,
                &[Deed::Defer],
                "took 1 1 0 1 1 0 0, inc 1 1 0 1, defer 1 1 0 1, done 1, dec 1 1 0 2 0",
            ),
            Act::Source(&[GO_POST], "post 0 1 2 0 1 0 4 0"),
            Act::Step(
                1,
                &[X_POST, Deed::Recall],
                "took 1 2 0 2 0 4 0, post 1 1 3 0 2 0 6 0, recall 1 1 0 1, inc 1 1 0 3, assert 1 5 1 3 0 2",
            ),
        ],
    },
    Run {
        name: "an armed time event is assertion 3",
        system: Kind::One(3, 2),
        defer: 0,
        acts: &[
            Act::Owner(1, &ARMS, "arm 1 1 0 2 0, arm 1 2 0 2 2"),
            Act::Source(&[Deed::Tick(0)], "tick 0 1 1 1, tick 0 2 1 1"),
            Act::Source(&[Deed::Tick(0)], TICKED),
            Act::Step(1, &[], "took 1 2 0 1 0 7 0, done 1"),
            Act::Step(1, &[], "took 1 2 0 2 0 8 0, done 1"),
            Act::Source(&[GO_POST], "post 0 1 3 0 2 0 4 0"),
            Act::Step(
                1,
                &[Deed::Disarm(1), Deed::SayOk, Deed::Arm(2, 1, 0)],
                "took 1 3 0 3 0 4 0, idle 1 1 3, say 1 0, assert 1 3 2 3 2",
            ),
        ],
    },
    Run {
        name: "a time event with bad ticks is assertion 4",
        system: Kind::One(3, 2),
        defer: 0,
        acts: &[
            Act::Owner(1, &ARMS, "arm 1 1 0 2 0, arm 1 2 0 2 2"),
            Act::Source(&[Deed::Tick(0)], "tick 0 1 1 1, tick 0 2 1 1"),
            Act::Source(&[Deed::Tick(0)], TICKED),
            Act::Step(1, &[], "took 1 2 0 1 0 7 0, done 1"),
            Act::Step(1, &[], "took 1 2 0 2 0 8 0, done 1"),
            Act::Source(&[GO_POST], "post 0 1 3 0 2 0 4 0"),
            Act::Step(
                1,
                &[Deed::Disarm(1), Deed::SayOk, Deed::ArmBadly(2)],
                "took 1 3 0 3 0 4 0, idle 1 1 3, say 1 0, assert 1 4 2 0 0",
            ),
        ],
    },
    Run {
        name: "an object posts last in",
        system: Kind::One(1, 2),
        defer: 0,
        acts: &[
            Act::Source(&[GO_POST], "post 0 1 1 0 0 0 4 0"),
            Act::Step(
                1,
                &[Deed::Lifo(N, &[3], None)],
                "took 1 1 0 1 0 4 0, new 1 1 0 0 0 5 3, inc 1 1 0 0, lifo 1 1 1 1 1 0 0, done 1",
            ),
            Act::Step(
                1,
                &[Deed::SayFirst],
                "took 1 1 1 2 1 0 0, say 1 3, done 1, dec 1 1 0 1 0, back 1 1 1 0 2",
            ),
        ],
    },
    // A lane tells an empty queue again only where it has changed.
    Run {
        name: "an empty queue is told once",
        system: Kind::One(1, 1),
        defer: 0,
        acts: &[
            Act::Step(1, &[], "nil 1 0 0 0"),
            Act::Step(1, &[], ""),
            Act::Source(&[X_POST], "post 0 1 1 0 0 0 6 0"),
            Act::Step(1, &[], "took 1 1 0 1 0 6 0, done 1"),
            Act::Step(1, &[], "nil 1 1 0 1"),
            Act::Step(1, &[], ""),
        ],
    },
    // A reference that a forwarded event's post leaves over is dropped, and that of the step stays. A static event has none.
    Run {
        name: "an event is forwarded within its margin",
        system: Kind::One(0, 1),
        defer: 0,
        acts: &[
            Act::Source(&[X_POST], "post 0 1 1 0 0 0 6 0"),
            Act::Step(
                1,
                &[WITHIN, Deed::SayOk, WITHIN, Deed::SayOk],
                "took 1 1 0 1 0 6 0, post 1 1 2 0 1 0 6 0, say 1 1, full 1 1 2 0 1 0, say 1 0, done 1",
            ),
            Act::Step(1, &[], "took 1 2 0 2 0 6 0, done 1"),
            Act::Source(
                &[N_POST],
                "new 0 1 0 0 0 5 1, inc 0 1 0 0, post 0 1 3 0 2 1 0 0",
            ),
            Act::Step(
                1,
                &[WITHIN, WITHIN, Deed::SayOk, Deed::Forward(1, None)],
                "took 1 3 0 3 1 0 0, inc 1 1 0 1, post 1 1 4 0 3 1 0 1, inc 1 1 0 2, full 1 1 4 0 3 0, dec 1 1 0 3 2, say 1 0, inc 1 1 0 4, assert 1 1 1 4 0 3",
            ),
        ],
    },
    // A signal's set changes once, and a static event is published without a block.
    Run {
        name: "an object subscribes and unsubscribes",
        system: Kind::One(1, 1),
        defer: 0,
        acts: &[
            Act::Owner(
                1,
                &[
                    Deed::Unsubscribe(X),
                    Deed::SayOk,
                    Deed::Subscribe(X),
                    Deed::SayOk,
                ],
                "same 1 6 0, say 1 0, sub 1 6 0, say 1 1",
            ),
            Act::Source(&[X_PUBLISH], "pub 0 6 1 1, post 0 1 1 0 0 0 6 0"),
            Act::Owner(
                1,
                &[Deed::Unsubscribe(X), Deed::SayOk, Deed::Unsubscribe(X)],
                "unsub 1 6 1, say 1 1, same 1 6 2",
            ),
            Act::Source(&[X_PUBLISH], "pub 0 6 2 0"),
        ],
    },
    // A time event is disarmed and set again, with its answer; its interval stays, and it fires until then. A rate without
    // time events ticks in vain.
    Run {
        name: "a time event is set again",
        system: Kind::One(3, 1),
        defer: 0,
        acts: &[
            Act::Owner(
                1,
                &[
                    Deed::Rearm(1, 1),
                    Deed::SayOk,
                    Deed::Rearm(1, 2),
                    Deed::SayOk,
                    Deed::Disarm(1),
                    Deed::SayOk,
                    Deed::Arm(2, 1, 2),
                ],
                "rearm 1 1 0 0 1, say 1 0, rearm 1 1 1 1 2, say 1 1, disarm 1 1 2 2, say 1 1, arm 1 2 0 1 2",
            ),
            Act::Source(
                &[Deed::Tick(0)],
                "idle 0 1 3, fire 0 2 1 2, post 0 1 1 0 0 0 8 0",
            ),
            Act::Owner(
                1,
                &[Deed::Rearm(2, 1), Deed::Rearm(1, 1)],
                "rearm 1 2 2 2 1, rearm 1 1 3 0 1",
            ),
            Act::Source(
                &[Deed::Tick(0)],
                "fire 0 1 4 0, post 0 1 2 0 0 0 7 0, fire 0 2 3 2, post 0 1 3 0 0 0 8 0",
            ),
            Act::Source(&[Deed::Tick(0)], "idle 0 1 5, tick 0 2 4 1"),
            Act::Source(&[Deed::Tick(1)], ""),
        ],
    },
];

/// Worked examples, runs up to limits, and lists of deferred entries.
#[test]
fn groups_of_calls_leave_their_records(rt: HostRuntime) -> Result<(), Fail> {
    see_all(&rt, rt.alloc(), &RUNS)?;
    see_all(&rt, rt.alloc(), &LIMITS)?;
    for room in &[0, 1, 255] {
        defers(&rt, rt.alloc(), *room)?;
    }
    Ok(())
}
