//! Limits of queues, pools and lists, from both sides.

use crate::acts::{Kind, N, Run, X, X_POST};
use crate::bench::see;
use crate::deeds::Deed;
use crate::desk::Act;
use std::alloc::{AllocError, Global};
use std::sync::Wait;
use std::test::Fail;

const WITHIN_0: Deed = Deed::Post(1, X, &[], Some(0), None);

const WITHIN_1: Deed = Deed::Post(1, X, &[], Some(1), None);

const WITHIN_2: Deed = Deed::Post(1, X, &[], Some(2), None);

const WITHIN_3: Deed = Deed::Post(1, X, &[], Some(3), None);

const GRANTED: Deed = Deed::Post(1, N, &[8], None, None);

const READY: Act<'static> = Act::Owner(
    1,
    &[Deed::Subscribe(N), Deed::Arm(1, 1, 1)],
    "sub 1 5 0, arm 1 1 0 1 1",
);

const SUBSCRIBED: Act<'static> = Act::Owner(1, &[Deed::Subscribe(N)], "sub 1 5 0");

/// Leaves a queue of two with one free entry.
const FILLED: Act<'static> = Act::Source(&[X_POST], "post 0 1 1 0 0 0 6 0");

pub(crate) const LIMITS: [Run<'static>; 17] = [
    // A ring of two has three entries. A post is granted exactly where more entries are free than its margin.
    Run {
        name: "four posts at margin 0",
        system: Kind::One(2, 1),
        defer: 0,
        acts: &[Act::Source(
            &[WITHIN_0; 4],
            "post 0 1 1 0 0 0 6 0, post 0 1 2 0 0 0 6 0, post 0 1 3 0 0 0 6 0, full 0 1 3 0 0 0",
        )],
    },
    Run {
        name: "four posts at margin 1",
        system: Kind::One(2, 1),
        defer: 0,
        acts: &[Act::Source(
            &[WITHIN_1; 4],
            "post 0 1 1 0 0 0 6 0, post 0 1 2 0 0 0 6 0, full 0 1 2 0 0 1, full 0 1 2 0 0 1",
        )],
    },
    Run {
        name: "four posts at margin 2",
        system: Kind::One(2, 1),
        defer: 0,
        acts: &[Act::Source(
            &[WITHIN_2; 4],
            "post 0 1 1 0 0 0 6 0, full 0 1 1 0 0 2, full 0 1 1 0 0 2, full 0 1 1 0 0 2",
        )],
    },
    Run {
        name: "four posts at margin 3",
        system: Kind::One(2, 1),
        defer: 0,
        acts: &[Act::Source(
            &[WITHIN_3; 4],
            "full 0 1 0 0 0 3, full 0 1 0 0 0 3, full 0 1 0 0 0 3, full 0 1 0 0 0 3",
        )],
    },
    // A queue with one free entry takes one more. The next is assertion 1, or 5 where it is last-in.
    Run {
        name: "a post to a full queue",
        system: Kind::One(1, 2),
        defer: 0,
        acts: &[
            FILLED,
            Act::Owner(1, &[X_POST; 2], "post 1 1 2 0 0 0 6 0, assert 1 1 1 2 0 0"),
        ],
    },
    Run {
        name: "a post of a pool to a full queue",
        system: Kind::One(1, 2),
        defer: 0,
        acts: &[
            FILLED,
            Act::Owner(
                1,
                &[
                    Deed::Post(1, N, &[3], None, None),
                    Deed::Post(1, N, &[3], None, None),
                ],
                "new 1 1 0 0 0 5 3, inc 1 1 0 0, post 1 1 2 0 0 1 0 0, new 1 1 1 1 0 5 3, inc 1 1 1 0, assert 1 1 1 2 0 0",
            ),
        ],
    },
    Run {
        name: "an event forwarded to a full queue",
        system: Kind::One(1, 2),
        defer: 0,
        acts: &[
            FILLED,
            Act::Owner(
                1,
                &[Deed::Forward(1, None), Deed::Forward(1, None)],
                "post 1 1 2 0 0 0 4 0, assert 1 1 1 2 0 0",
            ),
        ],
    },
    Run {
        name: "a last-in post to a full queue",
        system: Kind::One(1, 2),
        defer: 0,
        acts: &[
            FILLED,
            Act::Owner(
                1,
                &[Deed::Lifo(X, &[], None), Deed::Lifo(X, &[], None)],
                "lifo 1 1 1 0 0 6 0, assert 1 5 1 1 1 0",
            ),
        ],
    },
    Run {
        name: "a last-in post of a pool to a full queue",
        system: Kind::One(1, 2),
        defer: 0,
        acts: &[
            FILLED,
            Act::Owner(
                1,
                &[Deed::Lifo(N, &[3], None), Deed::Lifo(N, &[3], None)],
                "new 1 1 0 0 0 5 3, inc 1 1 0 0, lifo 1 1 1 0 1 0 0, new 1 1 1 1 0 5 3, inc 1 1 1 0, assert 1 5 1 1 1 0",
            ),
        ],
    },
    // A publication and a tick end with the first post that finds no entry; nothing follows.
    Run {
        name: "a publication to a full queue",
        system: Kind::One(1, 2),
        defer: 0,
        acts: &[
            READY,
            FILLED,
            Act::Source(
                &[Deed::Publish(N, &[3], None), Deed::Publish(N, &[3], None)],
                "new 0 1 0 0 0 5 3, inc 0 1 0 0, pub 0 5 1 1, inc 0 1 0 1, post 0 1 2 0 0 1 0 1, dec 0 1 0 2 0, new 0 1 1 1 0 5 3, inc 0 1 1 0, pub 0 5 1 1, inc 0 1 1 1, assert 0 1 1 2 0 0",
            ),
        ],
    },
    Run {
        name: "a tick over a full queue",
        system: Kind::One(1, 2),
        defer: 0,
        acts: &[
            READY,
            FILLED,
            Act::Source(
                &[Deed::Tick(0), Deed::Tick(0)],
                "fire 0 1 1 1, post 0 1 2 0 0 0 7 0, idle 0 2 0, fire 0 1 2 1, assert 0 1 1 2 0 0",
            ),
        ],
    },
    Run {
        name: "a handler's publication to a full queue",
        system: Kind::One(1, 2),
        defer: 0,
        acts: &[
            READY,
            FILLED,
            Act::Owner(
                1,
                &[Deed::Announce(N, &[3], None), Deed::Announce(N, &[3], None)],
                "lock 1 1, unlock 1 0, new 1 1 0 0 0 5 3, inc 1 1 0 0, pub 1 5 1 1, lock 1 1, inc 1 1 0 1, post 1 1 2 0 0 1 0 1, unlock 1 0, dec 1 1 0 2 0, lock 1 1, unlock 1 0, new 1 1 1 1 0 5 3, inc 1 1 1 0, pub 1 5 1 1, lock 1 1, inc 1 1 1 1, assert 1 1 1 2 0 0",
            ),
        ],
    },
    // A block is granted exactly where more are free than the reserve. A pool without a free block is assertion 2 where none is asked for.
    Run {
        name: "posts from a pool with its reserve",
        system: Kind::One(3, 2),
        defer: 0,
        acts: &[Act::Owner(
            1,
            &[
                Deed::Post(1, N, &[8], None, Some(1)),
                Deed::Post(1, N, &[8], None, Some(1)),
                Deed::Post(1, N, &[8], None, Some(0)),
                GRANTED,
            ],
            "new 1 1 0 0 0 5 8, inc 1 1 0 0, post 1 1 1 0 0 1 0 0, short 1 1 1 1 1, new 1 1 1 1 0 5 8, inc 1 1 1 0, post 1 1 2 0 0 1 1 0, assert 1 2 1 2 0",
        )],
    },
    Run {
        name: "last-in posts from a pool with its reserve",
        system: Kind::One(3, 2),
        defer: 0,
        acts: &[Act::Owner(
            1,
            &[
                Deed::Lifo(N, &[8], Some(1)),
                Deed::Lifo(N, &[8], Some(1)),
                Deed::Lifo(N, &[8], Some(0)),
                Deed::Lifo(N, &[8], None),
            ],
            "new 1 1 0 0 0 5 8, inc 1 1 0 0, lifo 1 0 1 0 1 0 0, short 1 1 1 1 1, new 1 1 1 1 0 5 8, inc 1 1 1 0, lifo 1 0 2 0 1 1 0, assert 1 2 1 2 0",
        )],
    },
    Run {
        name: "publications from a pool with its reserve",
        system: Kind::One(3, 2),
        defer: 0,
        acts: &[
            SUBSCRIBED,
            Act::Source(
                &[
                    Deed::Publish(N, &[8], Some(1)),
                    Deed::Publish(N, &[8], Some(1)),
                    Deed::Publish(N, &[8], Some(0)),
                    Deed::Publish(N, &[8], None),
                ],
                "new 0 1 0 0 0 5 8, inc 0 1 0 0, pub 0 5 1 1, inc 0 1 0 1, post 0 1 1 0 0 1 0 1, dec 0 1 0 2 0, short 0 1 1 1 1, new 0 1 1 1 0 5 8, inc 0 1 1 0, pub 0 5 1 1, inc 0 1 1 1, post 0 1 2 0 0 1 1 1, dec 0 1 1 2 0, assert 0 2 1 2 0",
            ),
        ],
    },
    Run {
        name: "a handler's publications from a pool with its reserve",
        system: Kind::One(3, 2),
        defer: 0,
        acts: &[
            SUBSCRIBED,
            Act::Owner(
                1,
                &[
                    Deed::Announce(N, &[8], Some(1)),
                    Deed::Announce(N, &[8], Some(1)),
                    Deed::Announce(N, &[8], Some(0)),
                    Deed::Announce(N, &[8], None),
                ],
                "lock 1 1, unlock 1 0, new 1 1 0 0 0 5 8, inc 1 1 0 0, pub 1 5 1 1, lock 1 1, inc 1 1 0 1, post 1 1 1 0 0 1 0 1, unlock 1 0, dec 1 1 0 2 0, lock 1 1, unlock 1 0, short 1 1 1 1 1, lock 1 1, unlock 1 0, new 1 1 1 1 0 5 8, inc 1 1 1 0, pub 1 5 1 1, lock 1 1, inc 1 1 1 1, post 1 1 2 0 0 1 1 1, unlock 1 0, dec 1 1 1 2 0, lock 1 1, unlock 1 0, assert 1 2 1 2 0",
            ),
        ],
    },
    // A publication goes to all 32 objects, from the highest down, and its block has a reference for each.
    Run {
        name: "a publication to 32 objects",
        system: Kind::Many(32),
        defer: 0,
        acts: &[
            Act::Owner(1, &[Deed::Subscribe(N)], "sub 1 5 0"),
            Act::Owner(2, &[Deed::Subscribe(N)], "sub 2 5 1"),
            Act::Owner(3, &[Deed::Subscribe(N)], "sub 3 5 2"),
            Act::Owner(4, &[Deed::Subscribe(N)], "sub 4 5 3"),
            Act::Owner(5, &[Deed::Subscribe(N)], "sub 5 5 4"),
            Act::Owner(6, &[Deed::Subscribe(N)], "sub 6 5 5"),
            Act::Owner(7, &[Deed::Subscribe(N)], "sub 7 5 6"),
            Act::Owner(8, &[Deed::Subscribe(N)], "sub 8 5 7"),
            Act::Owner(9, &[Deed::Subscribe(N)], "sub 9 5 8"),
            Act::Owner(10, &[Deed::Subscribe(N)], "sub 10 5 9"),
            Act::Owner(11, &[Deed::Subscribe(N)], "sub 11 5 10"),
            Act::Owner(12, &[Deed::Subscribe(N)], "sub 12 5 11"),
            Act::Owner(13, &[Deed::Subscribe(N)], "sub 13 5 12"),
            Act::Owner(14, &[Deed::Subscribe(N)], "sub 14 5 13"),
            Act::Owner(15, &[Deed::Subscribe(N)], "sub 15 5 14"),
            Act::Owner(16, &[Deed::Subscribe(N)], "sub 16 5 15"),
            Act::Owner(17, &[Deed::Subscribe(N)], "sub 17 5 16"),
            Act::Owner(18, &[Deed::Subscribe(N)], "sub 18 5 17"),
            Act::Owner(19, &[Deed::Subscribe(N)], "sub 19 5 18"),
            Act::Owner(20, &[Deed::Subscribe(N)], "sub 20 5 19"),
            Act::Owner(21, &[Deed::Subscribe(N)], "sub 21 5 20"),
            Act::Owner(22, &[Deed::Subscribe(N)], "sub 22 5 21"),
            Act::Owner(23, &[Deed::Subscribe(N)], "sub 23 5 22"),
            Act::Owner(24, &[Deed::Subscribe(N)], "sub 24 5 23"),
            Act::Owner(25, &[Deed::Subscribe(N)], "sub 25 5 24"),
            Act::Owner(26, &[Deed::Subscribe(N)], "sub 26 5 25"),
            Act::Owner(27, &[Deed::Subscribe(N)], "sub 27 5 26"),
            Act::Owner(28, &[Deed::Subscribe(N)], "sub 28 5 27"),
            Act::Owner(29, &[Deed::Subscribe(N)], "sub 29 5 28"),
            Act::Owner(30, &[Deed::Subscribe(N)], "sub 30 5 29"),
            Act::Owner(31, &[Deed::Subscribe(N)], "sub 31 5 30"),
            Act::Owner(32, &[Deed::Subscribe(N)], "sub 32 5 31"),
            Act::Source(
                &[Deed::Publish(N, &[7], None)],
                "new 0 1 0 0 0 5 7, inc 0 1 0 0, pub 0 5 32 4294967295, inc 0 1 0 1, post 0 32 1 0 0 1 0 1, inc 0 1 0 2, post 0 31 1 0 0 1 0 2, inc 0 1 0 3, post 0 30 1 0 0 1 0 3, inc 0 1 0 4, post 0 29 1 0 0 1 0 4, inc 0 1 0 5, post 0 28 1 0 0 1 0 5, inc 0 1 0 6, post 0 27 1 0 0 1 0 6, inc 0 1 0 7, post 0 26 1 0 0 1 0 7, inc 0 1 0 8, post 0 25 1 0 0 1 0 8, inc 0 1 0 9, post 0 24 1 0 0 1 0 9, inc 0 1 0 10, post 0 23 1 0 0 1 0 10, inc 0 1 0 11, post 0 22 1 0 0 1 0 11, inc 0 1 0 12, post 0 21 1 0 0 1 0 12, inc 0 1 0 13, post 0 20 1 0 0 1 0 13, inc 0 1 0 14, post 0 19 1 0 0 1 0 14, inc 0 1 0 15, post 0 18 1 0 0 1 0 15, inc 0 1 0 16, post 0 17 1 0 0 1 0 16, inc 0 1 0 17, post 0 16 1 0 0 1 0 17, inc 0 1 0 18, post 0 15 1 0 0 1 0 18, inc 0 1 0 19, post 0 14 1 0 0 1 0 19, inc 0 1 0 20, post 0 13 1 0 0 1 0 20, inc 0 1 0 21, post 0 12 1 0 0 1 0 21, inc 0 1 0 22, post 0 11 1 0 0 1 0 22, inc 0 1 0 23, post 0 10 1 0 0 1 0 23, inc 0 1 0 24, post 0 9 1 0 0 1 0 24, inc 0 1 0 25, post 0 8 1 0 0 1 0 25, inc 0 1 0 26, post 0 7 1 0 0 1 0 26, inc 0 1 0 27, post 0 6 1 0 0 1 0 27, inc 0 1 0 28, post 0 5 1 0 0 1 0 28, inc 0 1 0 29, post 0 4 1 0 0 1 0 29, inc 0 1 0 30, post 0 3 1 0 0 1 0 30, inc 0 1 0 31, post 0 2 1 0 0 1 0 31, inc 0 1 0 32, post 0 1 1 0 0 1 0 32, dec 0 1 0 33 0",
            ),
        ],
    },
];

/// 256 deferrals of a static event in a list with so much room.
fn deferred(alloc: Global, room: u8) -> Result<String, AllocError> {
    let granted = "defer 1 0 4 0, ".repeat(alloc, usize::from(room))?;
    let refused = "nodefer 1, ".repeat(alloc, usize::from(255 - room))?;
    format!(in alloc; "{granted}{refused}nodefer 1")
}

/// The flush of so many entries, and a recall of none.
fn flushed(alloc: Global, room: u8) -> Result<String, AllocError> {
    let dropped = "flush 1 0 4 0, ".repeat(alloc, usize::from(room))?;
    format!(in alloc; "{dropped}say 1 {room}, norecall 1, say 1 0")
}

/// A static event is deferred until a list with so much room is full; then all entries are flushed, and none is recalled. A list without
/// room defers none.
pub(crate) fn defers(rt: &impl Wait, alloc: Global, room: u8) -> Result<(), Fail> {
    let (deferred, flushed) = (deferred(alloc, room)?, flushed(alloc, room)?);
    let run = Run {
        name: "a list of deferred entries",
        system: Kind::One(1, 1),
        defer: room,
        acts: &[
            Act::Owner(1, &[Deed::Defer; 256], deferred.as_str()),
            Act::Owner(
                1,
                &[Deed::Flush, Deed::SayOk, Deed::Recall, Deed::SayOk],
                flushed.as_str(),
            ),
        ],
    };
    see(rt, alloc, &run)
}
