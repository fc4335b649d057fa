//! Schedules of the atomic steps of one thread: the life of a block, posts and a take of three seats, and each step where it isn't allowed.

ghost use Rattle.std.specs.Prelude.{IfSome};
ghost use Rattle.qp_model.specs.Sound.{IsSound};

use arrayvec::ArrayVec;
use qp_base::Ev;
use qp_core::{CoreFault, CoreState, Op, apply, run};
use qp_model::{Rec, System, Word};
use qp_system::system_of_bytes;
use std::alloc::{AllocError, Global};

/// One object with a queue of one entry and the front, and a pool of two blocks of size 1. GO is signal 4, N is 5, X is 6.
const ONE: &str =
    "qp = 1\n[[pool]]\nsize = 1\nblocks = 2\n[[signal]]\nname = \"GO\"\nstatic = true\n[[signal]]\nname = \"N\"\nparams = 1\n[[signal]]\nname = \"X\"\nstatic = true\n[[chart]]\nname = \"c\"\ninit = \"s\"\n[[chart.state]]\nname = \"s\"\n[[object]]\nname = \"lamp\"\nchart = \"c\"\npriority = 1\nqueue = 1\n";

fn one(alloc: Global) -> Option<System>
    ensures { IfSome result (λ sys. IsSound sys) }
{
    system_of_bytes(alloc, ONE.as_bytes()).ok()
}

/// A step of these tests, on pool 1, its block 0 and object 1 where it names no other.
#[derive(Clone, Copy)]
enum Step {
    /// An event of N, by its parameter.
    Give(u64),
    /// A place and its value.
    Fill(u8, u64),
    Make,
    Drop,
    Back,
    Look(Word),
    /// A look at the queue's word, with a record that it shows one post.
    LookAtPost,
    Read,
    Peek(u8),
    /// A seat, and the objects that it then serves.
    Split(u32, u32),
    Join(u32),
    /// A pool and a reference, or pool 0 and a static signal.
    Claim(u8, u64),
    Lay,
    Empty,
    Free,
    Lifo,
}

/// A block is given, filled, referred to, posted, taken, dropped and put back.
const LIFE: &[(u32, Step)] = &[
    (0, Step::Give(5)),
    (0, Step::Fill(0, 5)),
    (0, Step::Fill(1, 5)),
    (0, Step::Look(Word::Block(1, 0))),
    (0, Step::Make),
    (0, Step::Claim(1, 0)),
    (0, Step::Lay),
    (0, Step::Peek(1)),
    (0, Step::Empty),
    (0, Step::Free),
    (0, Step::Drop),
    (0, Step::Back),
];

/// The same, but for its last two steps, which are swapped.
const SWAPPED: &[(u32, Step)] = &[
    (0, Step::Give(5)),
    (0, Step::Fill(0, 5)),
    (0, Step::Fill(1, 5)),
    (0, Step::Look(Word::Block(1, 0))),
    (0, Step::Make),
    (0, Step::Claim(1, 0)),
    (0, Step::Lay),
    (0, Step::Peek(1)),
    (0, Step::Empty),
    (0, Step::Free),
    (0, Step::Back),
    (0, Step::Drop),
];

/// Seats 0 and 1 post, and seat 2 takes.
const THREE_SEATS: &[(u32, Step)] = &[
    (0, Step::Split(1, 0)),
    (0, Step::Split(2, 1)),
    (0, Step::Claim(0, 4)),
    (1, Step::Claim(0, 6)),
    (1, Step::Lay),
    (2, Step::Look(Word::Queue(1))),
    (0, Step::Lay),
    (2, Step::Peek(1)),
    (2, Step::Empty),
    (2, Step::Free),
];

/// Seat 0 joins the others, and takes what is left.
const JOINED: &[(u32, Step)] = &[
    (0, Step::Join(1)),
    (0, Step::Join(2)),
    (0, Step::Empty),
    (0, Step::Free),
];

/// A seat that only looks is split off, and a give is begun.
const BEGUN: &[(u32, Step)] = &[(0, Step::Split(9, 0)), (0, Step::Give(5))];

/// Steps that aren't allowed behind those of `BEGUN`, and why.
const REFUSED: &[(&str, u32, Step)] = &[
    ("a give of the seat isn't finished", 0, Step::Give(6)),
    ("another value", 0, Step::Fill(1, 6)),
    ("words are still to be written", 0, Step::Make),
    ("no such reference", 0, Step::Drop),
    ("not used", 0, Step::Back),
    ("no such word", 0, Step::Look(Word::Queue(2))),
    ("another number", 0, Step::LookAtPost),
    ("no reference", 0, Step::Read),
    ("another object", 0, Step::Peek(2)),
    ("a seat that stands", 0, Step::Split(0, 0)),
    ("an object that isn't served", 0, Step::Split(1, 2)),
    ("itself", 0, Step::Join(0)),
    ("a seat that doesn't stand", 0, Step::Join(1)),
    ("no such reference to post", 0, Step::Claim(1, 0)),
    ("a signal that isn't static", 0, Step::Claim(0, 5)),
    ("no claim", 0, Step::Lay),
    ("the front cell isn't laid", 0, Step::Empty),
    ("no take is under way", 0, Step::Free),
    ("no such reference to post first", 0, Step::Lifo),
    (
        "a step of a seat that doesn't stand",
        1,
        Step::Look(Word::Pool(1)),
    ),
    ("a seat that only looks", 9, Step::Claim(0, 4)),
];

/// A schedule on one lane, and the place of the step at which it is refused.
struct Schedule {
    what: &'static str,
    steps: &'static [(u32, Step)],
    refused: Option<CoreFault>,
}

const SCHEDULES: &[Schedule] = &[
    Schedule {
        what: "nothing",
        steps: &[],
        refused: None,
    },
    Schedule {
        what: "a life",
        steps: LIFE,
        refused: None,
    },
    Schedule {
        what: "a block put back before its reference is dropped",
        steps: SWAPPED,
        refused: Some(CoreFault::NotAllowed { place: 10 }),
    },
    Schedule {
        what: "no such reference",
        steps: &[(0, Step::Drop)],
        refused: Some(CoreFault::NotAllowed { place: 0 }),
    },
    Schedule {
        what: "a post to a full queue",
        steps: &[
            (0, Step::Claim(0, 4)),
            (0, Step::Claim(0, 4)),
            (0, Step::Claim(0, 4)),
        ],
        refused: Some(CoreFault::NotAllowed { place: 2 }),
    },
];

/// A run on so many lanes; steps that aren't allowed behind it, and steps that are; and then the values of words, and how many records
/// seats have.
struct Case {
    what: &'static str,
    lanes: u32,
    run: &'static [(u32, Step)],
    refused: &'static [(&'static str, u32, Step)],
    taken: &'static [(u32, Step)],
    words: &'static [(Word, u64)],
    records: &'static [(u32, usize)],
}

const CASES: &[Case] = &[
    Case {
        what: "the life of a block",
        lanes: 1,
        run: &[],
        refused: &[],
        taken: LIFE,
        words: &[
            (Word::Pool(1), 8589934595),
            (Word::Block(1, 0), 8589934592),
            (Word::Queue(1), 4398046511105),
        ],
        records: &[(0, 6)],
    },
    Case {
        what: "two posts and a take of three seats",
        lanes: 3,
        run: THREE_SEATS,
        refused: &[],
        taken: &[],
        words: &[(Word::Queue(1), 4398046511106)],
        records: &[(0, 1), (1, 1), (2, 1)],
    },
    Case {
        what: "the seats are joined",
        lanes: 3,
        run: THREE_SEATS,
        refused: &[],
        taken: JOINED,
        words: &[(Word::Queue(1), 8796093022210)],
        records: &[(0, 2), (1, 0)],
    },
    Case {
        what: "each step that isn't allowed",
        lanes: 2,
        run: BEGUN,
        refused: REFUSED,
        taken: &[(9, Step::Look(Word::Pool(1)))],
        words: &[(Word::Pool(1), 4294967298)],
        records: &[(0, 1)],
    },
];

/// Seats, the objects for which they are to add records, and the former ones.
const OWNERS: &[(u32, u8, u8)] = &[(0, 1, 0), (0, 0, 1), (5, 1, 0)];

/// An event of N.
fn n(par: u64) -> Ev {
    let mut pars = ArrayVec::new();
    let _ = pars.try_push(par);
    Ev { sig: 5, pars }
}

fn op_of(step: Step) -> Op {
    let (pool, block, object, name) = (1, 0, 1, 0);
    match step {
        Step::Give(par) => Op::Give { pool, ev: n(par) },
        Step::Fill(place, value) => Op::Fill {
            pool,
            block,
            place,
            value,
        },
        Step::Make => Op::Make { pool, block },
        Step::Drop => Op::Drop { pool, block, name },
        Step::Back => Op::Back { pool, block },
        Step::Look(word) => Op::Look { word, rec: None },
        Step::LookAtPost => Op::Look {
            word: Word::Queue(object),
            rec: Some(Rec::seen(object, 1, 0, 0)),
        },
        Step::Read => Op::Read {
            pool,
            block,
            place: 0,
        },
        Step::Peek(object) => Op::Peek { object },
        Step::Split(into, serves) => Op::Split { into, serves },
        Step::Join(from) => Op::Join { from },
        Step::Claim(pool, name) => Op::Claim {
            to: object,
            pool,
            block,
            name,
        },
        Step::Lay => Op::Lay { to: object },
        Step::Empty => Op::Empty { object },
        Step::Free => Op::Free { object },
        Step::Lifo => Op::Lifo {
            object,
            pool,
            block,
            name,
        },
    }
}

fn ops_of(alloc: Global, steps: &[(u32, Step)]) -> Result<Vec<(u32, Op)>, AllocError> {
    let mut ops = Vec::new(alloc);
    for (seat, step) in steps {
        ops.push((*seat, op_of(*step))).map_err(|_| AllocError)?;
    }
    Ok(ops)
}

/// Whether a seat takes a step; None where memory is refused.
fn is_taken(alloc: Global, state: &mut CoreState<'_>, seat: u32, step: Step) -> Option<bool> {
    apply(alloc, state, seat, &op_of(step)).ok()
}

/// The first of these steps that is taken, by why it isn't to be.
fn first_taken(
    alloc: Global,
    state: &mut CoreState<'_>,
    steps: &[(&'static str, u32, Step)],
) -> Option<&'static str> {
    for (why, seat, step) in steps {
        if is_taken(alloc, state, *seat, *step) != Some(false) {
            return Some(why);
        }
    }
    None
}

/// Whether each of these steps is taken.
fn are_taken(alloc: Global, state: &mut CoreState<'_>, steps: &[(u32, Step)]) -> bool {
    for (seat, step) in steps {
        if is_taken(alloc, state, *seat, *step) != Some(true) {
            return false;
        }
    }
    true
}

/// Whether words have these values.
fn are_words(state: &CoreState<'_>, words: &[(Word, u64)]) -> bool {
    for (word, value) in words {
        if state.word(*word) != *value {
            return false;
        }
    }
    true
}

/// Whether seats have so many records.
fn are_counts(state: &CoreState<'_>, records: &[(u32, usize)]) -> bool {
    for (seat, count) in records {
        if state.records(*seat).len() != *count {
            return false;
        }
    }
    true
}

/// What isn't as a case has it behind its run.
fn wrong_behind(alloc: Global, state: &mut CoreState<'_>, case: &Case) -> Option<&'static str> {
    if let Some(why) = first_taken(alloc, state, case.refused) {
        return Some(why);
    }
    if !are_taken(alloc, state, case.taken) {
        return Some("a step isn't taken");
    }
    if !are_words(state, case.words) {
        return Some("another word");
    }
    if !are_counts(state, case.records) {
        return Some("another count of records");
    }
    None
}

/// What isn't as a case has it.
fn wrong(alloc: Global, sys: &System, case: &Case) -> Option<&'static str>
    requires { IsSound sys.now }
{
    if case.lanes == 0 || case.lanes > 49 {
        return Some("another count of lanes");
    }
    let Ok(ops) = ops_of(alloc, case.run) else {
        return Some("no memory for the steps");
    };
    match run(alloc, sys, case.lanes, &ops) {
        Ok(mut state) => wrong_behind(alloc, &mut state, case),
        Err(_) => Some("a step of the run isn't taken"),
    }
}

#[test]
fn runs_leave_these_words_and_records(rt: HostRuntime) {
    let Some(sys) = one(rt.alloc()) else {
        assert!(rt; false, "no system");
        return;
    };
    for case in CASES {
        let wrong = wrong(rt.alloc(), &sys, case);
        assert!(rt; wrong.is_none(), "{}: {wrong:?}", case.what);
    }
}

/// Whether a run on one lane ends so.
fn ends_so(alloc: Global, sys: &System, schedule: &Schedule) -> bool
    requires { IsSound sys.now }
{
    match ops_of(alloc, schedule.steps) {
        Ok(ops) => run(alloc, sys, 1, &ops).err() == schedule.refused,
        Err(_) => false,
    }
}

#[test]
fn a_run_names_its_first_step_that_is_not_allowed(rt: HostRuntime) {
    let Some(sys) = one(rt.alloc()) else {
        assert!(rt; false, "no system");
        return;
    };
    for schedule in SCHEDULES {
        assert!(rt; ends_so(rt.alloc(), &sys, schedule), "{}", schedule.what);
    }
}

/// Whether the objects of seats are set, on a lane of its own.
fn are_set(alloc: Global, sys: &System, owners: &[(u32, u8, u8)]) -> bool
    requires { IsSound sys.now }
{
    let Ok(mut state) = CoreState::new(alloc, sys, 1) else {
        return false;
    };
    for (seat, object, former) in owners {
        if state.set_by(*seat, *object) != *former {
            return false;
        }
    }
    true
}

#[test]
fn an_object_for_records_is_set(rt: HostRuntime) {
    let Some(sys) = one(rt.alloc()) else {
        assert!(rt; false, "no system");
        return;
    };
    assert!(rt; are_set(rt.alloc(), &sys, OWNERS));
}
