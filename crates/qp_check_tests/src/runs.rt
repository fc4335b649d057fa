//! Lane 0 with its orders and settles, ends and budgets, and deferred entries.

ghost use Rattle.qp_check_words.specs.Numbers.{WordsFit};

use crate::samples::{
    PORT, Part, Parts, QK, QV, Row, SIM, go, journal, lane, nothing, object, one_lane, records,
    stimuli, two_lanes, with_pool,
};
use qp_check_ends::ending::end_holds;
use qp_check_ends::journal_end::end_is_right;
use qp_check_ends::lane_ends::{spents_are_seen, spills_stand};
use qp_check_kernel::kernel_lane::is_kernel_lane;
use qp_check_kernel::one_order::is_one_order;
use qp_check_lanes::deferral::kept;
use qp_check_lanes::lane_parts::{count_stands, lane_zero_stands};
use qp_check_words::records_by_word::RecordsByWord;
use qp_model::kinds::{
    ASSERT, BEGIN, DEFER, DONE, FLUSH, INC, LIFO, LOCK, LOOK, NEW, NODEFER, NONE, NORECALL, POST,
    RECALL, REST, SEEN, SETTLE, SPENT, SPILL, STIM, TOOK,
};
use qp_model::{Journal, Lane, Rec, Stim, Stimuli, System};
use std::alloc::{AllocError, Global};

/// Object 1 starts, takes its event in look 1, and runs.
const STEP: Part = &[
    (BEGIN, 1, &[]),
    (DONE, 1, &[]),
    (LOOK, 0, &[1, 0]),
    (SEEN, 0, &[1, 1, 0, 0]),
    (TOOK, 1, &[1, 0, 1, 0, 4, 0]),
    (NONE, 1, &[]),
    (DONE, 1, &[]),
];

/// Look 2 finds nothing.
const LOOK_2: Part = &[(LOOK, 0, &[2, 0]), (SEEN, 0, &[1, 1, 0, 1])];

const ONE_STEP: Parts = &[STEP, LOOK_2];

/// Look 2 at a floor of 1.
const LOOK_2_AT_1: Part = &[(LOOK, 0, &[2, 1]), (SEEN, 0, &[1, 1, 0, 1])];

/// The post to object 1 in look 1.
const POST_IN_1: Part = &[(STIM, 0, &[1, 1]), (POST, 0, &[1, 1, 0, 0, 0, 4, 0])];

/// The same in look 2.
const POST_IN_2: Part = &[(STIM, 0, &[1, 2]), (POST, 0, &[1, 1, 0, 0, 0, 4, 0])];

/// Object 1 starts, and a look finds its queue empty.
const IDLE: Part = &[
    (BEGIN, 1, &[]),
    (DONE, 1, &[]),
    (LOOK, 0, &[1, 0]),
    (SEEN, 0, &[1, 0, 0, 0]),
];

const RESTS: Part = &[(REST, 0, &[1])];

/// Object 1 takes an entry and raises the ceiling to 3, and a row of looks stands there.
const LOCKED: Part = &[
    (BEGIN, 1, &[]),
    (DONE, 1, &[]),
    (BEGIN, 3, &[]),
    (DONE, 3, &[]),
    (LOOK, 0, &[1, 0]),
    (SEEN, 0, &[3, 0, 0, 0]),
    (SEEN, 0, &[1, 1, 0, 0]),
    (TOOK, 1, &[1, 0, 1, 0, 4, 0]),
    (LOCK, 1, &[3]),
    (LOOK, 0, &[2, 3]),
];

const SEES_3: Part = &[(SEEN, 0, &[3, 0, 0, 0])];

/// An assertion cuts the run.
const NO_ENTRY: Part = &[(ASSERT, 1, &[1, 1, 4, 0, 0])];

/// A settle in look 1, which sees an empty queue.
const SETTLE_IN_1: Part = &[
    (STIM, 0, &[1, 1]),
    (SETTLE, 0, &[]),
    (SEEN, 0, &[1, 0, 0, 0]),
];

/// The event of signal 4 is deferred.
const DEFERRED: Row = (DEFER, 1, &[0, 4, 0]);

/// Block 0 is given out, and a reference to it is made.
const REFERRED: Part = &[(NEW, 1, &[1, 0, 0, 0, 5]), (INC, 1, &[1, 0, 0])];

/// What is asked of records and lanes.
enum Case {
    /// Objects, a kernel, an end, the parts of lane 0 and the lane of a source: whether lane 0 is one of that kernel.
    Kernel(&'static [u8], u8, u8, Parts, Part),
    /// Whether a source settles or posts, lane 0 and the lane of the source: whether they have one order.
    Order(bool, Parts, Part),
    /// The end of a run in `sim`, lane 0 and the lane of a source: whether the end is as the records say.
    End(u8, Parts, Part),
    /// Records of a lane: whether a quiet end holds after them.
    QuietEnd(Part),
    /// A lane: whether each `spent` stands behind a look at an entry of its object.
    Spents(Part),
    /// A lane: whether each `spill` is of a lane that has no room.
    Spills(Part),
    /// Records of object 1, and a number: whether a deferred list with room for one has so many entries after them.
    Deferred(Part, usize),
    /// Records of object 1: whether they may stand in any deferred list with room for one.
    Defers(Part),
    /// A kernel: whether two lanes are as many as those of object 1 and a source.
    TwoLanes(u8),
    /// A kernel: whether lane 0 may have records.
    LaneZero(u8),
}

/// What each case is, and what is answered.
const CASES: &[(&str, Case, bool)] = &[
    // The lane of a run with one post, and with a wrong floor.
    ("sim", Case::Kernel(&[1], SIM, 0, ONE_STEP, POST_IN_1), true),
    (
        "sim, floor 1",
        Case::Kernel(&[1], SIM, 0, &[STEP, LOOK_2_AT_1], POST_IN_1),
        false,
    ),
    ("qk", Case::Kernel(&[1], QK, 0, ONE_STEP, POST_IN_1), true),
    ("qv", Case::Kernel(&[1], QV, 0, ONE_STEP, POST_IN_1), false),
    (
        "port",
        Case::Kernel(&[1], PORT, 0, ONE_STEP, POST_IN_1),
        false,
    ),
    // A look at an empty queue: only the cooperative kernel rests.
    ("sim looks", Case::Kernel(&[1], SIM, 0, &[IDLE], &[]), true),
    (
        "sim rests",
        Case::Kernel(&[1], SIM, 0, &[IDLE, RESTS], &[]),
        false,
    ),
    ("qv looks", Case::Kernel(&[1], QV, 0, &[IDLE], &[]), false),
    (
        "qv rests",
        Case::Kernel(&[1], QV, 0, &[IDLE, RESTS], &[]),
        true,
    ),
    // An object starts only above the ceiling, so none at the ceiling is looked at.
    (
        "object 3 isn't seen",
        Case::Kernel(&[1, 3], SIM, 3, &[LOCKED, NO_ENTRY], &[]),
        true,
    ),
    (
        "object 3 is seen",
        Case::Kernel(&[1, 3], SIM, 3, &[LOCKED, SEES_3, NO_ENTRY], &[]),
        false,
    ),
    // A post happens in its look.
    (
        "a post in its look",
        Case::Order(false, ONE_STEP, POST_IN_1),
        true,
    ),
    (
        "in the look behind",
        Case::Order(false, ONE_STEP, POST_IN_2),
        false,
    ),
    ("left out", Case::Order(false, ONE_STEP, &[]), false),
    // A `settle` happens where all queues are empty, and not in a look in which an entry waits.
    (
        "empty",
        Case::Order(
            true,
            &[&[(LOOK, 0, &[1, 0]), (SEEN, 0, &[1, 0, 0, 0])]],
            SETTLE_IN_1,
        ),
        true,
    ),
    (
        "an entry waits",
        Case::Order(
            true,
            &[&[(LIFO, 1, &[0, 1, 0, 0, 4, 0]), (LOOK, 0, &[1, 0])]],
            SETTLE_IN_1,
        ),
        false,
    ),
    // The end is as the records say.
    ("quiet", Case::End(0, ONE_STEP, POST_IN_1), true),
    ("quiet, end 3", Case::End(3, ONE_STEP, POST_IN_1), false),
    (
        "asserted",
        Case::End(3, &[STEP, LOOK_2, NO_ENTRY], POST_IN_1),
        true,
    ),
    (
        "asserted, end 0",
        Case::End(0, &[STEP, LOOK_2, NO_ENTRY], POST_IN_1),
        false,
    ),
    (
        "asserted, end 4",
        Case::End(4, &[STEP, LOOK_2, NO_ENTRY], POST_IN_1),
        false,
    ),
    (
        "two takes, which are more than a budget of 1",
        Case::End(
            0,
            &[&[
                (TOOK, 1, &[2, 0, 1, 0, 4, 0]),
                (TOOK, 1, &[2, 0, 2, 0, 4, 0]),
            ]],
            &[],
        ),
        false,
    ),
    // At a quiet end no entry waits, and each block that is given out has a deferred entry.
    (
        "a block has a deferred entry",
        Case::QuietEnd(&[
            (NEW, 1, &[1, 0, 0, 0, 5]),
            (INC, 1, &[1, 0, 0]),
            (DEFER, 1, &[1, 0, 0]),
        ]),
        true,
    ),
    ("a block has none", Case::QuietEnd(REFERRED), false),
    (
        "an entry waits in a queue",
        Case::QuietEnd(&[(POST, 1, &[1, 1, 0, 0, 0, 4, 0])]),
        false,
    ),
    // A `spent` and a `spill` of a lane.
    (
        "own, spent",
        Case::Spents(&[(SEEN, 0, &[1, 4, 0, 3]), (SPENT, 1, &[])]),
        true,
    ),
    (
        "own, spill",
        Case::Spills(&[(SEEN, 0, &[1, 4, 0, 3]), (SPENT, 1, &[])]),
        true,
    ),
    (
        "other, spent",
        Case::Spents(&[(SEEN, 0, &[3, 4, 0, 3]), (SPENT, 1, &[])]),
        false,
    ),
    (
        "other, spill",
        Case::Spills(&[(SEEN, 0, &[3, 4, 0, 3]), (SPENT, 1, &[])]),
        true,
    ),
    (
        "empty, spent",
        Case::Spents(&[(SEEN, 0, &[1, 4, 0, 4]), (SPENT, 1, &[])]),
        false,
    ),
    (
        "empty, spill",
        Case::Spills(&[(SEEN, 0, &[1, 4, 0, 4]), (SPENT, 1, &[])]),
        true,
    ),
    (
        "room, spent",
        Case::Spents(&[(SETTLE, 0, &[]), (SPILL, 0, &[1])]),
        true,
    ),
    (
        "room, spill",
        Case::Spills(&[(SETTLE, 0, &[]), (SPILL, 0, &[1])]),
        false,
    ),
    // Deferred entries.
    (
        "full",
        Case::Deferred(&[DEFERRED, (NODEFER, 1, &[]), (RECALL, 2, &[1, 0, 2])], 1),
        true,
    ),
    (
        "recalled",
        Case::Deferred(&[DEFERRED, (RECALL, 1, &[0, 4, 0]), (NORECALL, 1, &[])], 0),
        true,
    ),
    ("twice", Case::Defers(&[DEFERRED, DEFERRED]), false),
    (
        "another",
        Case::Defers(&[DEFERRED, (FLUSH, 1, &[1, 0, 2])]),
        false,
    ),
    ("room", Case::Defers(&[(NODEFER, 1, &[])]), false),
    // In `port` each object has a lane of its own, and lane 0 has no record.
    ("lanes in sim", Case::TwoLanes(SIM), true),
    ("lane 0 in sim", Case::LaneZero(SIM), true),
    ("lanes in port", Case::TwoLanes(PORT), false),
    ("lane 0 in port", Case::LaneZero(PORT), false),
];

/// Objects of these priorities.
fn system(alloc: Global, priorities: &[u8]) -> Result<System, AllocError> {
    let mut sys = nothing(alloc);
    for priority in priorities {
        sys.objects.items.push(object(alloc, "", *priority, 3))?;
    }
    Ok(sys)
}

fn is_lane_of_kernel(
    alloc: Global,
    priorities: &[u8],
    kernel: u8,
    end: u8,
    lane0: Parts,
    source: Part,
) -> Result<bool, AllocError> {
    let sys = system(alloc, priorities)?;
    let j = journal(kernel, end, two_lanes(alloc, lane0, source)?);
    is_kernel_lane(alloc, &sys, &j)
}

/// One post to object 1, or a settle.
fn one_stimulus(alloc: Global, settles: bool) -> Result<Stimuli, AllocError> {
    if settles {
        return stimuli(alloc, Stim::Settle);
    }
    let post = Stim::Post {
        to: 1,
        ev: go(),
        margin: None,
        reserve: None,
    };
    stimuli(alloc, post)
}

fn has_one_order(
    alloc: Global,
    settles: bool,
    lane0: &Lane,
    source: Vec<Rec>,
) -> Result<bool, AllocError> {
    let sources = [Lane { items: source }];
    let stim = one_stimulus(alloc, settles)?;
    let sys = system(alloc, &[1])?;
    is_one_order(alloc, &sys, &stim, false, &lane0.items, &sources)
}

fn is_order(alloc: Global, settles: bool, lane0: Parts, source: Part) -> Result<bool, AllocError> {
    let lane0 = lane(alloc, lane0)?;
    let source = records(alloc, source)?;
    has_one_order(alloc, settles, &lane0, source)
}

fn ends(alloc: Global, end: u8, lane0: Parts, source: Part) -> Result<bool, AllocError> {
    let sys = system(alloc, &[1])?;
    let j = journal(SIM, end, two_lanes(alloc, lane0, source)?);
    Ok(end_is_right(&sys, &j))
}

fn end_stands(alloc: Global, sys: &System, j: &Journal) -> Result<bool, AllocError>
    requires { WordsFit sys.now }
{
    let records = RecordsByWord::of(alloc, &j.lanes)?;
    end_holds(alloc, sys, j, &records)
}

fn ends_quietly(alloc: Global, rows: Part) -> Result<bool, AllocError> {
    let j = Journal {
        kernel: SIM,
        budget: 9,
        lanes: one_lane(alloc, rows)?,
        end: 0,
    };
    let sys = with_pool(alloc)?;
    end_stands(alloc, &sys, &j)
}

/// How many entries a deferred list with room for one has after records of object 1, if each may stand.
fn left(alloc: Global, rows: Part) -> Result<Option<usize>, AllocError> {
    let records = records(alloc, rows)?;
    match kept(alloc, 1, 1, &records)? {
        Some(list) => Ok(Some(list.items.len())),
        None => Ok(None),
    }
}

/// A journal of two lanes of this kernel.
fn of_two_lanes(alloc: Global, kernel: u8) -> Result<Journal, AllocError> {
    Ok(journal(kernel, 0, two_lanes(alloc, ONE_STEP, POST_IN_1)?))
}

fn are_two(alloc: Global, kernel: u8) -> Result<bool, AllocError> {
    let j = of_two_lanes(alloc, kernel)?;
    let sys = system(alloc, &[1])?;
    let stim = one_stimulus(alloc, false)?;
    Ok(count_stands(&sys, &stim, &j))
}

fn answer(alloc: Global, case: &Case) -> Result<bool, AllocError> {
    match case {
        Case::Kernel(priorities, kernel, end, lane0, source) => {
            is_lane_of_kernel(alloc, priorities, *kernel, *end, lane0, source)
        }
        Case::Order(settles, lane0, source) => is_order(alloc, *settles, lane0, source),
        Case::End(end, lane0, source) => ends(alloc, *end, lane0, source),
        Case::QuietEnd(rows) => ends_quietly(alloc, rows),
        Case::Spents(rows) => Ok(spents_are_seen(&records(alloc, rows)?)),
        Case::Spills(rows) => Ok(spills_stand(&records(alloc, rows)?)),
        Case::Deferred(rows, count) => Ok(left(alloc, rows)? == Some(*count)),
        Case::Defers(rows) => Ok(left(alloc, rows)?.is_some()),
        Case::TwoLanes(kernel) => are_two(alloc, *kernel),
        Case::LaneZero(kernel) => Ok(lane_zero_stands(&of_two_lanes(alloc, *kernel)?)),
    }
}

#[test]
fn runs(rt: HostRuntime) {
    for (what, case, want) in CASES {
        assert!(rt; answer(rt.alloc(), case) == Ok(*want), "{what}");
    }
}
