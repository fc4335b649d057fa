//! What a journal knows beside a record, cuts, home lanes, and words that no system has.

use crate::samples::{Part, Row, SIM, journal, nothing, one_lane, records};
use qp_check_calls::Cut;
use qp_check_knowledge::known_tables::{free_counts, left_counts, member_lists, number_at};
use qp_check_knowledge::told_cut::cut_of;
use qp_check_knowledge::told_home::is_home_lane;
use qp_check_lanes::groups::Group;
use qp_check_words::records_by_word::RecordsByWord;
use qp_model::kinds::{BACK, DEC, DONE, INC, NEW, NIL, SPILL, SUB};
use qp_model::{Named, Rec};
use std::alloc::{AllocError, Global};

/// Records on pool 9, which no system of the test has: the marks are 2, 1 and 3.
const UNDECLARED: Part = &[
    (BACK, 1, &[9, 1, 3, 2]),
    (NEW, 1, &[9, 0, 3, 0, 4]),
    (INC, 1, &[9, 3, 0]),
    (NEW, 1, &[9, 2, 5, 0, 4]),
];

/// A block is given out and comes back.
const BLOCK: Part = &[(NEW, 1, &[1, 0, 0, 0, 4]), (BACK, 1, &[1, 1, 0, 3])];

/// Two references are made, and one is dropped.
const REFERENCES: Part = &[
    (INC, 1, &[1, 0, 0]),
    (INC, 1, &[1, 0, 1]),
    (DEC, 1, &[1, 0, 2, 0]),
];

const SUBSCRIBED: Part = &[(SUB, 2, &[4, 0])];

/// How many records a pool has, whether its marks rise, and how many it has in all, on block 3 and on block 4 if it has any.
type OfPool = (usize, bool, Option<(usize, usize, usize)>);

/// What is asked of records, and what is answered.
enum Case {
    /// Records on words that no system has are found by word, and those of a pool by block.
    Pool(u64, OfPool),
    /// How many records the history of block 3 of pool 9 has.
    History(usize),
    /// Operations of a pool of two blocks: how many blocks are free after so many of them.
    Free(Part, usize, u64),
    /// Operations of a block: how many references stand after so many of them.
    Left(Part, usize, u64),
    /// Operations of a signal: how many lists of members there are, before and after them.
    Lists(Part, usize),
    /// A lane of a run that stopped, an object, and how that is cut: a `spill` cuts the object whose record stands before it, as the last
    /// of the lane.
    CutOf(Part, u8, Cut),
    /// Whether records are a home lane.
    Home(Part, bool),
}

const CASES: &[Case] = &[
    Case::Pool(9, (3, false, Some((3, 2, 0)))),
    Case::Pool(8, (0, true, None)),
    Case::History(1),
    Case::Free(BLOCK, 0, 2),
    Case::Free(BLOCK, 1, 1),
    Case::Free(BLOCK, 9, 2),
    Case::Left(REFERENCES, 2, 2),
    Case::Left(REFERENCES, 3, 1),
    Case::Lists(SUBSCRIBED, 2),
    Case::CutOf(
        &[(DONE, 2, &[]), (DONE, 1, &[]), (SPILL, 0, &[2])],
        1,
        Cut::Anywhere,
    ),
    Case::CutOf(
        &[(DONE, 2, &[]), (DONE, 1, &[]), (SPILL, 0, &[2])],
        2,
        Cut::Stopped,
    ),
    Case::CutOf(
        &[(DONE, 1, &[]), (SPILL, 0, &[1]), (SPILL, 0, &[2])],
        1,
        Cut::Stopped,
    ),
    Case::Home(&[(DONE, 1, &[]), (NIL, 1, &[0, 0, 0])], true),
    // A `nil` twice.
    Case::Home(&[(NIL, 1, &[0, 0, 0]), (NIL, 1, &[0, 0, 0])], false),
];

fn of_pool(records: &RecordsByWord, p: u64) -> OfPool {
    let by_block = match records.pool(p) {
        Some(pool) => Some((
            pool.all().items.len(),
            pool.on(3).items.len(),
            pool.on(4).items.len(),
        )),
        None => None,
    };
    let word = Named::Pool { p };
    (records.on(word).items.len(), records.rise(word), by_block)
}

fn found(alloc: Global, p: u64) -> Result<OfPool, AllocError> {
    let lanes = one_lane(alloc, UNDECLARED)?;
    let records = RecordsByWord::of(alloc, &lanes)?;
    Ok(of_pool(&records, p))
}

fn history(alloc: Global, word: Named) -> Result<usize, AllocError> {
    let lanes = one_lane(alloc, UNDECLARED)?;
    let records = RecordsByWord::of(alloc, &lanes)?;
    Ok(records.history(alloc, word)?.items.len())
}

fn group<'a>(alloc: Global, records: &'a [Rec]) -> Result<Group<'a>, AllocError> {
    let mut group = Group::new(alloc);
    for r in records {
        group.put(r)?;
    }
    Ok(group)
}

/// How many blocks are free, or how many references stand.
fn counts(alloc: Global, is_pool: bool, records: &[Rec]) -> Result<Vec<u64>, AllocError> {
    let group = group(alloc, records)?;
    if is_pool {
        free_counts(alloc, 2, &group)
    } else {
        left_counts(alloc, &group)
    }
}

fn count(alloc: Global, is_pool: bool, rows: &[Row], n: usize) -> Result<u64, AllocError> {
    let records = records(alloc, rows)?;
    let counts = counts(alloc, is_pool, &records)?;
    Ok(number_at(&counts, n))
}

fn lists(alloc: Global, rows: &[Row]) -> Result<usize, AllocError> {
    let records = records(alloc, rows)?;
    let group = group(alloc, &records)?;
    Ok(member_lists(alloc, &group)?.len())
}

fn cut(alloc: Global, rows: &[Row], o: u8) -> Result<Cut, AllocError> {
    let j = journal(SIM, 4, one_lane(alloc, rows)?);
    Ok(cut_of(&nothing(alloc), &j, o))
}

fn is_home(alloc: Global, rows: &[Row]) -> Result<bool, AllocError> {
    let records = records(alloc, rows)?;
    is_home_lane(alloc, 1, 2, false, &records)
}

fn stands(alloc: Global, case: &Case) -> Result<bool, AllocError> {
    Ok(match case {
        Case::Pool(p, want) => found(alloc, *p)? == *want,
        Case::History(want) => history(alloc, Named::Block { p: 9, b: 3 })? == *want,
        Case::Free(rows, n, want) => count(alloc, true, rows, *n)? == *want,
        Case::Left(rows, n, want) => count(alloc, false, rows, *n)? == *want,
        Case::Lists(rows, want) => lists(alloc, rows)? == *want,
        Case::CutOf(rows, o, want) => cut(alloc, rows, *o)? == *want,
        Case::Home(rows, want) => is_home(alloc, rows)? == *want,
    })
}

/// The first case of which something else is answered.
fn first_wrong(alloc: Global) -> Option<usize> {
    for (i, case) in CASES.iter().enumerate() {
        if stands(alloc, case) != Ok(true) {
            return Some(i);
        }
    }
    None
}

#[test]
fn told(rt: HostRuntime) {
    let wrong = first_wrong(rt.alloc());
    assert!(rt; wrong.is_none(), "case {wrong:?}");
}
