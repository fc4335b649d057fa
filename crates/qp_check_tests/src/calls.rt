//! The records of a call, read one by one.

use crate::lines::Line::{Back, Dropped, Flush, Given, Posted, Raised, Referred, Restored, Shown};
use crate::lines::{Line, POOLED_7, no_pars, system, told};
use qp_check_calls::{Answer, Call, CallState, Kept};
use qp_model::Entry;
use std::alloc::{AllocError, Global};

/// What object 1 leaves behind these records, and nothing where one of them doesn't fit.
fn behind(
    alloc: Global,
    kept: Kept,
    call: Call,
    lines: &[Line],
) -> Result<Option<CallState>, AllocError> {
    let sys = system(alloc)?;
    let mut rest = CallState::begin(1, kept, call);
    for line in lines {
        match rest.next(&sys, 1, None, &told(line))? {
            Some(next) => rest = next,
            None => return Ok(None),
        }
    }
    Ok(Some(rest))
}

fn post() -> Call {
    Call::Post {
        to: 1,
        sig: 5,
        pars: no_pars(),
        margin: Some(0),
        reserve: None,
    }
}

fn publish() -> Call {
    Call::Publish {
        sig: 5,
        pars: no_pars(),
        reserve: None,
    }
}

const OTHER: Entry = Entry {
    pool: 1,
    block: 0,
    name: 8,
};

const POSTED_4: Entry = Entry {
    pool: 1,
    block: 0,
    name: 4,
};

/// A publication to the lamp: its own reference, the set, the ceiling, the post with a reference, and all back.
const PUBLICATION: [Line; 8] = [
    Given,
    Referred(3),
    Shown(5, 1),
    Raised(1),
    Referred(4),
    Posted(1, POSTED_4),
    Restored,
    Dropped(3, 1),
];

/// Whether the call is a publication or a post, its records, and whether they grant it. A post draws a block, refers to it and posts that
/// reference.
const CALLS: &[(bool, &[Line], bool)] = &[
    (false, &[Given, Referred(7), Posted(1, POOLED_7)], true),
    (false, &[Given, Referred(7), Posted(1, OTHER)], false),
    (false, &[Given, Referred(7)], false),
    (true, &PUBLICATION, true),
];

/// What the call answers by its records.
fn answer(alloc: Global, publishes: bool, lines: &[Line]) -> Option<Answer> {
    let call = if publishes { publish() } else { post() };
    match behind(alloc, Kept::none(alloc), call, lines) {
        Ok(Some(rest)) => rest.answer(),
        _ => None,
    }
}

/// Whether the call is granted, or else answers nothing.
fn is_answered(alloc: Global, publishes: bool, lines: &[Line], is_granted: bool) -> bool {
    answer(alloc, publishes, lines) == is_granted.then_some(Answer::Granted)
}

/// The first call that is answered otherwise.
fn first_wrong(alloc: Global) -> Option<usize> {
    for (i, (publishes, lines, is_granted)) in CALLS.iter().enumerate() {
        if !is_answered(alloc, *publishes, lines, *is_granted) {
            return Some(i);
        }
    }
    None
}

#[test]
fn calls(rt: HostRuntime) {
    let wrong = first_wrong(rt.alloc());
    assert!(rt; wrong.is_none(), "case {wrong:?}");
}

/// Whether a flush takes the entry that is kept; its block comes back.
fn flushes(alloc: Global) -> bool {
    let mut kept = Kept::none(alloc);
    if kept.items.push_back(POOLED_7).is_err() {
        return false;
    }
    let lines = [Flush(POOLED_7), Dropped(7, 0), Back(2)];
    match behind(alloc, kept, Call::Flush, &lines) {
        Ok(Some(rest)) => {
            rest.answer() == Some(Answer::Flushed { n: 1 }) && rest.into_kept().len() == 0
        }
        _ => false,
    }
}

#[test]
fn a_flush_takes_what_is_kept(rt: HostRuntime) {
    assert!(rt; flushes(rt.alloc()));
}
