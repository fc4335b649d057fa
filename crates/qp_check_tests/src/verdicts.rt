//! The judge at journals that no text gives: their records and lanes are as no run makes them.

ghost use Rattle.std.specs.Prelude.{◌≤◌, length, IfOk};
ghost use Rattle.qp_check.specs.Judgeable.{IsJudgeable};

use crate::samples::{Part, Parts, SIM, go, journal, lanes, nothing, signal, stimuli};
use qp_check::{Site, Verdict, check};
use qp_model::kinds::{END, LANE, LOOK, PUB, QP, REST, STIM};
use qp_model::{Journal, Stim, System};
use std::alloc::{AllocError, Global};

/// A static signal, 4, and no object.
fn system(alloc: Global) -> Result<System, AllocError>
    ensures { IfOk result IsJudgeable }
{
    let mut sys = nothing(alloc);
    sys.signals.items.push(signal("GO", 0, true))?;
    Ok(sys)
}

/// What is said of a journal beside one source, which publishes the signal once.
fn judged(alloc: Global, sys: &System, j: &Journal) -> Result<Verdict, AllocError>
    requires { IsJudgeable sys.now }
{
    let publish = Stim::Publish {
        ev: go(),
        reserve: None,
    };
    let stim = stimuli(alloc, publish)?;
    match check(alloc, sys, &stim, j) {
        Ok(verdict) => Ok(verdict),
        Err(_) => Err(AllocError),
    }
}

fn verdict(alloc: Global, kernel: u8, all: &[Parts], end: u8) -> Result<Verdict, AllocError> {
    let j = journal(kernel, end, lanes(alloc, all)?);
    let sys = system(alloc)?;
    judged(alloc, &sys, &j)
}

/// The look in which the source publishes.
const LOOK_1: Part = &[(LOOK, 0, &[1, 0])];

/// The last one.
const LOOK_2: Part = &[(LOOK, 0, &[2, 0])];

/// The stimulus of the source.
const STIMULUS: Part = &[(STIM, 0, &[1, 1])];

/// The signal is published to nobody.
const PUBLISHED: Part = &[(PUB, 0, &[4, 0, 0])];

/// Lane 0, and the lane of the source.
const LOOKS: Parts = &[LOOK_1, LOOK_2];

const SOURCE: Parts = &[STIMULUS, PUBLISHED];

const NOT_OF_KERNEL: Verdict = Verdict::Broken {
    definition: 19,
    site: Site::Lane(0),
};

const NOT_OF_SOURCE: Verdict = Verdict::Broken {
    definition: 20,
    site: Site::Lane(1),
};

const NOT_ITS_LANES: Verdict = Verdict::Broken {
    definition: 20,
    site: Site::Whole,
};

const NOT_ITS_END: Verdict = Verdict::Broken {
    definition: 21,
    site: Site::Whole,
};

/// A kernel, lanes, an end, and what is said.
type Case = (u8, &'static [Parts], u8, Verdict);

const JOURNALS: [Case; 21] = [
    (SIM, &[LOOKS, SOURCE], 0, Verdict::Lawful),
    // A record that says nothing stands in no lane of a kernel: its kind is unknown, or one of a journal's head, or it has a number
    // less or more than its kind, or an object that isn't there.
    (
        SIM,
        &[&[LOOK_1, &[(0, 0, &[0, 0, 0])]], SOURCE],
        0,
        NOT_OF_KERNEL,
    ),
    (
        SIM,
        &[&[LOOK_1, &[(QP, 0, &[1, 0])]], SOURCE],
        0,
        NOT_OF_KERNEL,
    ),
    (
        SIM,
        &[&[LOOK_1, &[(LANE, 0, &[1])]], SOURCE],
        0,
        NOT_OF_KERNEL,
    ),
    (
        SIM,
        &[&[LOOK_1, &[(END, 0, &[0])]], SOURCE],
        0,
        NOT_OF_KERNEL,
    ),
    (
        SIM,
        &[&[LOOK_1, &[(LOOK, 0, &[2])]], SOURCE],
        0,
        NOT_OF_KERNEL,
    ),
    (
        SIM,
        &[&[LOOK_1, &[(LOOK, 0, &[2, 0, 0])]], SOURCE],
        0,
        NOT_OF_KERNEL,
    ),
    (
        SIM,
        &[&[LOOK_1, &[(LOOK, 1, &[2, 0])]], SOURCE],
        0,
        NOT_OF_KERNEL,
    ),
    (
        SIM,
        &[&[LOOK_1, &[(REST + 1, 0, &[2])]], SOURCE],
        0,
        NOT_OF_KERNEL,
    ),
    (
        SIM,
        &[&[LOOK_1, &[(255, 0, &[])]], SOURCE],
        0,
        NOT_OF_KERNEL,
    ),
    // Nor in the lane of a source.
    (SIM, &[LOOKS, &[STIMULUS, &[(0, 0, &[])]]], 0, NOT_OF_SOURCE),
    (
        SIM,
        &[LOOKS, &[STIMULUS, &[(LANE, 0, &[1])]]],
        0,
        NOT_OF_SOURCE,
    ),
    (
        SIM,
        &[LOOKS, &[STIMULUS, &[(PUB, 0, &[4, 0])]]],
        0,
        NOT_OF_SOURCE,
    ),
    (
        SIM,
        &[LOOKS, &[STIMULUS, &[(PUB, 0, &[4, 0, 0, 0])]]],
        0,
        NOT_OF_SOURCE,
    ),
    (
        SIM,
        &[LOOKS, &[STIMULUS, &[(PUB, 1, &[4, 0, 0])]]],
        0,
        NOT_OF_SOURCE,
    ),
    (
        SIM,
        &[LOOKS, &[STIMULUS, &[(200, 0, &[4, 0, 0])]]],
        0,
        NOT_OF_SOURCE,
    ),
    // No lane, none of the source, and one that has no source.
    (SIM, &[], 0, NOT_OF_KERNEL),
    (SIM, &[&[LOOK_1]], 0, NOT_OF_SOURCE),
    (SIM, &[LOOKS, SOURCE, &[]], 0, NOT_ITS_LANES),
    // A kernel and an end that have no name.
    (4, &[LOOKS, SOURCE], 0, NOT_OF_KERNEL),
    (SIM, &[LOOKS, SOURCE], 7, NOT_ITS_END),
];

/// The first journal of which something else is said.
fn first_wrong(alloc: Global) -> Option<usize> {
    for (i, (kernel, lanes, end, want)) in JOURNALS.iter().enumerate() {
        if verdict(alloc, *kernel, lanes, *end) != Ok(*want) {
            return Some(i);
        }
    }
    None
}

#[test]
fn journals(rt: HostRuntime) {
    let wrong = first_wrong(rt.alloc());
    assert!(rt; wrong.is_none(), "case {wrong:?}");
}
