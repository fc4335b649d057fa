//! The lane of a source: its stimuli, its tries, and where it may stop.

use crate::lines::{plain, system};
use crate::samples::{Part, records};
use qp_check_calls::Told;
use qp_check_ends::{Stops, is_source_lane, may_stop, spill_stands};
use qp_model::kinds::{FIRE, IDLE, SEEN, SETTLE, STIM};
use qp_model::{Rec, Stim};
use std::alloc::{AllocError, Global};

/// A tick, and then a settle.
const STIMULI: [Stim; 2] = [Stim::Tick { rate: 0 }, Stim::Settle];

/// The tick finds the time event idle. The settle is tried while an entry waits, and where none does.
const TRIES: Part = &[
    (STIM, 0, &[1, 0]),
    (IDLE, 0, &[1, 0]),
    (STIM, 0, &[2, 0]),
    (SETTLE, 0, &[]),
    (SEEN, 0, &[1, 1, 0, 0]),
    (SETTLE, 0, &[]),
    (SEEN, 0, &[1, 1, 0, 1]),
];

/// A timer that fired has yet to post.
const FIRED: Part = &[(STIM, 0, &[1, 0]), (FIRE, 0, &[1, 0, 0])];

fn told(alloc: Global, lane: &[Rec]) -> Result<Vec<Told>, AllocError> {
    let mut all = Vec::new(alloc);
    for r in lane {
        all.push(plain(r.body()))?;
    }
    Ok(all)
}

fn told_of(alloc: Global, rows: Part) -> Result<Vec<Told>, AllocError> {
    let lane = records(alloc, rows)?;
    told(alloc, &lane)
}

/// Whether these are the records of the source, under a kernel.
fn is_lane(alloc: Global, kernel: u8, rows: Part) -> Result<bool, AllocError> {
    let sys = system(alloc)?;
    let lane = records(alloc, rows)?;
    let told = told(alloc, &lane)?;
    is_source_lane(alloc, &sys, kernel, 0, &STIMULI, &lane, told.as_slice())
}

/// Where the lane may stop behind these records.
fn stops(alloc: Global, rows: Part) -> Result<Stops, AllocError> {
    let sys = system(alloc)?;
    let told = told_of(alloc, rows)?;
    may_stop(alloc, &sys, 1, &STIMULI, told.as_slice())
}

/// Whether the lane may stop behind these records, within a stimulus.
fn stops_within(alloc: Global, rows: Part) -> bool {
    match stops(alloc, rows) {
        Ok(stops) => stops.in_stimulus && !stops.all_done && !stops.before_stimulus,
        Err(_) => false,
    }
}

/// Whether a `spill` that cuts a stimulus may stand behind these records, or else one behind a whole stimulus.
fn may_spill(alloc: Global, cuts: bool, rows: Part) -> Result<bool, AllocError> {
    let sys = system(alloc)?;
    let told = told_of(alloc, rows)?;
    spill_stands(alloc, &sys, 1, cuts, &STIMULI, told.as_slice())
}

/// A settle is tried in vain where a run has threads, and no two tries look alike.
#[test]
fn tries(rt: HostRuntime) {
    for (kernel, want) in &[(1, true), (0, false)] {
        assert!(rt;
            is_lane(rt.alloc(), *kernel, TRIES) == Ok(*want),
            "kernel {kernel}"
        );
    }
}

/// A lane stops and is cut within a stimulus that has yet to post.
#[test]
fn cuts(rt: HostRuntime) {
    assert!(rt; stops_within(rt.alloc(), FIRED));
    for cuts in &[true, false] {
        assert!(rt; may_spill(rt.alloc(), *cuts, FIRED) == Ok(*cuts));
    }
}
