//! All cases, table by table.

use crate::levels::{STEPS, THERE_AND_BACK};
use crate::publications::{CUTS, WHOLE};
use crate::refusals::{see_asserted, see_refused, see_start};
use crate::step_bench::{see, see_all, see_points};
use crate::{answers, guards, locked, step_full};
use std::test::Fail;

#[test]
fn objects_leave_their_records(rt: HostRuntime) -> Result<(), Fail> {
    let alloc = rt.alloc();
    see_all(&rt, alloc, STEPS)?;
    see_all(&rt, alloc, guards::CASES)?;
    see_all(&rt, alloc, answers::CASES)?;
    see_refused(&rt, alloc)?;
    see_asserted(&rt, alloc)?;
    see_start(&rt, alloc)?;
    see_all(&rt, alloc, CUTS)?;
    see(&rt, alloc, &locked::RAISED)?;
    see_all(&rt, alloc, step_full::CASES)
}

/// Transitions over six levels and a publication, whole, and ended at each of their scheduling points. The leaf is the former one until its
/// step is done.
#[test]
fn objects_end_at_any_point(rt: HostRuntime) -> Result<(), Fail> {
    let alloc = rt.alloc();
    see(&rt, alloc, &THERE_AND_BACK)?;
    see_points(&rt, alloc, &THERE_AND_BACK, 1, 14, "left leaf 6 taken 1")?;
    see_points(&rt, alloc, &THERE_AND_BACK, 15, 31, "left leaf 12 taken 2")?;
    see(&rt, alloc, &WHOLE)?;
    see_points(&rt, alloc, &WHOLE, 1, 6, "left leaf 1 taken 1")
}
