//! Lanes after acts, beside the records that the acts leave.

ghost use Rattle.std.specs.Prelude.{◌≡◌, ◌<◌, ◌≤◌, IfOk};
ghost use Rattle.qp_model.specs.Sound.{IsSound};

use crate::acts::{Kind, Run};
use crate::desk::{Act, play};
use crate::ends::End;
use crate::shown::put_lanes;
use qp_calls::Deferred;
use qp_model::{Lanes, System};
use qp_plain::PlainWorld;
use qp_system::system_of_bytes;
use std::alloc::{AllocError, Global};
use std::marker::Brand;
use std::sync::Wait;
use std::sync::ledger::Blank;
use std::test::Fail;

/// The records that acts must leave in a lane, in their order. One lane has them all.
fn put_wanted(
    text: &mut String,
    lanes: u32,
    lane: u32,
    acts: &[Act<'_>],
) -> Result<(), AllocError> {
    let mut between = "";
    for act in acts {
        if !act.leaves().is_empty() && (lanes == 1 || act.lane() == lane) {
            text.push_str(between)?;
            text.push_str(act.leaves())?;
            between = ", ";
        }
    }
    Ok(())
}

/// The lanes that acts must leave, with lines between them.
fn wanted(alloc: Global, lanes: u32, acts: &[Act<'_>]) -> Result<String, AllocError> {
    let mut text = String::new(alloc);
    for lane in 0..lanes {
        text.push_str(if lane == 0 { "" } else { "\n" })?;
        put_wanted(&mut text, lanes, lane, acts)?;
    }
    Ok(text)
}

/// The system of a file.
fn read(alloc: Global, file: &str) -> Result<System, Fail>
    ensures { IfOk result (λ sys. IsSound sys) }
{
    Ok(system_of_bytes(alloc, file.as_bytes())?)
}

/// A system of the tests.
pub(crate) fn system_of(alloc: Global, kind: Kind) -> Result<System, Fail>
    ensures { IfOk result (λ sys. IsSound sys) }
{
    let file = kind.file(alloc)?;
    read(alloc, file.as_str())
}

/// The records after a run in so many lanes. All of it must be done, up to an assertion.
fn played<R: Wait>(rt: &R, alloc: Global, sys: &System, lanes: u32, run: &Run<'_>) -> Option<Lanes>
    requires sound { IsSound sys.now }
    requires some { 0 < lanes }
    requires few { lanes ≤ 49 }
{
    let Ok(mut world) = PlainWorld::new(alloc, sys, lanes) else {
        return None;
    };
    let Ok(mut list) = Deferred::new(alloc, run.defer) else {
        return None;
    };
    match play::<Brand, R>(rt, &mut world, sys, &mut list, run.acts, Blank::new(1)) {
        End::Refused => None,
        _ => Some(world.finish()),
    }
}

/// The lanes that a run leaves, with lines between them.
fn found<R: Wait>(rt: &R, alloc: Global, lanes: u32, run: &Run<'_>) -> Result<String, Fail>
    requires some { 0 < lanes }
    requires few { lanes ≤ 49 }
{
    let sys = system_of(alloc, run.system)?;
    let Some(records) = played(rt, alloc, &sys, lanes, run) else {
        return Err(Fail::from("refused"));
    };
    let mut text = String::new(alloc);
    put_lanes(&mut text, &records)?;
    Ok(text)
}

/// Does the acts of a run in so many lanes, and fails with its name and the lanes found where they aren't those wanted.
fn see_lanes<R: Wait>(rt: &R, alloc: Global, lanes: u32, run: &Run<'_>) -> Result<(), Fail>
    requires some { 0 < lanes }
    requires few { lanes ≤ 49 }
{
    let text = found(rt, alloc, lanes, run)?;
    if text.as_str() == wanted(alloc, lanes, run.acts)?.as_str() {
        return Ok(());
    }
    Err(Fail::new(format_args!("{}: {text}", run.name)))
}

/// Sees a run in one lane and in two.
pub(crate) fn see<R: Wait>(rt: &R, alloc: Global, run: &Run<'_>) -> Result<(), Fail> {
    see_lanes(rt, alloc, 1, run)?;
    see_lanes(rt, alloc, 2, run)
}

/// Sees each run of a table.
pub(crate) fn see_all<R: Wait>(rt: &R, alloc: Global, runs: &[Run<'_>]) -> Result<(), Fail> {
    for run in runs {
        see(rt, alloc, run)?;
    }
    Ok(())
}
