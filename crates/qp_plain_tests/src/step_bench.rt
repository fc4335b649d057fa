//! Trials beside the texts that they must leave.

ghost use Rattle.std.specs.Prelude.{IfOk};
ghost use Rattle.qp_model.specs.Sound.{IsSound};

use crate::step_trial::{Plan, run};
use crate::steps_shown::put_trial;
use qp_model::System;
use qp_system::system_of_bytes;
use std::alloc::{AllocError, Global};
use std::sync::Wait;
use std::test::Fail;

/// A trial, and what it must leave.
#[derive(Clone, Copy)]
pub(crate) struct Case<'a> {
    pub(crate) name: &'a str,
    /// The system's file, in parts.
    pub(crate) system: &'a [&'a str],
    pub(crate) plan: Plan<'static>,
    /// The records of its lane, but for the notes before all else. They stand in groups, of which the Nth ends with scheduling point N,
    /// counted from 0, where the trial may end there.
    pub(crate) records: &'a [&'a str],
    /// How it ended, and what its object showed.
    pub(crate) report: &'a str,
}

/// Object 1 takes entries until its queue is empty.
pub(crate) const PLAIN: Plan<'static> = Plan {
    me: 1,
    notes: 0,
    posts: &[],
    others: &[],
    until: 0,
};

/// The text that a case wants. A trial that is ended at a scheduling point leaves the groups up to there.
fn wanted(alloc: Global, case: &Case<'_>) -> Result<String, AllocError> {
    let until = case.plan.until as usize;
    let groups = if until == 0 {
        case.records
    } else {
        case.records.get(..until + 1).unwrap_or(&[])
    };
    let mut text = groups.join(alloc, ", ")?;
    text.push_str("\n")?;
    text.push_str(case.report)?;
    Ok(text)
}

/// The system of a file.
fn read(alloc: Global, file: &str) -> Result<System, Fail>
    ensures { IfOk result (λ sys. IsSound sys) }
{
    Ok(system_of_bytes(alloc, file.as_bytes())?)
}

/// The system of a file in parts.
fn system_of(alloc: Global, parts: &[&str]) -> Result<System, Fail>
    ensures { IfOk result (λ sys. IsSound sys) }
{
    let file = parts.concat(alloc)?;
    read(alloc, file.as_str())
}

/// The text that a trial leaves: its records, and its report on a line of its own.
fn found<R: Wait>(rt: &R, alloc: Global, case: &Case<'_>) -> Result<String, Fail> {
    let sys = system_of(alloc, case.system)?;
    let Some(trial) = run(rt, alloc, &sys, &case.plan) else {
        return Err(Fail::from("refused"));
    };
    let mut text = String::new(alloc);
    put_trial(&mut text, &trial, case.plan.notes as usize)?;
    Ok(text)
}

/// Fails with a case's name and what its trial left, where that isn't what it must leave.
pub(crate) fn see<R: Wait>(rt: &R, alloc: Global, case: &Case<'_>) -> Result<(), Fail> {
    let text = found(rt, alloc, case)?;
    if text.as_str() == wanted(alloc, case)?.as_str() {
        return Ok(());
    }
    Err(Fail::new(format_args!("{}: {text}", case.name)))
}

/// Sees each case of a table.
pub(crate) fn see_all<R: Wait>(rt: &R, alloc: Global, cases: &[Case<'_>]) -> Result<(), Fail> {
    for case in cases {
        see(rt, alloc, case)?;
    }
    Ok(())
}

/// Sees a case ended at each scheduling point from the first to the last, where its trial has this report.
pub(crate) fn see_points<R: Wait>(
    rt: &R,
    alloc: Global,
    case: &Case<'_>,
    first: u32,
    last: u32,
    report: &str,
) -> Result<(), Fail> {
    for until in first..=last {
        let plan = Plan { until, ..case.plan };
        see(
            rt,
            alloc,
            &Case {
                plan,
                report,
                ..*case
            },
        )?;
    }
    Ok(())
}
