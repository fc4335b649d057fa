//! Trials as texts.

use crate::actor::End;
use crate::step_trial::{Report, Trial};
use qp_model::Rec;
use qp_model::vocabulary::word_text;
use std::alloc::AllocError;

/// A record as a line: its word, its object and its numbers.
fn put_record(text: &mut String, rec: &Rec) -> Result<(), AllocError> {
    if rec.kind >= 1 && rec.kind <= 46 {
        text.push_str(word_text(rec.kind))?;
    }
    write!(text, " {}", rec.of)?;
    for n in &rec.nums {
        write!(text, " {n}")?;
    }
    Ok(())
}

/// Records, with commas between them.
fn put_records(text: &mut String, records: &[Rec]) -> Result<(), AllocError> {
    for rec in records {
        text.push_str(if text.is_empty() { "" } else { ", " })?;
        put_record(text, rec)?;
    }
    Ok(())
}

fn word_of(end: End) -> &'static str {
    match end {
        End::Empty => "empty",
        End::Left => "left",
        End::Stopped => "stopped",
        End::Memory => "memory",
        End::Refused => "refused",
    }
}

/// A number behind its word, where there is one.
fn put_some(text: &mut String, word: &str, number: Option<u8>) -> Result<(), AllocError> {
    match number {
        Some(n) => write!(text, "{word} {n}"),
        None => Ok(()),
    }
}

fn put_vars(text: &mut String, vars: &[i64]) -> Result<(), AllocError> {
    text.push_str(if vars.is_empty() { "" } else { " vars" })?;
    for x in vars {
        write!(text, " {x}")?;
    }
    Ok(())
}

/// How a trial ended, and what its object showed: `empty leaf 6 taken 1 vars 2 3`.
fn put_report(text: &mut String, report: &Report) -> Result<(), AllocError> {
    text.push_str(word_of(report.end))?;
    put_some(text, "", report.stopped)?;
    put_some(text, " leaf", report.leaf)?;
    write!(text, " taken {}", report.taken)?;
    put_vars(text, report.vars.as_slice())
}

/// The records of a trial behind so many, and its report on a line of its own.
pub(crate) fn put_trial(
    text: &mut String,
    trial: &Trial,
    skipped: usize,
) -> Result<(), AllocError> {
    for lane in trial.lanes.items.iter() {
        put_records(text, lane.items.get(skipped..).unwrap_or(&[]))?;
    }
    text.push_str("\n")?;
    put_report(text, &trial.report)
}
