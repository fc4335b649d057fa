//! Evidence for the whole program: what it says of journals and files that stand in tables, one line a case.
//!
//! The tables of `data/` were worked out by hand from the definitions and the formats, with the answer of each case. A line has the
//! case's name and what the program answered; where the table says something else the line ends with `wrong`. A table that can't be
//! read ends the program with its name and line.
#![tactic(auto)]

use anyhow::Result;
use qp_cases::{answers, defects, lawful};
use qp_tables::files::Table;
use qp_tables::{blocks, runs};
use std::sync::Wait;
use std::thread::Threads;

/// The tables of words over files, with what is answered.
const ANSWERS: [&str; 12] = [
    "words.txt",
    "runs.txt",
    "summaries.txt",
    "threads.txt",
    "checks.txt",
    "replays.txt",
    "orders.txt",
    "conversions.txt",
    "system-faults.txt",
    "charts.txt",
    "stimulus-faults.txt",
    "journal-faults.txt",
];

fn main(rt: HostRuntime) -> Result<()> {
    show_verdicts(&rt, &rt)?;
    for name in ANSWERS {
        let table = Table::read(&rt, name)?;
        for block in &blocks::of_table(rt.alloc(), &table)? {
            answers::show(&rt, &rt, &table, block)?;
        }
    }
    Ok(())
}

/// Prints what is said of the lawful runs and of their defects.
fn show_verdicts<R: Threads + Wait + Sync>(rt: &HostRuntime, waits: &R) -> Result<()> {
    let alloc = rt.alloc();
    let lawful = Table::read(rt, "lawful.txt")?;
    let beside = Table::read(rt, "beside.txt")?;
    let lawful = runs::of_table(alloc, &lawful)?;
    let beside = runs::of_table(alloc, &beside)?;
    for run in &lawful {
        lawful::show(rt, waits, run)?;
    }
    let defects = Table::read(rt, "defects.txt")?;
    for block in &blocks::of_table(alloc, &defects)? {
        defects::show(rt, waits, &defects, block, &lawful, &beside)?;
    }
    Ok(())
}
