//! Defects: journals of runs with some lines changed, each with the definition that it breaks first.

use crate::asking::verdict;
use anyhow::Result;
use qp_tables::blocks::Block;
use qp_tables::changes::{Change, changed};
use qp_tables::files::{Table, print_case};
use qp_tables::runs::{Run, Texts};
use std::alloc::Global;
use std::sync::Wait;
use std::thread::Threads;

/// The keys that each defect has once.
const KEYS: [&str; 4] = ["defect", "run", "verdict", "why"];

/// The changes of a defect.
fn changes<'a>(alloc: Global, table: &Table, block: &Block<'a>) -> Result<Vec<Change<'a>>> {
    let mut changes = Vec::new(alloc);
    for line in &block.lines {
        match Change::of_line(*line) {
            Some(change) => changes.push(change)?,
            None if KEYS.contains(&line.key) => {}
            None => return Err(table.fault(line.place, "no line of a defect")),
        }
    }
    Ok(changes)
}

/// The texts of the run of this name, if there is one.
fn texts_of(rt: &HostRuntime, runs: &[Run], name: &str) -> Result<Option<Texts>> {
    for run in runs {
        if run.name == name {
            return Ok(Some(run.texts(rt)?));
        }
    }
    Ok(None)
}

/// Prints what is said of a defect of a lawful run, or of one beside other files.
pub fn show<R: Threads + Wait + Sync>(
    rt: &HostRuntime,
    waits: &R,
    table: &Table,
    block: &Block,
    lawful: &[Run],
    beside: &[Run],
) -> Result<()> {
    let name = block.value(table, "defect")?;
    let run = block.value(table, "run")?;
    let wanted = block.value(table, "verdict")?;
    block.value(table, "why")?;
    let mut texts = texts_of(rt, lawful, run)?;
    if texts.is_none() {
        texts = texts_of(rt, beside, run)?;
    }
    let Some(texts) = texts else {
        return Err(table.fault(block.place(), "its run is in no table"));
    };
    let changes = changes(rt.alloc(), table, block)?;
    let journal = changed(rt.alloc(), table, texts.journal.as_str(), &changes)?;
    let said = verdict(
        waits,
        rt.alloc(),
        texts.system.as_str(),
        texts.stimuli.as_str(),
        journal.as_str(),
    )?;
    print_case(rt, name, said.as_str(), wanted)
}
