//! Runs by their names, with the files of their systems, stimuli and journals.

use crate::files::{Table, text};
use anyhow::Result;
use std::alloc::Global;

/// A run, and the names of its files.
#[derive(Clone, Copy)]
pub struct Run<'a> {
    pub name: &'a str,
    system: &'a str,
    stimuli: &'a str,
    journal: &'a str,
}

/// The texts of a run's files.
#[derive(Drop)]
pub struct Texts {
    pub system: String,
    pub stimuli: String,
    pub journal: String,
}

impl Run<'_> {
    /// Reads its files.
    pub fn texts(&self, rt: &HostRuntime) -> Result<Texts> {
        let Run {
            system,
            stimuli,
            journal,
            ..
        } = *self;
        Ok(Texts {
            system: text(rt, format!(in rt.alloc(); "systems/{system}")?.as_str())?,
            stimuli: text(rt, format!(in rt.alloc(); "stimuli/{stimuli}")?.as_str())?,
            journal: text(rt, format!(in rt.alloc(); "journals/{journal}")?.as_str())?,
        })
    }
}

/// The runs of a table, whose lines have four cells parted by tabs. Its first line names the cells.
pub fn of_table(alloc: Global, table: &Table) -> Result<Vec<Run<'_>>> {
    let mut runs = Vec::new(alloc);
    for (i, line) in table.text.lines().enumerate() {
        let Some(run) = of_line(line) else {
            return Err(table.fault(i.saturating_add(1), "not four cells"));
        };
        if i == 0 && line != "name\tsystem\tstimuli\tjournal" {
            return Err(table.fault(1, "not the names of the cells"));
        }
        if i > 0 {
            runs.push(run)?;
        }
    }
    Ok(runs)
}

fn of_line(line: &str) -> Option<Run<'_>> {
    let mut cells = line.split('\t');
    let run = Run {
        name: cells.next()?,
        system: cells.next()?,
        stimuli: cells.next()?,
        journal: cells.next()?,
    };
    match cells.next() {
        None => Some(run),
        Some(_) => None,
    }
}
