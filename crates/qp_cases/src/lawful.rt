//! Lawful runs.

use crate::asking::verdict;
use anyhow::Result;
use qp_tables::files::print_case;
use qp_tables::runs::Run;
use std::sync::Wait;
use std::thread::Threads;

/// Prints what is said of a run, which is lawful.
pub fn show<R: Threads + Wait + Sync>(rt: &HostRuntime, waits: &R, run: &Run) -> Result<()> {
    let texts = run.texts(rt)?;
    let said = verdict(
        waits,
        rt.alloc(),
        texts.system.as_str(),
        texts.stimuli.as_str(),
        texts.journal.as_str(),
    )?;
    print_case(rt, run.name, said.as_str(), "lawful")
}
