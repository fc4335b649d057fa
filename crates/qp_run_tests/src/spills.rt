//! Journals in which a lane has no room left and ends with its `spill`, made line by line.
//!
//! The lamp gets the same event again and again. Its start has 3 records in lane 0, its first step 7, with the look and the queue
//! before it, and each other step 5, since a lamp that is on doesn't handle the event. So 999,990 records stand before the last look, and
//! the last step takes 3 up to its take.

use crate::asked::{NOTHING, World};
use crate::samples::LAMP;
use qp_process::Flow;
use std::alloc::{AllocError, Global};
use std::sync::Wait;
use std::thread::Threads;

/// So many events are posted.
const EVENTS: u64 = 199_998;

/// The start and the first step.
const START: &str = "qp 1 0 1000000
lane 0
begin 1
enter 1 1
done 1
look 0 1 0
seen 0 1 1 0 0
took 1 1 0 1 0 4 0
run 1 1 1
exit 1 1
enter 1 2
done 1
";

/// The look that finds the event behind so many, its take, and the lines behind it.
fn put_step(text: &mut String, before: u64, behind: &str) -> Result<(), AllocError> {
    let k = before.saturating_add(1);
    write!(
        text,
        "look 0 {k} 0\nseen 0 1 {k} 0 {before}\ntook 1 {k} 0 {k} 0 4 0\n{behind}"
    )
}

/// The post of the event behind so many.
fn put_post(text: &mut String, before: u64) -> Result<(), AllocError> {
    let k = before.saturating_add(1);
    write!(text, "stim 0 {k} {k}\npost 0 1 {k} 0 {before} 0 4 0\n")
}

/// The journal whose lane 0 goes on behind the last take with these lines.
fn journal(alloc: Global, last: &str) -> Result<String, AllocError> {
    let mut text = String::from_str(alloc, START)?;
    for before in 1..EVENTS - 1 {
        put_step(&mut text, before, "none 1\ndone 1\n")?;
    }
    put_step(&mut text, EVENTS - 1, last)?;
    text.push_str("lane 1\n")?;
    for before in 0..EVENTS {
        put_post(&mut text, before)?;
    }
    text.push_str("end 4\n")?;
    Ok(text)
}

/// The stimuli.
fn stimuli(alloc: Global) -> Result<String, AllocError> {
    let mut text = String::from_str(alloc, "source 1\n")?;
    for _ in 0..EVENTS {
        text.push_str("post lamp GO\n")?;
    }
    Ok(text)
}

/// What stands behind the last take, the number of the answer, what is printed, and the note.
const ENDS: [(&str, u8, &str, &str); 3] = [
    ("spill 0 999993\n", 0, "lawful\n", ""),
    ("none 1\ndone 1\nspill 0 999995\n", 0, "lawful\n", ""),
    ("spill 0 999995\n", 8, "", "qp: broken D21 whole\n"),
];

/// Whether `check` of a journal comes to this.
fn is_told<'t, R: Threads + Wait + Sync>(
    waits: &R,
    alloc: Global,
    stimuli: &'t str,
    journal: &'t str,
    want: (u8, &[u8], &str),
) -> bool {
    let world = World {
        files: &[("system", LAMP), ("stimuli", stimuli), ("journal", journal)],
        frames: &[],
        flow: Flow::Lines,
    };
    let words = ["check", "system", "stimuli", "journal"];
    world.is_so(waits, alloc, &words, &NOTHING, want)
}

/// The same of the journal that ends so.
fn is_told_of<R: Threads + Wait + Sync>(
    waits: &R,
    alloc: Global,
    last: &str,
    want: (u8, &[u8], &str),
) -> bool {
    let Ok(stimuli) = stimuli(alloc) else {
        return false;
    };
    match journal(alloc, last) {
        Ok(journal) => is_told(waits, alloc, stimuli.as_str(), journal.as_str(), want),
        Err(_) => false,
    }
}

/// A `spill` cuts a step behind its take, or stands behind a whole step; it states the records before it.
#[test]
fn a_spill_cuts_a_step_or_stands_behind_it(rt: HostRuntime) {
    for (last, answer, said, note) in &ENDS {
        let want = (*answer, said.as_bytes(), *note);
        assert!(rt; is_told_of(&rt, rt.alloc(), last, want), "{last}");
    }
}
