//! The program, asked over files in memory.

use arrayvec::ArrayString;
use qp_base::{MemShelf, MemSink, NoGate};
use qp_run::qp_main;
use std::alloc::{AllocError, Global};
use std::str::from_utf8;
use std::sync::Wait;
use std::thread::Threads;

/// The files that a call finds, by their names, the load that fails, and the put of the output that fails at once.
#[derive(Drop)]
pub struct Files {
    held: Vec<(ArrayString<24>, Vec<u8>)>,
    failing_load: Option<u64>,
    failing_put: Option<u64>,
}

impl Files {
    /// No file, and nothing that fails.
    pub fn none(alloc: Global) -> Files {
        Files {
            held: Vec::new(alloc),
            failing_load: None,
            failing_put: None,
        }
    }

    /// Adds a file.
    pub fn add(&mut self, name: &str, bytes: Vec<u8>) -> Result<(), AllocError> {
        self.held
            .push((ArrayString::from(name).unwrap_or_default(), bytes))?;
        Ok(())
    }

    /// These files, where a load and a put of the output fail.
    pub fn failing(self, load: Option<u64>, put: Option<u64>) -> Files {
        Files {
            held: self.held,
            failing_load: load,
            failing_put: put,
        }
    }
}

/// The status of a call, and what it printed and noted.
#[derive(Drop)]
pub struct Answer {
    pub status: u8,
    pub out: MemSink,
    note: MemSink,
}

impl Answer {
    /// The note, without the program's name and without its newline; nothing where there is none.
    pub fn note(&self) -> &str {
        let note = from_utf8(self.note.bytes()).unwrap_or("no text");
        let note = note.strip_prefix("qp: ").unwrap_or(note);
        note.strip_suffix("\n").unwrap_or(note)
    }
}

/// Calls the program with these words over these files.
pub fn ask<R: Threads + Wait + Sync>(
    waits: &R,
    alloc: Global,
    words: &[&str],
    files: Files,
) -> Result<Answer, AllocError> {
    let mut loads = Vec::new(alloc);
    for load in files.failing_load {
        loads.push(load)?;
    }
    let mut puts = Vec::new(alloc);
    for put in files.failing_put {
        puts.push((put, 0))?;
    }
    let mut shelf = MemShelf::new(files.held, loads);
    let mut out = MemSink::new(alloc, 1 << 20, puts).map_err(|_| AllocError)?;
    let mut note = MemSink::new(alloc, 1 << 10, Vec::new(alloc)).map_err(|_| AllocError)?;
    let status = qp_main(
        waits, alloc, words, &mut shelf, &mut out, &mut note, &NoGate, &mut None,
    );
    Ok(Answer {
        status: status.number(),
        out,
        note,
    })
}

/// What the program says of a journal beside its system and its stimuli: `lawful`, the definition that it breaks first with its
/// place, or a file's fault. What else it answers is told as it is.
pub fn verdict<R: Threads + Wait + Sync>(
    waits: &R,
    alloc: Global,
    system: &str,
    stimuli: &str,
    journal: &str,
) -> Result<String, AllocError> {
    let mut files = Files::none(alloc);
    files.add("system", Vec::from_slice(alloc, system.as_bytes())?)?;
    files.add("stimuli", Vec::from_slice(alloc, stimuli.as_bytes())?)?;
    files.add("journal", Vec::from_slice(alloc, journal.as_bytes())?)?;
    let answer = ask(
        waits,
        alloc,
        &["check", "system", "stimuli", "journal"],
        files,
    )?;
    let out = from_utf8(answer.out.bytes()).unwrap_or("no text");
    match (answer.status, out, answer.note()) {
        (0, "lawful\n", "") => String::from_str(alloc, "lawful"),
        (2 | 8, "", why) => String::from_str(alloc, why),
        (status, _, why) => format!(in alloc; "status {status}, output {out:?}, note {why:?}"),
    }
}
