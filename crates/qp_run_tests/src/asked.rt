//! Calls of the program, over files and sinks in memory.

use crate::watch::{Watch, Watches};
use arrayvec::ArrayString;
use qp_base::{MemShelf, MemSink};
use qp_process::{Flow, in_pieces, qp_main};
use std::alloc::{AllocError, Global};
use std::str::from_utf8;
use std::sync::Wait;
use std::thread::Threads;

/// The files of a call, besides them one of bytes, called `frames`, and how its output goes on.
#[derive(Clone, Copy)]
pub(crate) struct World<'t> {
    pub(crate) files: &'t [(&'t str, &'t str)],
    pub(crate) frames: &'t [u8],
    pub(crate) flow: Flow,
}

/// The room for the output, and what is to fail: loads by their numbers, and puts of the output and of the note, each with how many bytes
/// it keeps.
#[derive(Clone, Copy)]
pub(crate) struct Failing<'f> {
    pub(crate) room: u64,
    pub(crate) loads: &'f [u64],
    pub(crate) puts: &'f [(u64, u64)],
    pub(crate) notes: &'f [(u64, u64)],
}

/// Nothing fails, and there is room enough.
pub(crate) const NOTHING: Failing<'static> = Failing {
    room: 1 << 16,
    loads: &[],
    puts: &[],
    notes: &[],
};

/// What a call came to.
#[derive(Drop)]
struct Left {
    answer: u8,
    out: MemSink,
    note: MemSink,
    is_sealed: bool,
}

/// What a call came to, if there was memory to make it.
#[derive(Drop)]
pub(crate) struct Ended {
    left: Option<Left>,
}

impl Ended {
    /// Whether it came to this answer, output and note.
    pub(crate) fn is(&self, answer: u8, out: &[u8], note: &str) -> bool {
        match &self.left {
            Some(left) => {
                left.answer == answer
                    && left.out.bytes() == out
                    && left.note.bytes() == note.as_bytes()
            }
            None => false,
        }
    }

    /// Whether it was done, with no note.
    pub(crate) fn is_done(&self) -> bool {
        match &self.left {
            Some(left) => left.answer == 0 && left.note.bytes().is_empty(),
            None => false,
        }
    }

    /// Whether it was done, with no note, and left a sealed journal.
    pub(crate) fn is_sealed(&self) -> bool {
        match &self.left {
            Some(left) => left.is_sealed && self.is_done(),
            None => false,
        }
    }

    /// Its output.
    pub(crate) fn bytes(&self) -> &[u8] {
        match &self.left {
            Some(left) => left.out.bytes(),
            None => &[],
        }
    }

    /// Its output as a text.
    pub(crate) fn text(&self) -> &str {
        from_utf8(self.bytes()).unwrap_or("")
    }
}

/// A shelf with these files, of which the loads of these numbers fail.
fn shelf(alloc: Global, world: &World<'_>, failing: &[u64]) -> Result<MemShelf, AllocError> {
    let frames = Vec::from_slice(alloc, world.frames)?;
    let mut held = Vec::new(alloc);
    held.push((ArrayString::from("frames").unwrap_or_default(), frames))?;
    for (name, text) in world.files {
        let bytes = Vec::from_slice(alloc, text.as_bytes())?;
        held.push((ArrayString::from(name).unwrap_or_default(), bytes))?;
    }
    Ok(MemShelf::new(held, Vec::from_slice(alloc, failing)?))
}

/// A sink with so much room, in which the puts of these numbers keep so many bytes and fail.
fn sink(alloc: Global, room: u64, failing: &[(u64, u64)]) -> Option<MemSink> {
    let failing = Vec::from_slice(alloc, failing).ok()?;
    MemSink::new(alloc, room, failing).ok()
}

/// Calls with these words over these files, to these sinks, and lets the output go on so.
fn call<R: Threads + Wait + Sync>(
    waits: &R,
    alloc: Global,
    words: &[&str],
    files: &mut MemShelf,
    gate: &Watch,
    flow: Flow,
    mut out: MemSink,
    mut note: MemSink,
) -> Left {
    let mut seal = None;
    if flow == Flow::Pieces {
        let carried = in_pieces(waits, alloc, words, files, out, &mut note, gate, &mut seal);
        return Left {
            answer: carried.status.number(),
            out: carried.out,
            note,
            is_sealed: seal.is_some(),
        };
    }
    let status = qp_main(
        waits, alloc, words, files, &mut out, &mut note, gate, &mut seal,
    );
    Left {
        answer: status.number(),
        out,
        note,
        is_sealed: seal.is_some(),
    }
}

/// What a call over a shelf comes to.
fn over<R: Threads + Wait + Sync>(
    waits: &R,
    alloc: Global,
    words: &[&str],
    files: &mut MemShelf,
    gate: &Watch,
    flow: Flow,
    failing: &Failing<'_>,
) -> Option<Left> {
    let out = sink(alloc, failing.room, failing.puts)?;
    let note = sink(alloc, 1000, failing.notes)?;
    Some(call(waits, alloc, words, files, gate, flow, out, note))
}

impl World<'_> {
    /// What a call with these words comes to, beside a gate.
    pub(crate) fn watched<R: Threads + Wait + Sync>(
        &self,
        waits: &R,
        alloc: Global,
        words: &[&str],
        failing: &Failing<'_>,
        gate: &Watch,
    ) -> Ended {
        let left = match shelf(alloc, self, failing.loads) {
            Ok(mut files) => over(waits, alloc, words, &mut files, gate, self.flow, failing),
            Err(_) => None,
        };
        Ended { left }
    }

    /// What it comes to where nobody watches.
    pub(crate) fn ask<R: Threads + Wait + Sync>(
        &self,
        waits: &R,
        alloc: Global,
        words: &[&str],
        failing: &Failing<'_>,
    ) -> Ended {
        self.watched(waits, alloc, words, failing, &Watch::of(Watches::Nothing))
    }

    /// Whether a call comes to this answer, output and note.
    pub(crate) fn is_so<R: Threads + Wait + Sync>(
        &self,
        waits: &R,
        alloc: Global,
        words: &[&str],
        failing: &Failing<'_>,
        want: (u8, &[u8], &str),
    ) -> bool {
        let (answer, out, note) = want;
        self.ask(waits, alloc, words, failing).is(answer, out, note)
    }
}
