//! The program over the arguments, files and streams of a process.

ghost use Rattle.std.specs.Prelude.{◌≡◌};
ghost use Rattle.std.specs.Process.{exit_status};
ghost use Rattle.qp_run_parts.specs.Notes.{status_number};
ghost use Rattle.qp_run_parts.specs.Verdict.{IsCall, count_over, stream_of, writes_of};
ghost use Rattle.qp_commands.specs.WordTable.{command_in};
ghost use Rattle.qp_process.specs.Process.{EndsUntold, EndsWith, IsAnswered, words_in};

use crate::arguments::{texts_of, unread, words_of};
use crate::{Carried, in_pieces};
use qp_base::{DirShelf, NoGate, Shelf, Sink, StdSink};
use qp_run::{Status, qp_main, tell};
use std::alloc::Global;
use std::env::Args;
use std::io;
use std::io::IsTerminal;
use std::process::ExitCode;
use std::sync::Wait;
use std::thread::Threads;

/// How output goes on.
#[derive(Clone, Copy, PartialEq, Eq, Debug)]
pub enum Flow {
    /// Each line at once, as to a terminal.
    Lines,
    /// In large pieces, as to a file or a pipe.
    Pieces,
}

/// How a process ends, and the sink to which its output went.
#[derive(Drop)]
pub struct Ended<O: Drop> {
    pub code: ExitCode,
    pub out: O,
}

/// The program over these arguments of the process, its files and its standard streams. It ends with the number of an answer to them,
/// as `program` does. `waits` is its runtime once more, by which a run may wait.
///
/// Neither files nor streams tell what they hold or got. So no clause can say that the output went to standard output and the note to
/// standard error; tests see that.
pub fn process<R: Threads + Wait + Sync>(
    rt: &HostRuntime,
    waits: &R,
    args: io::Result<Args>,
) -> ExitCode
    ensures { EndsUntold args (exit_status result) }
{
    let flow = if rt.stdout().is_terminal() {
        Flow::Lines
    } else {
        Flow::Pieces
    };
    let ended = program(
        waits,
        rt.alloc(),
        args,
        &mut DirShelf::new(rt),
        StdSink::out(rt),
        &mut StdSink::notes(rt),
        flow,
    );
    ended.code
}

/// The program over these arguments, of which the first is its name. It ends with the number of its answer; where the arguments
/// can't be had, that is why.
pub fn program<R: Threads + Wait + Sync, F: Shelf, O: Sink + Drop, E: Sink>(
    rt: &R,
    alloc: Global,
    args: io::Result<Args>,
    files: &mut F,
    out: O,
    notes: &mut E,
    flow: Flow,
) -> Ended<O>
    ensures { EndsWith (exit_status result.code) (IsAnswered args (F.holds files.old)
        (record (writes_of F.faults F.misses O.faults files.old files.new out result.out) {
          notes = count_over E.faults notes.old notes.new;
        })
        (stream_of O.written out result.out) (stream_of E.written notes.old notes.new)) }
{
    let Carried { status, out } = answer(rt, alloc, args, files, out, notes, flow);
    Ended {
        code: exit_code(&status),
        out,
    }
}

/// The exit status of an answer.
fn exit_code(status: &Status) -> ExitCode
    ensures { exit_status result ≡ status_number status.now }
{
    ExitCode::from(status.number())
}

/// The answer to these arguments.
fn answer<R: Threads + Wait + Sync, F: Shelf, O: Sink + Drop, E: Sink>(
    rt: &R,
    alloc: Global,
    args: io::Result<Args>,
    files: &mut F,
    out: O,
    notes: &mut E,
    flow: Flow,
) -> Carried<O>
    ensures { IsAnswered args (F.holds files.old)
        (record (writes_of F.faults F.misses O.faults files.old files.new out result.out) {
          notes = count_over E.faults notes.old notes.new;
        })
        (stream_of O.written out result.out) (stream_of E.written notes.old notes.new) result.status }
{
    match args {
        Ok(args) => call(rt, alloc, args, files, out, notes, flow),
        Err(error) => {
            let status = tell(unread(&error), notes);
            Carried { status, out }
        }
    }
}

/// Calls the program with the words among these arguments.
fn call<R: Threads + Wait + Sync, F: Shelf, O: Sink + Drop, E: Sink>(
    rt: &R,
    alloc: Global,
    args: Args,
    files: &mut F,
    mut out: O,
    notes: &mut E,
    flow: Flow,
) -> Carried<O>
    ensures { IsCall (F.holds files.old) (command_in (words_in args))
        (record (writes_of F.faults F.misses O.faults files.old files.new out result.out) {
          notes = count_over E.faults notes.old notes.new;
        })
        (stream_of O.written out result.out) (stream_of E.written notes.old notes.new) result.status }
{
    let Ok(words) = words_of(alloc, args) else {
        let status = tell(Status::Memory, notes);
        return Carried { status, out };
    };
    let Ok(texts) = texts_of(alloc, words.as_slice()) else {
        let status = tell(Status::Memory, notes);
        return Carried { status, out };
    };
    let words = texts.as_slice();
    match flow {
        Flow::Pieces => in_pieces(rt, alloc, words, files, out, notes, &NoGate, &mut None),
        Flow::Lines => {
            let status = qp_main(rt, alloc, words, files, &mut out, notes, &NoGate, &mut None);
            Carried { status, out }
        }
    }
}
