//! The top call.
ghost use Rattle.std.specs.Prelude.{◌≡◌, ◌≢◌, ◌⊎◌, true, false, Option, Some, IfSome, option_map};
ghost use Rattle.qp_base.specs.Counts.{Rose};
ghost use Rattle.qp_base.specs.Sink.{AppendsPrefix, appended};
ghost use Rattle.qp_run_parts.specs.Notes.{names_file};
ghost use Rattle.qp_run_parts.specs.Sealed.{Seals};
ghost use Rattle.qp_run_parts.specs.Verdict.{Agrees, AnswersWords, HasCause, IsCall, NamesFile, IsPutFor, Noted, Prints, AnswerStands, count_over, stream_of, writes_of};
ghost use Rattle.qp_commands.specs.WordTable.{Asked, asked_of, command_in, is_in_limits, texts};
ghost use Rattle.qp_run_parts.specs.declared.status.Status.{Status};

use qp_base::{Gate, Shelf, Sink};
use qp_commands::{Command, command_of};
use qp_run_parts::{
    Finished, Sealed, Status, check_files, decode, kept_seal, migrate, replay_files, run_files,
    run_made,
};
use std::alloc::{AllocError, Global};
use std::sync::Wait;
use std::thread::Threads;

/// Does what a call asks for. No line is put yet.
fn carry_out<R: Threads + Wait + Sync, F: Shelf, O: Sink, G: Gate>(
    rt: &R,
    alloc: Global,
    command: &Command<'_>,
    files: &mut F,
    out: &mut O,
    gate: &G,
) -> Finished
    requires limits { is_in_limits (asked_of command.now) ≡ true }
    ensures told { IfSome (F.holds files.old) (λ held. Agrees held (Some (asked_of command.now)) result.status) }
    ensures about { result.status ≢ Status.Words }
    ensures cause { HasCause (writes_of F.faults F.misses O.faults files.old files.new out.old out.new) result.status }
    ensures out { Prints (F.holds files.old) (Some (asked_of command.now)) (O.written out.old) (O.written out.new) result.status }
    ensures seal { Seals (F.holds files.old) (Some (asked_of command.now)) (stream_of O.written out.old out.new) result.status
        (option_map (λ s. s.journal) result.seal) }
    ensures holds { F.holds files.new ≡ F.holds files.old }
{
    match command {
        Command::Run {
            kernel,
            budget,
            out: output,
            form,
            system,
            stimuli,
        } => run_files(
            rt, alloc, files, system, stimuli, *kernel, *budget, *output, *form, out, gate,
        ),
        Command::Decode { frames } => Finished {
            status: decode(alloc, files, frames, out),
            seal: None,
        },
        Command::Migrate { from, to, file } => Finished {
            status: migrate(alloc, files, *from, *to, file, out),
            seal: None,
        },
        Command::Check {
            system,
            stimuli,
            journal,
        } => Finished {
            status: check_files(alloc, files, system, stimuli, journal, out),
            seal: None,
        },
        Command::Replay {
            system,
            stimuli,
            journal,
        } => Finished {
            status: replay_files(alloc, files, system, stimuli, journal, out),
            seal: None,
        },
        Command::Generate { number } => Finished {
            status: run_made(rt, alloc, *number, out),
            seal: None,
        },
    }
}

/// How a call was answered, the word of the file that the answer is about, and the sealed journal of a run with threads that ended by
/// itself.
#[derive(Drop)]
pub struct Answered<'w> {
    pub status: Status,
    pub name: &'w str,
    pub seal: Option<Sealed>,
}

/// Reads the words of a call and does what they ask for. No line is put yet.
pub fn answer<'w, R: Threads + Wait + Sync, F: Shelf, O: Sink, G: Gate>(
    rt: &R,
    alloc: Global,
    words: &'w [&'w str],
    files: &mut F,
    out: &mut O,
    gate: &G,
) -> Answered<'w>
    ensures told { IfSome (F.holds files.old) (λ held. Agrees held (command_in (texts words.entry.now)) result.status) }
    ensures words_told { AnswersWords (command_in (texts words.entry.now)) result.status }
    ensures name { NamesFile (command_in (texts words.entry.now)) result.status result.name.now }
    ensures cause { HasCause (writes_of F.faults F.misses O.faults files.old files.new out.old out.new) result.status }
    ensures out { Prints (F.holds files.old) (command_in (texts words.entry.now)) (O.written out.old) (O.written out.new) result.status }
    ensures seal { Seals (F.holds files.old) (command_in (texts words.entry.now)) (stream_of O.written out.old out.new) result.status
        (option_map (λ s. s.journal) result.seal) }
    ensures holds { F.holds files.new ≡ F.holds files.old }
{
    match command_of(alloc, words) {
        Ok(Some(command)) => {
            let Finished { status, seal } = carry_out(rt, alloc, &command, files, out, gate);
            let name = command.operand(status.file());
            Answered { status, name, seal }
        }
        Ok(None) => Answered {
            status: Status::Words,
            name: "",
            seal: None,
        },
        Err(AllocError) => Answered {
            status: Status::Memory,
            name: "",
            seal: None,
        },
    }
}

/// Puts the line of a status.
fn put_line<E: Sink>(status: Status, line: &[u8], notes: &mut E) -> Status
    ensures { ((result ≡ status) × (E.written notes.new ≡ appended (E.written notes.old) line.now))
        ⊎ ((result ≡ Status.WriteFault) × Rose (E.faults notes.old) (E.faults notes.new)
        × AppendsPrefix (E.written notes.old) line.now (E.written notes.new)) }
{
    match notes.put(line) {
        Ok(()) => status,
        Err(_) => Status::WriteFault,
    }
}

/// Puts the line of an answer that names no file, as a caller does that had no words to call the program with. `Done` has none.
pub fn tell<E: Sink>(status: Status, notes: &mut E) -> Status
    requires { names_file status ≡ false }
    ensures notes { (asked : Option Asked)
        → Noted asked (IsPutFor status) (count_over E.faults notes.old notes.new) (E.written notes.old) (E.written notes.new) result }
    ensures answer { AnswerStands (count_over E.faults notes.old notes.new) status result }
{
    if status.is_done() {
        return status;
    }
    let line = status.plain_line();
    put_line(status, line.as_str().as_bytes(), notes)
}

/// Puts the line about an answer. Only a line that names a file takes memory; it names it by this name.
pub fn report<E: Sink>(alloc: Global, name: &str, status: Status, notes: &mut E) -> Status
    ensures notes { (asked : Option Asked) → NamesFile asked status name.now
        → Noted asked (IsPutFor status) (count_over E.faults notes.old notes.new) (E.written notes.old) (E.written notes.new) result }
    ensures answer { AnswerStands (count_over E.faults notes.old notes.new) status result }
{
    if !status.names_file() {
        return tell(status, notes);
    }
    match status.file_line(alloc, name) {
        Ok(line) => put_line(status, line.as_str().as_bytes(), notes),
        Err(_) => tell(Status::Memory, notes),
    }
}

/// The program: reads its words, does what they ask for, and writes the output and a note.
///
/// A run with threads joins them and waits through `rt`; each hands `gate` the steps of its objects and the stimuli of its sources.
/// Where it ended by itself, whatever its end, and all was written, `seal` holds its journal, the very one that was printed or summed
/// up; after any other call it holds none.
pub fn qp_main<R: Threads + Wait + Sync, F: Shelf, O: Sink, E: Sink, G: Gate>(
    rt: &R,
    alloc: Global,
    words: &[&str],
    files: &mut F,
    out: &mut O,
    notes: &mut E,
    gate: &G,
    seal: &mut Option<Sealed>,
) -> Status
    // The headline, with what the words ask for by their table: what was answered, printed and noted.
    ensures call { IsCall (F.holds files.old) (command_in (texts words.now))
        (record (writes_of F.faults F.misses O.faults files.old files.new out.old out.new) {
          notes = count_over E.faults notes.old notes.new;
        })
        (stream_of O.written out.old out.new) (stream_of E.written notes.old notes.new) result }
    // A run with threads leaves the journal that it printed or summed up.
    ensures seal { Seals (F.holds files.old) (command_in (texts words.now)) (stream_of O.written out.old out.new) result
        (option_map (λ s. s.journal) seal.new) }
    ensures holds { F.holds files.new ≡ F.holds files.old }
{
    let Answered {
        status,
        name,
        seal: sealed,
    } = answer(rt, alloc, words, files, out, gate);
    let status = report(alloc, name, status, notes);
    *seal = kept_seal(&status, sealed);
    status
}
