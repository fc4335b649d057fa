//! Calls whose output is gathered.

ghost use Rattle.std.specs.Prelude.{◌≡◌, length, IfSome, option_map};
ghost use Rattle.qp_run_parts.specs.Sealed.{Seals};
ghost use Rattle.qp_run_parts.specs.Verdict.{IsCall, count_over, stream_of, writes_of};
ghost use Rattle.qp_commands.specs.WordTable.{command_in, texts};

use qp_base::{Beginning, Gate, Gathered, Shelf, Sink};
use qp_run::{Answered, Sealed, Status, answer, kept_seal, report, tell};
use std::alloc::Global;
use std::marker::Brand;
use std::sync::Wait;
use std::thread::Threads;

/// How a call ended, and the sink to which its output went.
#[derive(Drop)]
pub struct Carried<O: Drop> {
    pub status: Status,
    pub out: O,
}

/// The words of a call.
#[derive(Clone, Copy)]
struct Words<'w> {
    texts: &'w [&'w str],
}

/// The program with its output in pieces of up to 64 KiB. All that `qp_main` says of a call is said of the sinks below: an answer
/// other than a write fault comes only where the whole output has gone on.
///
/// The room for a piece is taken first; where it is refused, the answer is want of memory. The output goes first and the note
/// then: where the last piece fails, the answer and its note are those of a write fault.
pub fn in_pieces<R: Threads + Wait + Sync, F: Shelf, O: Sink + Drop, E: Sink, G: Gate>(
    rt: &R,
    alloc: Global,
    words: &[&str],
    files: &mut F,
    out: O,
    notes: &mut E,
    gate: &G,
    seal: &mut Option<Sealed>,
) -> Carried<O>
    ensures call { IsCall (F.holds files.old) (command_in (texts words.now))
        (record (writes_of F.faults F.misses O.faults files.old files.new out result.out) {
          notes = count_over E.faults notes.old notes.new;
        })
        (stream_of O.written out result.out) (stream_of E.written notes.old notes.new) result.status }
    ensures seal { Seals (F.holds files.old) (command_in (texts words.now)) (stream_of O.written out result.out) result.status
        (option_map (λ s. s.journal) seal.new) }
    ensures holds { F.holds files.new ≡ F.holds files.old }
{
    let words = Words { texts: words };
    gathered::<R, F, O, E, G, Brand>(rt, alloc, words, files, out, notes, gate, seal)
}

/// The same over a sink that was like this at first.
fn gathered<R: Threads + Wait + Sync, F: Shelf, O: Sink + Drop, E: Sink, G: Gate, B: Beginning>(
    rt: &R,
    alloc: Global,
    words: Words<'_>,
    files: &mut F,
    out: O,
    notes: &mut E,
    gate: &G,
    seal: &mut Option<Sealed>,
) -> Carried<O>
    requires first_length { IfSome (O.written out) (λ w. length w ≡ B.first_length) }
    requires first_faults { O.faults out ≡ B.first_faults }
    ensures call { IsCall (F.holds files.old) (command_in (texts words.entry.texts.now))
        (record (writes_of F.faults F.misses O.faults files.old files.new out result.out) {
          notes = count_over E.faults notes.old notes.new;
        })
        (stream_of O.written out result.out) (stream_of E.written notes.old notes.new) result.status }
    ensures seal { Seals (F.holds files.old) (command_in (texts words.entry.texts.now)) (stream_of O.written out result.out) result.status
        (option_map (λ s. s.journal) seal.new) }
    ensures holds { F.holds files.new ≡ F.holds files.old }
{
    *seal = None;
    let mut pieces = match Gathered::<O, B>::new(alloc, out) {
        Ok(pieces) => pieces,
        Err(out) => {
            let status = tell(Status::Memory, notes);
            return Carried { status, out };
        }
    };
    let Answered {
        status,
        name,
        seal: sealed,
    } = answer(rt, alloc, words.texts, files, &mut pieces, gate);
    match pieces.flush() {
        Ok(()) => {
            let status = report(alloc, name, status, notes);
            *seal = kept_seal(&status, sealed);
            let out = pieces.into_inner();
            Carried { status, out }
        }
        Err(_) => {
            let status = tell(Status::WriteFault, notes);
            let out = pieces.into_inner();
            Carried { status, out }
        }
    }
}
