//! Journals of a file, as text or as frames, and printed in another way.
ghost use Rattle.std.specs.Prelude.{◌≡◌, ◌≢◌, ◌==◌, not, true, IfOk, IfErr, IsTrue};
ghost use Rattle.std.specs.List.{list_all};
ghost use Rattle.qp_model.specs.Kinds.{REST};
ghost use Rattle.qp_model.specs.declared.record.Rec.{Rec};
ghost use Rattle.qp_model.specs.Output.{has_form, has_no_rest, is_in_range};
ghost use Rattle.qp_run_parts.specs.Conversions.{HasJournal, IsDecoded, IsFoundIn, IsMigrated, IsWrittenAs, PrintsOne, RefusesFile, WhenDone, decode_on, frame_refusal, migrate_on, text_refusal, written};
ghost use Rattle.qp_run_parts.specs.Verdict.{AgreesJournal, HasCause, is_refusal, reads_of, writes_of};
ghost use Rattle.qp_commands.specs.WordTable.{number_of_form};
ghost use Rattle.qp_run_parts.specs.declared.status.Status.{Status};
ghost use Rattle.qp_commands.specs.declared.values.Kind.{Kind};

use crate::loading::load;
use crate::place::Place;
use crate::status::Status;
use qp_base::{Shelf, Sink};
use qp_commands::{Form, Kind};
use qp_frames::{Decoder, FrameFault, write_frames};
use qp_model::{Journal, Lane, Lanes, kernels, kinds};
use qp_text::{Found, TextFault, write_journal};
use qp_text_scan::read_journal;
use std::alloc::Global;

/// The code of a file whose journal doesn't have the form that is asked for.
pub const OTHER_FORM: u8 = 8;

impl From<TextFault> for Status {
    ghost from_gives = { λ fault status. status ≡ text_refusal fault };

    fn from(fault: TextFault) -> Status {
        match fault {
            TextFault::Memory => Status::Memory,
            TextFault::Line { number, code } => Status::Refused {
                file: 1,
                code,
                place: Place::Line(number),
            },
        }
    }
}

impl From<FrameFault> for Status {
    ghost from_gives = { λ fault status. status ≡ frame_refusal fault };

    fn from(fault: FrameFault) -> Status {
        match fault {
            FrameFault::Memory => Status::Memory,
            FrameFault::At { offset, code, .. } => Status::Refused {
                file: 1,
                code,
                place: Place::Offset(offset),
            },
        }
    }
}

/// The journal of a text.
pub fn journal_of_text(alloc: Global, bytes: &[u8]) -> Result<Found, Status>
    ensures journal { IfOk result (IsFoundIn Kind.Journal bytes.now) }
    ensures refused { IfErr result (RefusesFile Kind.Journal bytes.now) }
{
    Ok(read_journal(alloc, bytes)?)
}

/// The journal of frames.
fn journal_of_frames(alloc: Global, bytes: &[u8]) -> Result<Found, Status>
    ensures journal { IfOk result (IsFoundIn Kind.Frames bytes.now) }
    ensures refused { IfErr result (RefusesFile Kind.Frames bytes.now) }
{
    let mut decoder = Decoder::new(alloc);
    decoder.feed(bytes)?;
    Ok(decoder.end()?)
}

/// The journal of a file's bytes, which are text or frames.
fn journal_of(alloc: Global, kind: Kind, bytes: &[u8]) -> Result<Found, Status>
    ensures journal { IfOk result (IsFoundIn kind bytes.now) }
    ensures refused { IfErr result (RefusesFile kind bytes.now) }
{
    match kind {
        Kind::Journal => journal_of_text(alloc, bytes),
        Kind::Frames => journal_of_frames(alloc, bytes),
    }
}

/// Loads the journal of a file, which is the first operand.
fn load_journal<F: Shelf>(
    alloc: Global,
    files: &mut F,
    kind: Kind,
    name: &str,
) -> Result<Found, Status>
    ensures journal { IfOk result (λ found. HasJournal (F.holds files.old) name.now kind found.form found.journal) }
    ensures told { IfErr result (λ status. (on : Journal → Status) → AgreesJournal (F.holds files.old) kind on name.now status) }
    ensures cause { IfErr result (HasCause (reads_of F.faults F.misses files.old files.new)) }
    ensures about { IfErr result (λ status. (is_refusal status ≡ true) × (status ≢ Status.Words)) }
    ensures holds { F.holds files.new ≡ F.holds files.old }
{
    let bytes = load(alloc, files, 1, name)?;
    journal_of(alloc, kind, bytes.as_slice())
}

/// Writes a journal as text or frames, in a form that it has. The answer is `told` where it could be written.
pub fn write<O: Sink>(j: &Journal, kind: Kind, form: u8, told: Status, out: &mut O) -> Status
    requires form { IsTrue (has_form form j.now) }
    requires range { IsTrue (is_in_range form j.now) }
    ensures { IsWrittenAs told (written kind form j.now) (O.written out.old) (O.written out.new)
        (O.faults out.old) (O.faults out.new) result }
{
    let put = match kind {
        Kind::Journal => write_journal(j, form, out),
        Kind::Frames => write_frames(j, form, out),
    };
    match put {
        Ok(()) => told,
        Err(_) => Status::WriteFault,
    }
}

/// Prints the text of a file's frames, in their own form.
pub fn decode<F: Shelf, O: Sink>(alloc: Global, files: &mut F, name: &str, out: &mut O) -> Status
    ensures told { AgreesJournal (F.holds files.old) Kind.Frames decode_on name.now result }
    ensures about { result ≢ Status.Words }
    ensures cause { HasCause (writes_of F.faults F.misses O.faults files.old files.new out.old out.new) result }
    ensures out { PrintsOne (WhenDone (IsDecoded (F.holds files.old) name.now)) (O.written out.old) (O.written out.new) result }
    ensures holds { F.holds files.new ≡ F.holds files.old }
{
    match load_journal(alloc, files, Kind::Frames, name) {
        Ok(found) => write(&found.journal, Kind::Journal, found.form, Status::Done, out),
        Err(status) => status,
    }
}

fn is_without_rest(lane: &Lane) -> bool
    ensures { result ≡ list_all (λ (r : Rec). not (r.kind == REST)) lane.now }
{
    lane.items.iter().all(|r| r.kind != kinds::REST)
}

fn are_without_rest(lanes: &Lanes) -> bool
    ensures { result ≡ has_no_rest lanes.now }
{
    lanes.items.iter().all(|lane| is_without_rest(lane))
}

/// Whether the journal can be written in this form.
fn has_form(j: &Journal, form: Form) -> bool
    ensures { result ≡ has_form (number_of_form form) j.now }
{
    match form {
        Form::One => j.kernel != kernels::QV && are_without_rest(&j.lanes),
        Form::Two => true,
    }
}

/// Prints a file's journal in this form, again as text or as frames.
pub fn migrate<F: Shelf, O: Sink>(
    alloc: Global,
    files: &mut F,
    from: Kind,
    to: Form,
    name: &str,
    out: &mut O,
) -> Status
    ensures told { AgreesJournal (F.holds files.old) from (migrate_on (number_of_form to)) name.now result }
    ensures about { result ≢ Status.Words }
    ensures cause { HasCause (writes_of F.faults F.misses O.faults files.old files.new out.old out.new) result }
    ensures out { PrintsOne (WhenDone (IsMigrated (F.holds files.old) name.now from (number_of_form to)))
        (O.written out.old) (O.written out.new) result }
    ensures holds { F.holds files.new ≡ F.holds files.old }
{
    let found = match load_journal(alloc, files, from, name) {
        Ok(found) => found,
        Err(status) => return status,
    };
    if has_form(&found.journal, to) {
        write(&found.journal, from, to.number(), Status::Done, out)
    } else {
        Status::Refused {
            file: 1,
            code: OTHER_FORM,
            place: Place::Nowhere,
        }
    }
}
