//! Journals of a file, judged.
ghost use Rattle.std.specs.Prelude.{◌≡◌, ◌≢◌, ◌≤◌, ◌⊎◌, length, IfOk, IfErr, true};
ghost use Rattle.qp_model.specs.Sound.{IsSound};
ghost use Rattle.qp_stim.specs.Rules.{StimuliFit};
ghost use Rattle.qp_run_parts.specs.Checks.{AreLawful, PrintsLawful, IsLawfulText, JudgesFound, is_of_files, third};
ghost use Rattle.qp_run_parts.specs.Conversions.{IsFoundIn, PrintsOne, RefusesFile, WhenDone, said};
ghost use Rattle.qp_run_parts.specs.Verdict.{AgreesCheck, HasCause, JudgesCall, is_failure, is_refusal, reads_of, writes_of};
ghost use Rattle.qp_commands.specs.WordTable.{check_words};
ghost use Rattle.qp_run_parts.specs.declared.status.Status.{Status};
ghost use Rattle.qp_commands.specs.declared.values.Kind.{Kind};

use crate::conversions::journal_of_text;
use crate::loading::load;
use crate::reading::{stimuli_in, system_in};
use crate::status::Status;
use qp_base::{Shelf, Sink};
use qp_check::{Verdict, check};
use qp_model::{Stimuli, System};
use qp_text::Found;
use std::alloc::Global;

/// A refusal of what stands in the third file.
fn in_third(status: Status) -> Status
    ensures { result ≡ third status }
{
    match status {
        Status::Refused { code, place, .. } => Status::Refused {
            file: 3,
            code,
            place,
        },
        status => status,
    }
}

/// The journal of the third file's text.
fn journal_in(alloc: Global, bytes: &[u8]) -> Result<Found, Status>
    ensures journal { IfOk result (IsFoundIn Kind.Journal bytes.now) }
    ensures told { IfErr result (λ status. (refused : Status) × (status ≡ third refused) × RefusesFile Kind.Journal bytes.now refused) }
{
    match journal_of_text(alloc, bytes) {
        Ok(found) => Ok(found),
        Err(status) => Err(in_third(status)),
    }
}

/// The journal of a text, judged. Ok where it is lawful.
fn judge(alloc: Global, system: &System, stimuli: &Stimuli, bytes: &[u8]) -> Result<Found, Status>
    requires sound { IsSound system.now }
    requires few { length stimuli.now ≤ 16 }
    ensures lawful { IfOk result (λ found. IsLawfulText system.now stimuli.now bytes.now found.form found.journal) }
    ensures done { IfOk result (λ _. JudgesFound system.now stimuli.now (said Kind.Journal bytes.now) Status.Done) }
    ensures told { IfErr result (λ status. (is_failure status ≡ true)
        ⊎ JudgesFound system.now stimuli.now (said Kind.Journal bytes.now) status) }
    ensures about { IfErr result (λ status. is_of_files status ≡ true) }
{
    let found = journal_in(alloc, bytes)?;
    match check(alloc, system, stimuli, &found.journal) {
        Ok(Verdict::Lawful) => Ok(found),
        Ok(Verdict::Broken { definition, site }) => Err(Status::Unlawful { definition, site }),
        Err(_) => Err(Status::Memory),
    }
}

/// A lawful journal, with its system and its stimuli, as files have them.
#[derive(Drop)]
pub struct Judged {
    pub system: System,
    pub stimuli: Stimuli,
    pub found: Found,
}

/// Judges the journal of the third file, of the system and the stimuli of the first two. Ok where it is lawful.
pub fn judge_files<F: Shelf>(
    alloc: Global,
    files: &mut F,
    system: &str,
    stimuli: &str,
    journal: &str,
) -> Result<Judged, Status>
    ensures lawful { IfOk result (λ judged. AreLawful (F.holds files.old) (check_words system.now stimuli.now journal.now)
        judged.system judged.stimuli judged.found.form judged.found.journal) }
    ensures sound { IfOk result (λ judged. IsSound judged.system) }
    ensures fit { IfOk result (λ judged. StimuliFit judged.system judged.stimuli) }
    ensures done { IfOk result (λ _. JudgesCall (F.holds files.old) (check_words system.now stimuli.now journal.now) Status.Done) }
    ensures told { IfErr result (AgreesCheck (F.holds files.old) (check_words system.now stimuli.now journal.now)) }
    ensures cause { IfErr result (HasCause (reads_of F.faults F.misses files.old files.new)) }
    ensures about { IfErr result (λ status. (is_refusal status ≡ true) × (status ≢ Status.Words)) }
    ensures holds { F.holds files.new ≡ F.holds files.old }
{
    let bytes = load(alloc, files, 1, system)?;
    let system = system_in(alloc, bytes.as_slice())?;
    let bytes = load(alloc, files, 2, stimuli)?;
    let stimuli = stimuli_in(alloc, &system, bytes.as_slice())?;
    let bytes = load(alloc, files, 3, journal)?;
    let found = judge(alloc, &system, &stimuli, bytes.as_slice())?;
    Ok(Judged {
        system,
        stimuli,
        found,
    })
}

/// Judges the journal of the third file. One that is lawful is told so on the output.
pub fn check_files<F: Shelf, O: Sink>(
    alloc: Global,
    files: &mut F,
    system: &str,
    stimuli: &str,
    journal: &str,
    out: &mut O,
) -> Status
    ensures told { AgreesCheck (F.holds files.old) (check_words system.now stimuli.now journal.now) result }
    ensures about { result ≢ Status.Words }
    ensures cause { HasCause (writes_of F.faults F.misses O.faults files.old files.new out.old out.new) result }
    ensures out { PrintsOne (WhenDone (PrintsLawful (F.holds files.old) (check_words system.now stimuli.now journal.now)))
        (O.written out.old) (O.written out.new) result }
    ensures holds { F.holds files.new ≡ F.holds files.old }
{
    match judge_files(alloc, files, system, stimuli, journal) {
        Ok(_) => match out.put(b"lawful\n") {
            Ok(()) => Status::Done,
            Err(_) => Status::WriteFault,
        },
        Err(status) => status,
    }
}
