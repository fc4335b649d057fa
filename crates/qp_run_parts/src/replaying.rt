//! One order of the records of a file's journal, or a cycle among them.
ghost use Rattle.std.specs.Prelude.{◌≡◌, ◌≢◌, IsTrue};
ghost use Rattle.qp_model.specs.Lawful.{Lawful};
ghost use Rattle.qp_model.specs.Output.{is_in_range};
ghost use Rattle.qp_model.specs.Sound.{IsSound};
ghost use Rattle.qp_replay.specs.Replaying.{IsReplay};
ghost use Rattle.qp_stim.specs.Rules.{StimuliFit};
ghost use Rattle.qp_run_parts.specs.Conversions.{PrintsOne, WhenDone};
ghost use Rattle.qp_run_parts.specs.Printed.{IsPrinted};
ghost use Rattle.qp_run_parts.specs.Replays.{IsReplayed, IsReplayText};
ghost use Rattle.qp_run_parts.specs.Verdict.{AgreesCheck, HasCause, writes_of};
ghost use Rattle.qp_commands.specs.WordTable.{check_words};
ghost use Rattle.qp_run_parts.specs.declared.status.Status.{Status};

use crate::checking::{Judged, judge_files};
use crate::status::Status;
use qp_base::{Memory, Shelf, Sink};
use qp_replay::{Replayed, replay, rerun, write_replayed};
use std::alloc::Global;

/// Makes the journal's records once more along its order, where it has one. What this shows is proved; it asks for memory alone.
fn run_again(alloc: Global, judged: &Judged, replayed: &Replayed) -> Result<(), Memory>
    requires sound { IsSound judged.now.system }
    requires fit { StimuliFit judged.now.system judged.now.stimuli }
    requires lawful { Lawful judged.now.system judged.now.stimuli judged.now.found.journal }
    requires replay { IsReplay judged.now.found.journal.lanes replayed.now }
{
    if let Replayed::Order(order) = replayed {
        let _ = rerun(
            alloc,
            &judged.system,
            &judged.stimuli,
            &judged.found.journal,
            order,
        )?;
    }
    Ok(())
}

/// Prints the order of a lawful journal's records, or a cycle where there is no order, in the journal's own form.
fn print<O: Sink>(alloc: Global, judged: &Judged, out: &mut O) -> Status
    requires sound { IsSound judged.now.system }
    requires fit { StimuliFit judged.now.system judged.now.stimuli }
    requires lawful { Lawful judged.now.system judged.now.stimuli judged.now.found.journal }
    requires range { IsTrue (is_in_range judged.now.found.form judged.now.found.journal) }
    ensures { IsPrinted (WhenDone (IsReplayText judged.now.found.form judged.now.found.journal))
        (O.written out.old) (O.written out.new) (O.faults out.old) (O.faults out.new) result }
{
    let journal = &judged.found.journal;
    let Ok(replayed) = replay(alloc, &judged.system, &judged.stimuli, journal) else {
        return Status::Memory;
    };
    if run_again(alloc, judged, &replayed).is_err() {
        return Status::Memory;
    }
    match write_replayed(journal, judged.found.form, &replayed, out) {
        Ok(()) => Status::Done,
        Err(_) => Status::WriteFault,
    }
}

/// Judges the journal of the third file, and prints one order of its records where it is lawful, or a cycle among them.
pub fn replay_files<F: Shelf, O: Sink>(
    alloc: Global,
    files: &mut F,
    system: &str,
    stimuli: &str,
    journal: &str,
    out: &mut O,
) -> Status
    ensures told { AgreesCheck (F.holds files.old) (check_words system.now stimuli.now journal.now) result }
    ensures about { result ≢ Status.Words }
    ensures cause { HasCause (writes_of F.faults F.misses O.faults files.old files.new out.old out.new) result }
    ensures out { PrintsOne (WhenDone (IsReplayed (F.holds files.old) (check_words system.now stimuli.now journal.now)))
        (O.written out.old) (O.written out.new) result }
    ensures holds { F.holds files.new ≡ F.holds files.old }
{
    match judge_files(alloc, files, system, stimuli, journal) {
        Ok(judged) => print(alloc, &judged, out),
        Err(status) => status,
    }
}
