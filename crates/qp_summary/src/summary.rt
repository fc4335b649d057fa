//! The whole summary.

ghost use Rattle.std.specs.Prelude.{◌≡◌, ◌++◌, ◌∷◌, [], codes, decimal, IfOk};
ghost use Rattle.std.specs.List.{AllByRecursion};
ghost use Rattle.qp_check_course.specs.Followable.{IsFollowable};
ghost use Rattle.qp_model.specs.Lawful.{CourseHolds};
ghost use Rattle.qp_model.specs.OutputSummary.{AreObjectLines, IsSummary};
ghost use Rattle.qp_kernel_end.specs.Rests.{AreRestsIn};
ghost use Rattle.qp_summary.specs.Written.{HasStimuli, Writes, lines_joined};
ghost use Rattle.qp_text.specs.Puts.{Puts};

use crate::known::known_lines;
use crate::lines::Lines;
use crate::objects::object_lines;
use crate::pools::pool_lines;
use qp_base::{Sink, SinkFault};
use qp_check_knowledge::knowledge::Knowledge;
use qp_check_words::records_by_word::RecordsByWord;
use qp_kernel_end::Rest;
use qp_model::{Journal, System};
use std::alloc::{AllocError, Global};
use std::marker::Model;

/// Why a summary was not written.
#[derive(Clone, Copy, PartialEq, Eq, Debug)]
pub enum SummaryFault {
    /// No memory was found, and nothing was written.
    Memory,
    /// A put failed. The puts before it were whole.
    Failed,
}

/// The lines of a summary: those of the end, of the objects and of the pools. Contracts see them one after another.
#[derive(Drop)]
struct Summary {
    end: Lines,
    objects: Lines,
    pools: Lines,
}

impl Model for Summary {
    ghost use Rattle.std.specs.Prelude.{◌++◌, List, ℕ};

    ghost Value = { List (List ℕ) };

    ghost view = { λ s. s.end ++ (s.objects ++ s.pools) };
}

fn end_line(alloc: Global, j: &Journal) -> Result<Lines, AllocError>
    ensures { IfOk result (λ lines. lines ≡ (codes "end " ++ decimal j.now.end ++ codes "\n") ∷ []) }
{
    let mut lines = Lines::none(alloc);
    let end = j.end;
    lines.push(format!(in alloc; "end {end}\n")?)?;
    Ok(lines)
}

/// The lines of objects, each read from its records.
fn read_lines(alloc: Global, sys: &System, j: &Journal) -> Result<Lines, AllocError>
    requires followable { AllByRecursion (IsFollowable sys.now) sys.now.objects }
    requires courses { AllByRecursion (CourseHolds sys.now j.now) sys.now.objects }
    ensures { IfOk result (λ lines. AreObjectLines sys.now j.now sys.now.objects lines) }
{
    let records = RecordsByWord::of(alloc, &j.lanes)?;
    let knowledge = Knowledge::of(alloc, sys, j, &records)?;
    object_lines(alloc, &knowledge, sys, j)
}

/// The lines of objects. They are read only where the run doesn't tell of one that is done where it rests.
fn all_lines(alloc: Global, sys: &System, j: &Journal, rests: &[Rest]) -> Result<Lines, AllocError>
    requires followable { AllByRecursion (IsFollowable sys.now) sys.now.objects }
    requires courses { AllByRecursion (CourseHolds sys.now j.now) sys.now.objects }
    requires rests { AreRestsIn sys.now j.now rests.now }
    ensures { IfOk result (λ lines. AreObjectLines sys.now j.now sys.now.objects lines) }
{
    match known_lines(alloc, sys, j, rests)? {
        Some(lines) => Ok(lines),
        None => read_lines(alloc, sys, j),
    }
}

impl Summary {
    fn of(alloc: Global, sys: &System, j: &Journal, rests: &[Rest]) -> Result<Self, AllocError>
        requires followable { AllByRecursion (IsFollowable sys.now) sys.now.objects }
        requires courses { AllByRecursion (CourseHolds sys.now j.now) sys.now.objects }
        requires rests { AreRestsIn sys.now j.now rests.now }
        ensures { IfOk result (λ s. IsSummary sys.now j.now s) }
    {
        Ok(Summary {
            end: end_line(alloc, j)?,
            objects: all_lines(alloc, sys, j, rests)?,
            pools: pool_lines(alloc, sys, j)?,
        })
    }

    /// Writes the lines, with one put for each.
    fn put<K: Sink>(&self, out: &mut K) -> Result<(), SinkFault>
        ensures { Puts result (lines_joined self.now) (K.written out.old) (K.written out.new) (K.faults out.old) (K.faults out.new) }
    {
        self.end.put(out)?;
        self.objects.put(out)?;
        self.pools.put(out)
    }
}

/// Writes the summary of a journal that is lawful for some stimuli: `end` with how the run ended, for each object in ascending priority
/// its name, how many events it has taken, its state and its variables, and for each pool how many blocks it gave and got back. An
/// object whose start or last step isn't done shows `-` in place of its state. Each line is one put, and memory is taken before the first.
pub fn write_summary<K: Sink>(
    alloc: Global,
    sys: &System,
    j: &Journal,
    out: &mut K,
) -> Result<(), SummaryFault>
    requires followable { AllByRecursion (IsFollowable sys.now) sys.now.objects }
    requires lawful { HasStimuli sys.now j.now }
    ensures { Writes result sys.now j.now (K.written out.old) (K.written out.new) (K.faults out.old) (K.faults out.new) }
{
    write_summary_at(alloc, sys, j, &[], out)
}

/// The same, where it is known of some objects where they rest. The records are gone through once more for each kind of line, and
/// followed only where an object is done that isn't among these.
pub fn write_summary_at<K: Sink>(
    alloc: Global,
    sys: &System,
    j: &Journal,
    rests: &[Rest],
    out: &mut K,
) -> Result<(), SummaryFault>
    requires followable { AllByRecursion (IsFollowable sys.now) sys.now.objects }
    requires lawful { HasStimuli sys.now j.now }
    requires rests { AreRestsIn sys.now j.now rests.now }
    ensures { Writes result sys.now j.now (K.written out.old) (K.written out.new) (K.faults out.old) (K.faults out.new) }
{
    match Summary::of(alloc, sys, j, rests) {
        Ok(summary) => match summary.put(out) {
            Ok(()) => Ok(()),
            Err(SinkFault::Failed) => Err(SummaryFault::Failed),
        },
        Err(_) => Err(SummaryFault::Memory),
    }
}
