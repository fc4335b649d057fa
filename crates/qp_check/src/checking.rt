//! The judge.

ghost use Rattle.std.specs.Prelude.{◌≡◌, ◌++◌, ◌≤◌, length, IfOk, MatchOption};
ghost use Rattle.qp_model.specs.WordLaw.{Words};
ghost use Rattle.qp_check.specs.Judgeable.{IsJudgeable};
ghost use Rattle.qp_check_words.specs.declared.verdict.Verdict.TheVariants as verdict;
ghost use Rattle.qp_check.specs.Judged.{Finds, IsVerdict, end_trials, kernel_trials, lane_trials, object_trials, trials};

use crate::object_tests::objects_broken;
use crate::run_parts::{end_broken, kernel_broken, lanes_broken};
use qp_base::Memory;
use qp_check_knowledge::knowledge::Knowledge;
use qp_check_words::judge::words_broken;
use qp_check_words::records_by_word::RecordsByWord;
use qp_check_words::verdict::{Broken, Verdict};
use qp_model::{Journal, Stimuli, System};
use std::alloc::{AllocError, Global};

/// The first definition behind those of words that fails.
fn later_broken(
    alloc: Global,
    sys: &System,
    stim: &Stimuli,
    j: &Journal,
    records: &RecordsByWord,
) -> Result<Option<Broken>, AllocError>
    requires judgeable { IsJudgeable sys.now }
    requires same { records.now ≡ j.now.lanes }
    requires words { Words sys.now j.now.lanes }
    requires few { length stim.now ≤ 16 }
    ensures { IfOk result (λ o. Finds (object_trials sys.now j.now ++ (kernel_trials sys.now j.now ++
        (lane_trials sys.now stim.now j.now ++ end_trials sys.now j.now))) o) }
{
    let knowledge = Knowledge::of(alloc, sys, j, records)?;
    let objects = objects_broken(alloc, &knowledge, sys, j)?;
    match objects {
        Some(broken) => return Ok(Some(broken)),
        None => {}
    }
    let kernel = kernel_broken(alloc, &knowledge, sys, j)?;
    match kernel {
        Some(broken) => return Ok(Some(broken)),
        None => {}
    }
    let lanes = lanes_broken(alloc, &knowledge, sys, stim, j)?;
    match lanes {
        Some(broken) => return Ok(Some(broken)),
        None => {}
    }
    let end = end_broken(alloc, sys, j, records)?;
    Ok(end)
}

/// The first definition that fails.
#[tactic(auto, unfolding(crate::specs::Judged::trials))]
fn first_broken(
    alloc: Global,
    sys: &System,
    stim: &Stimuli,
    j: &Journal,
) -> Result<Option<Broken>, AllocError>
    requires judgeable { IsJudgeable sys.now }
    requires few { length stim.now ≤ 16 }
    ensures { IfOk result (λ o. Finds (trials sys.now stim.now j.now) o) }
{
    let records = RecordsByWord::of(alloc, &j.lanes)?;
    let words = words_broken(alloc, sys, &records)?;
    match words {
        Some(broken) => return Ok(Some(broken)),
        None => {}
    }
    let later = later_broken(alloc, sys, stim, j, &records)?;
    Ok(later)
}

/// What is said where this is the first that fails.
fn verdict_of(first: Option<Broken>) -> Verdict
    ensures { MatchOption first (result ≡ verdict.Lawful) (λ b. result ≡ verdict.Broken b.definition b.site) }
{
    match first {
        Some(broken) => Verdict::Broken {
            definition: broken.definition,
            site: broken.site,
        },
        None => Verdict::Lawful,
    }
}

/// Whether a journal is lawful for a system and its stimuli, or the first of the definitions of a lawful journal that fails, and its
/// first site: those of words, then of objects, of the kernel's lane, of the sources and of the end.
pub fn check(alloc: Global, sys: &System, stim: &Stimuli, j: &Journal) -> Result<Verdict, Memory>
    requires judgeable { IsJudgeable sys.now }
    requires few { length stim.now ≤ 16 }
    ensures { IfOk result (λ v. IsVerdict (trials sys.now stim.now j.now) v) }
{
    match first_broken(alloc, sys, stim, j) {
        Ok(broken) => Ok(verdict_of(broken)),
        Err(AllocError) => Err(Memory),
    }
}
