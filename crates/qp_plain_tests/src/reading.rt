//! Systems and stimuli from texts, and records by their words.

ghost use Rattle.std.specs.Prelude.{IfOk};
ghost use Rattle.qp_model.specs.Sound.{IsSound};
ghost use Rattle.qp_stim.specs.Rules.{StimuliFit};

use crate::playing::{Played, play};
use qp_base::Gate;
use qp_model::vocabulary::word_text;
use qp_model::{Rec, Stimuli, System};
use qp_stim::stimuli_of_bytes;
use qp_system::system_of_bytes;
use std::alloc::Global;
use std::sync::Wait;
use std::test::Fail;

/// The system of a file.
fn system(alloc: Global, file: &str) -> Result<System, Fail>
    ensures { IfOk result (λ sys. IsSound sys) }
{
    Ok(system_of_bytes(alloc, file.as_bytes())?)
}

/// The stimuli of a file.
fn stimuli(alloc: Global, sys: &System, file: &str) -> Result<Stimuli, Fail>
    requires { IsSound sys.now }
    ensures { IfOk result (λ stim. StimuliFit sys.now stim) }
{
    match stimuli_of_bytes(alloc, sys, file.as_bytes()) {
        Ok(stim) => Ok(stim),
        Err(_) => Err(Fail::from("stimuli")),
    }
}

/// Runs the system of a file on the stimuli of another, with no bound on entries but the greatest.
pub(crate) fn played<R: Wait, G: Gate>(
    rt: &R,
    alloc: Global,
    file: &str,
    source: &str,
    gate: &G,
) -> Result<Played, Fail> {
    let sys = system(alloc, file)?;
    let stim = stimuli(alloc, &sys, source)?;
    match play(rt, alloc, &sys, &stim, 1_000_000, gate) {
        Ok(played) => Ok(played),
        Err(_) => Err(Fail::from("memory")),
    }
}

/// Whether a record has this word.
pub(crate) fn is_word(rec: &Rec, word: &str) -> bool {
    rec.kind >= 1 && rec.kind <= 46 && word_text(rec.kind) == word
}
