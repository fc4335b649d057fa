//! The reader of a stimulus file.

ghost use Rattle.std.specs.Prelude.{◌≤◌, [], length, IfOk};
ghost use Rattle.std.specs.List.{AllByRecursion};
ghost use Rattle.qp_stim.specs.Answer.{StimuliAnswers};
ghost use Rattle.qp_stim.specs.Maps.{dictionary};
ghost use Rattle.qp_stim.specs.Names.{FewParams};
ghost use Rattle.qp_stim.specs.Parts.{lines};
ghost use Rattle.qp_stim.specs.Rules.{StimuliFit};
ghost use Rattle.qp_stim.specs.Stimuli.{stimuli_of, read_on};

use crate::fault::StimFault;
use crate::names::SystemNames;
use crate::sources::Sources;
use crate::tokens::cut;
use crate::verdict::judge;
use qp_model::{Stimuli, System};
use std::alloc::Global;

fn read(alloc: Global, names: &SystemNames, bytes: &[u8]) -> Result<Stimuli, StimFault>
    requires { FewParams (dictionary names.now) }
    ensures { StimuliAnswers result (read_on (dictionary names.now) 1 [] (lines bytes.now)) }
{
    let mut sources = Sources::new(alloc);
    let mut number: u64 = 1;
    let mut rest = Some(bytes);
    while let Some(text) = rest {
        let (line, more) = cut(text, b'\n');
        match judge(names, sources.count(), line) {
            Ok(step) => sources.take(alloc, step)?,
            Err(code) => return Err(StimFault::Line { number, code }),
        }
        number += 1;
        rest = more;
    }
    Ok(sources.into_stimuli()?)
}

/// Reads the stimuli of a system from the bytes of a file.
///
/// The system has at most 200 signals, with at most eight parameters each. A name that is declared twice counts as its first object or
/// signal.
pub fn stimuli_of_bytes(alloc: Global, sys: &System, bytes: &[u8]) -> Result<Stimuli, StimFault>
    requires signals { length sys.now.signals ≤ 200 }
    requires params { AllByRecursion (λ d. d.params ≤ 8) sys.now.signals }
    // The stimuli of the text, or its first line with a code and the lowest code of that line.
    ensures exact { StimuliAnswers result (stimuli_of sys.now bytes.now) }
    // What is read fits the system.
    ensures rules { IfOk result (StimuliFit sys.now) }
{
    let names = SystemNames::of(alloc, sys)?;
    read(alloc, &names, bytes)
}
