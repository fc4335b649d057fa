//! Trials as texts.

use crate::stimulus_trial::{Trial, run};
use qp_base::Gate;
use qp_calls_stimulus::Stimulated;
use qp_model::Rec;
use qp_model::vocabulary::word_text;
use qp_stim::stimuli_of_bytes;
use qp_system::system_of_bytes;
use std::alloc::{AllocError, Global};

/// Object 1 with room for one entry, and a pool with one block; nothing takes what is posted. GO is static, N has a parameter. No timer
/// has rate 3.
const SYSTEM: &str = "qp = 1
pool = [{ size = 1, blocks = 1 }]
signal = [{ name = 'GO', static = true }, { name = 'N', params = 1 }]
object = [{ name = 'lamp', chart = 'c', priority = 1, queue = 0 }]
[[chart]]
name = 'c'
init = 's'
state = [{ name = 's' }]
";

/// A record as a line: its word, its object and its numbers.
fn put_record(text: &mut String, rec: &Rec) -> Result<(), AllocError> {
    if rec.kind >= 1 && rec.kind <= 46 {
        text.push_str(word_text(rec.kind))?;
    }
    write!(text, " {}", rec.of)?;
    for n in &rec.nums {
        write!(text, " {n}")?;
    }
    Ok(())
}

fn word_of(answer: Stimulated) -> &'static str {
    match answer {
        Stimulated::Done => "done",
        Stimulated::Tried => "tried",
        Stimulated::Stopped => "stopped",
        Stimulated::Memory => "memory",
    }
}

/// The records behind so many, what the last stimulus answered, and the code of the stop word.
fn put_trial(text: &mut String, trial: &Trial, skipped: usize) -> Result<(), AllocError> {
    for lane in trial.lanes.items.iter() {
        for rec in lane.items.get(skipped..).unwrap_or(&[]) {
            put_record(text, rec)?;
            text.push_str(", ")?;
        }
    }
    text.push_str(word_of(trial.answer))?;
    match trial.stopped {
        Some(code) => write!(text, " {code}"),
        None => Ok(()),
    }
}

/// What the stimuli of a file's first source leave behind so many notes.
pub(crate) fn trial_of<G: Gate>(
    alloc: Global,
    stimuli: &str,
    count: u32,
    gate: &G,
) -> Result<String, AllocError> {
    let mut text = String::new(alloc);
    let Ok(sys) = system_of_bytes(alloc, SYSTEM.as_bytes()) else {
        return Ok(text);
    };
    let Ok(stim) = stimuli_of_bytes(alloc, &sys, stimuli.as_bytes()) else {
        return Ok(text);
    };
    let Some(source) = stim.sources.first() else {
        return Ok(text);
    };
    let Some(trial) = run(alloc, &sys, source.items.as_slice(), count, gate) else {
        return Ok(text);
    };
    put_trial(&mut text, &trial, count as usize)?;
    Ok(text)
}
