//! The codes of a line, lowest first.

ghost use Rattle.std.specs.Prelude.{◌≡◌, ◌<◌, ◌-◌, ◌^◌, MatchOption, Ok, Err};
ghost use Rattle.qp_stim.specs.Codes.{step_of};
ghost use Rattle.qp_stim.specs.Parts.{is_skipped};
ghost use Rattle.qp_stim.specs.Maps.{dictionary};
ghost use Rattle.qp_stim.specs.Names.{FewParams};
ghost use Rattle.qp_stim.specs.Reading.{small_of, admits, is_next_source, post_verdict, publish_verdict, tick_verdict, verdict_on};

use crate::grammar::heard;
use crate::heard::{Event, Heard, Pars};
use crate::names::{Signal, SystemNames};
use crate::numbers::Number;
use qp_base::Ev;
use qp_model::Stim;

/// The line isn't in the grammar.
const GRAMMAR: u8 = 1;
/// An object or a signal isn't declared.
const UNDECLARED: u8 = 2;
/// A number is out of range, or a reserve stands on a static signal.
const RANGE: u8 = 3;
/// A source isn't the next, or none stands.
const SOURCE: u8 = 4;
/// The event has another number of parameters than its signal.
const COUNT: u8 = 5;
/// How many sources there may be.
const SOURCES: u64 = 16;

/// What a line does.
#[derive(Drop)]
pub enum LineStep {
    Skips,
    Opens,
    Adds(Stim),
}

/// A margin or a reserve, if there is one.
fn small(number: Option<Number>) -> Result<Option<u8>, u8>
    ensures { result ≡ small_of number }
{
    match number {
        None => Ok(None),
        Some(Some(n)) if n <= 255 => Ok(Some(n as u8)),
        Some(_) => Err(RANGE),
    }
}

/// The lowest code of an event whose signal is declared, if any holds.
fn code_of(sources: usize, signal: Signal, pars: &Pars, reserve: Option<u8>) -> Option<u8>
    ensures { (step : LineStep) → MatchOption result (admits sources signal pars.now reserve step ≡ Ok step)
        (λ code. admits sources signal pars.now reserve step ≡ Err code) }
{
    if !pars.fit || (signal.fixed && reserve.is_some()) {
        Some(RANGE)
    } else if sources == 0 {
        Some(SOURCE)
    } else if pars.many || pars.kept.len() != signal.params as usize {
        Some(COUNT)
    } else {
        None
    }
}

#[tactic(auto, unfolding(crate::specs::Reading::post_verdict))]
fn post(
    sources: usize,
    to: Option<u8>,
    event: Event,
    margin: Option<Number>,
    reserve: Option<Number>,
) -> Result<LineStep, u8>
    ensures { result ≡ post_verdict sources to event margin reserve }
{
    let to = to.ok_or(UNDECLARED)?;
    let signal = event.signal.ok_or(UNDECLARED)?;
    let margin = small(margin)?;
    let reserve = small(reserve)?;
    match code_of(sources, signal, &event.pars, reserve) {
        Some(code) => Err(code),
        None => {
            let ev = Ev {
                sig: signal.number,
                pars: event.pars.kept,
            };
            Ok(LineStep::Adds(Stim::Post {
                to,
                ev,
                margin,
                reserve,
            }))
        }
    }
}

#[tactic(auto, unfolding(crate::specs::Reading::publish_verdict))]
fn publish(sources: usize, event: Event, reserve: Option<Number>) -> Result<LineStep, u8>
    ensures { result ≡ publish_verdict sources event reserve }
{
    let signal = event.signal.ok_or(UNDECLARED)?;
    let reserve = small(reserve)?;
    match code_of(sources, signal, &event.pars, reserve) {
        Some(code) => Err(code),
        None => {
            let ev = Ev {
                sig: signal.number,
                pars: event.pars.kept,
            };
            Ok(LineStep::Adds(Stim::Publish { ev, reserve }))
        }
    }
}

#[tactic(auto, unfolding(crate::specs::Reading::tick_verdict))]
fn tick(sources: usize, rate: Number) -> Result<LineStep, u8>
    ensures { result ≡ tick_verdict sources rate }
{
    match rate {
        Some(rate) if rate <= 3 => {
            if sources == 0 {
                return Err(SOURCE);
            }
            Ok(LineStep::Adds(Stim::Tick { rate: rate as u8 }))
        }
        _ => Err(RANGE),
    }
}

fn is_next_source(sources: usize, number: Number) -> bool
    requires { sources < 2 ^ 64 - 1 }
    ensures { result ≡ is_next_source sources number }
{
    number.is_some_and(|n| n <= SOURCES && n == sources as u64 + 1)
}

fn verdict(sources: usize, said: Heard) -> Result<LineStep, u8>
    requires { sources < 2 ^ 64 - 1 }
    ensures { result ≡ verdict_on sources said }
{
    match said {
        Heard::Source(number) if is_next_source(sources, number) => Ok(LineStep::Opens),
        Heard::Source(_) => Err(SOURCE),
        Heard::Post {
            to,
            event,
            margin,
            reserve,
        } => post(sources, to, event, margin, reserve),
        Heard::Publish { event, reserve } => publish(sources, event, reserve),
        Heard::Tick(rate) => tick(sources, rate),
        Heard::Settle if sources == 0 => Err(SOURCE),
        Heard::Settle => Ok(LineStep::Adds(Stim::Settle)),
    }
}

fn says_nothing(line: &[u8]) -> bool
    ensures { result ≡ is_skipped line.now }
{
    matches!(line, [] | [b'#', ..])
}

/// What a line does behind so many sources, or its lowest code.
pub fn judge(names: &SystemNames, sources: usize, line: &[u8]) -> Result<LineStep, u8>
    requires few { FewParams (dictionary names.now) }
    requires sources { sources < 2 ^ 64 - 1 }
    ensures { result ≡ step_of (dictionary names.now) sources line.now }
{
    if says_nothing(line) {
        return Ok(LineStep::Skips);
    }
    match heard(names, line) {
        None => Err(GRAMMAR),
        Some(said) => verdict(sources, said),
    }
}
