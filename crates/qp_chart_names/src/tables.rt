//! Tables of the names of a chart and its surroundings.
ghost use Rattle.std.specs.Prelude.{◌≡◌, ◌+◌, ◌^◌, ◌<◌, ◌≤◌, length, map, None, IfOk, IfErr};
ghost use Rattle.qp_chart_names.specs.Numbering.{IsNumbering};
ghost use Rattle.qp_chart_names.specs.Known.{words};
ghost use Rattle.qp_chart_names.specs.Faults.{IsChartFault};
ghost use Rattle.qp_chart_names.specs.NameFaults.{double_fault, doubles_fault};
ghost use Rattle.qp_chart_names.specs.Readable.{IsReadable};
ghost use Rattle.qp_chart_names.specs.TablesOf.{IsTablesOf};
ghost use Rattle.qp_chart_names.specs.RawNumbers.{state_names, timer_names};

use crate::fault::ChartFault;
use crate::place::Part;
use crate::places::NumbersByName;
use crate::raw::{Names, ObjName, RawChart, RawState, RawTimer, SigName};
use crate::{code, key};
use qp_chart_text::Name;
use std::alloc::{AllocError, Global};

/// Numbers by name, of all that a chart may name. The names of the variables stand in their order too.
#[derive(Drop)]
pub struct Tables {
    pub signals: NumbersByName,
    pub objects: NumbersByName,
    pub states: NumbersByName,
    pub timers: NumbersByName,
    pub variables: NumbersByName,
    pub vars: Vec<Name>,
}

/// The tables of a chart and its surroundings. A name that stands twice among the time events or the states is found here.
pub fn tables_of(alloc: Global, raw: &RawChart, names: &Names) -> Result<Tables, ChartFault>
    requires { IsReadable names.now raw.now }
    ensures ok { IfOk result (λ tables. (doubles_fault raw.now ≡ None) × IsTablesOf names.now raw.now tables) }
    ensures fault { IfErr result (IsChartFault (doubles_fault raw.now)) }
{
    let (timers, states) = distinct_names(alloc, raw)?;
    let signals = names_of_signals(alloc, names.signals.as_slice())?;
    let objects = names_of_objects(alloc, names.objects.as_slice())?;
    let vars = names_of_variables(alloc, raw.vars.as_slice())?;
    Ok(Tables {
        signals: numbered(alloc, 4, signals.as_slice())?,
        objects: numbered(alloc, 0, objects.as_slice())?,
        states,
        timers,
        variables: numbered(alloc, 0, vars.as_slice())?,
        vars,
    })
}

/// The tables of the time events and of the states.
fn distinct_names(
    alloc: Global,
    raw: &RawChart,
) -> Result<(NumbersByName, NumbersByName), ChartFault>
    requires timers { length raw.now.timer ≤ 8 }
    requires states { length raw.now.state ≤ 64 }
    ensures ok { IfOk result (λ tables. (doubles_fault raw.now ≡ None) × IsNumbering 1 (timer_names raw.now.timer) tables.0 × IsNumbering 1
        (state_names raw.now.state) tables.1) }
    ensures fault { IfErr result (IsChartFault (doubles_fault raw.now)) }
{
    let timers = names_of_timers(alloc, raw.timer.as_slice())?;
    let timers = distinct(alloc, key::TIMER, timers.as_slice())?;
    let states = names_of_states(alloc, raw.state.as_slice())?;
    let states = distinct(alloc, key::STATE, states.as_slice())?;
    Ok((timers, states))
}

/// The names numbered from `first`.
fn numbered(alloc: Global, first: u16, names: &[Name]) -> Result<NumbersByName, AllocError>
    requires { first + length names.now < 2 ^ 16 }
    ensures { IfOk result (IsNumbering first (words names.now)) }
{
    let mut places = NumbersByName::new(alloc);
    for (i, name) in names.iter().enumerate() {
        places.add(name, first + i as u16)?;
    }
    Ok(places)
}

/// The names numbered from 1, where no two are the same. They are those in the list at this key.
fn distinct(alloc: Global, list: u8, names: &[Name]) -> Result<NumbersByName, ChartFault>
    requires { length names.now < 2 ^ 15 }
    ensures ok { IfOk result (λ places. (double_fault list (words names.now) ≡ None) × IsNumbering 1 (words names.now) places) }
    ensures fault { IfErr result (IsChartFault (double_fault list (words names.now))) }
{
    let mut places = NumbersByName::new(alloc);
    for (i, name) in names.iter().enumerate() {
        let place = i as u16 + 1;
        if !places.add(name, place)? {
            let at = [Part::Key(list), Part::Pos(place)];
            return Err(ChartFault::below(code::DOUBLE, &at, &[Part::Key(key::NAME)]));
        }
    }
    Ok(places)
}

fn names_of_signals(alloc: Global, signals: &[SigName]) -> Result<Vec<Name>, AllocError>
    ensures { IfOk result (λ names. names.items ≡ map (λ signal. signal.name) signals.now) }
{
    signals.iter().map(|signal| signal.name).collect(alloc)
}

fn names_of_objects(alloc: Global, objects: &[ObjName]) -> Result<Vec<Name>, AllocError>
    ensures { IfOk result (λ names. names.items ≡ map (λ object. object.name) objects.now) }
{
    objects.iter().map(|object| object.name).collect(alloc)
}

fn names_of_states(alloc: Global, states: &[RawState]) -> Result<Vec<Name>, AllocError>
    ensures { IfOk result (λ names. names.items ≡ map (λ state. state.name) states.now) }
{
    let mut names = Vec::new(alloc);
    for state in states {
        names.push(state.name)?;
    }
    Ok(names)
}

fn names_of_timers(alloc: Global, timers: &[RawTimer]) -> Result<Vec<Name>, AllocError>
    ensures { IfOk result (λ names. names.items ≡ map (λ timer. timer.name) timers.now) }
{
    timers.iter().map(|timer| timer.name).collect(alloc)
}

fn names_of_variables(alloc: Global, vars: &[(Name, i64)]) -> Result<Vec<Name>, AllocError>
    ensures { IfOk result (λ names. names.items ≡ map (λ var. var.0) vars.now) }
{
    vars.iter().map(|var| var.0).collect(alloc)
}
