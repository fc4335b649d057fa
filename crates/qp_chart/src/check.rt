//! The check that makes a chart of what a file says.
ghost use Rattle.std.specs.Prelude.{◌≡◌, ◌≤◌, length, map, None, IfOk, IfErr};
ghost use Rattle.qp_chart_names.specs.Faults.{IsChartFault, first_in};
ghost use Rattle.qp_chart.specs.Parents.{parents_of, parent_number};
ghost use Rattle.qp_chart.specs.ChartFaults.{chart_fault, parts_fault, body_fault, frame_fault, timer_fault, parent_at};
ghost use Rattle.qp_chart_names.specs.Pairs.{Corresponds};
ghost use Rattle.qp_chart.specs.ChartOf.{IsTimerOf, IsBodyOf, IsChartOf};
ghost use Rattle.qp_chart.specs.LegalTree.{IsLegal};
ghost use Rattle.qp_chart_names.specs.Readable.{IsReadable};

use crate::actions::Acts;
use crate::checked::{Chart, States, Timer, Timers};
use crate::parents::check_tree;
use crate::state_check::checked_states;
use crate::statements::checked_acts;
use qp_chart_names::fit::signal_is_static;
use qp_chart_names::{
    ChartFault, Names, Part, RawChart, RawState, RawTimer, Scope, Vars, code, key, tables_of,
};
use qp_chart_text::Name;
use std::alloc::{AllocError, Global};

impl Chart {
    /// Checks a chart and resolves its names.
    ///
    /// Of several faults it answers the first in the order of the file; the path begins below the chart.
    pub fn check(alloc: Global, raw: &RawChart, names: &Names) -> Result<Chart, ChartFault>
        requires { IsReadable names.now raw.now }
        ensures ok { IfOk result (λ chart. (chart_fault names.now raw.now ≡ None) × IsChartOf names.now raw.now chart) }
        ensures legal { IfOk result IsLegal }
        ensures fault { IfErr result (IsChartFault (chart_fault names.now raw.now)) }
    {
        let scope = Scope {
            names,
            chart: raw,
            tables: tables_of(alloc, raw, names)?,
        };
        checked_chart(alloc, &scope)
    }
}

/// A chart in which no name stands twice.
fn checked_chart(alloc: Global, scope: &Scope<'_>) -> Result<Chart, ChartFault>
    requires { IsReadable scope.now.names.now scope.now.chart.now }
    ensures ok { IfOk result (λ chart. (parts_fault scope.now.names.now scope.now.chart.now ≡ None) ×
        IsChartOf scope.now.names.now scope.now.chart.now chart) }
    ensures fault { IfErr result (IsChartFault (parts_fault scope.now.names.now scope.now.chart.now)) }
{
    let (timer, parents) = checked_frame(alloc, scope)?;
    let (init, init_do, state) = checked_body(alloc, scope, parents.as_slice())?;
    let vars = copied_vars(alloc, scope.chart.vars.as_slice())?;
    Ok(Chart {
        name: scope.chart.name,
        init,
        init_do,
        vars,
        timer,
        state,
    })
}

/// The start of a chart, and its states.
fn checked_body(
    alloc: Global,
    scope: &Scope<'_>,
    parents: &[Option<u8>],
) -> Result<(u8, Acts, States), ChartFault>
    requires parents { parents.now ≡ parents_of scope.now.chart.now }
    requires readable { IsReadable scope.now.names.now scope.now.chart.now }
    ensures ok { IfOk result (λ body. (body_fault scope.now.names.now scope.now.chart.now ≡ None) ×
        IsBodyOf scope.now.names.now scope.now.chart.now body.0 body.1 body.2) }
    ensures fault { IfErr result (IsChartFault (body_fault scope.now.names.now scope.now.chart.now)) }
{
    let raw = scope.chart;
    let init = scope.state(&raw.init, &[], key::INIT)?;
    let init_do = checked_acts(
        alloc,
        scope,
        None,
        &[],
        key::INIT_DO,
        raw.init_do.as_slice(),
    )?;
    let state = checked_states(alloc, scope, parents, raw.state.as_slice())?;
    Ok((init, init_do, state))
}

/// The time events, and the parents of the states, which make a tree.
fn checked_frame(alloc: Global, scope: &Scope<'_>) -> Result<(Timers, Vec<Option<u8>>), ChartFault>
    requires timers { length scope.now.chart.now.timer ≤ 8 }
    requires states { length scope.now.chart.now.state ≤ 64 }
    ensures ok { IfOk result (λ frame. (frame_fault scope.now.names.now scope.now.chart.now ≡ None) × Corresponds
        (IsTimerOf scope.now.names.now) scope.now.chart.now.timer frame.0 × (frame.1.items ≡ parents_of scope.now.chart.now)) }
    ensures fault { IfErr result (IsChartFault (frame_fault scope.now.names.now scope.now.chart.now)) }
{
    let timers = checked_timers(alloc, scope, scope.chart.timer.as_slice())?;
    let parents = checked_parents(alloc, scope, scope.chart.state.as_slice())?;
    check_tree(parents.as_slice())?;
    Ok((timers, parents))
}

/// The time events in order.
fn checked_timers(alloc: Global, scope: &Scope<'_>, raws: &[RawTimer]) -> Result<Timers, ChartFault>
    requires { length raws.now ≤ 8 }
    ensures ok { IfOk result (λ timers. (first_in (timer_fault scope.now.names.now) 1 raws.now ≡ None) × Corresponds
        (IsTimerOf scope.now.names.now) raws.now timers) }
    ensures fault { IfErr result (IsChartFault (first_in (timer_fault scope.now.names.now) 1 raws.now)) }
{
    let mut timers = Vec::new(alloc);
    for (i, raw) in raws.iter().enumerate() {
        let timer = checked_timer(scope, i as u16 + 1, raw)?;
        timers.push(timer)?;
    }
    Ok(Timers { items: timers })
}

/// One time event.
fn checked_timer(scope: &Scope<'_>, place: u16, raw: &RawTimer) -> Result<Timer, ChartFault>
    ensures ok { IfOk result (λ timer. (timer_fault scope.now.names.now place raw.now ≡ None) × IsTimerOf scope.now.names.now raw.now timer) }
    ensures fault { IfErr result (IsChartFault (timer_fault scope.now.names.now place raw.now)) }
{
    let at = [Part::Key(key::TIMER), Part::Pos(place)];
    let signal = scope.signal(&raw.signal, &at, key::SIGNAL)?;
    if !signal_is_static(scope, &raw.signal) {
        return Err(ChartFault::below(code::RANGE, &at, &[Part::Key(key::SIGNAL)]));
    }
    Ok(Timer {
        name: raw.name,
        signal,
        rate: raw.rate,
    })
}

/// The parents of the states in order.
fn checked_parents(
    alloc: Global,
    scope: &Scope<'_>,
    raws: &[RawState],
) -> Result<Vec<Option<u8>>, ChartFault>
    requires { length raws.now ≤ 64 }
    ensures ok { IfOk result (λ parents. (first_in (parent_at scope.now.chart.now) 1 raws.now ≡ None) ×
        (parents.items ≡ map (λ raw. parent_number scope.now.chart.now raw) raws.now)) }
    ensures fault { IfErr result (IsChartFault (first_in (parent_at scope.now.chart.now) 1 raws.now)) }
{
    let mut parents = Vec::new(alloc);
    for (i, raw) in raws.iter().enumerate() {
        let at = [Part::Key(key::STATE), Part::Pos(i as u16 + 1)];
        let parent = scope.optional_state(&raw.parent, &at, key::PARENT)?;
        parents.push(parent)?;
    }
    Ok(parents)
}

/// The variables with their first values.
fn copied_vars(alloc: Global, vars: &[(Name, i64)]) -> Result<Vars, AllocError>
    ensures { IfOk result (λ copied. copied ≡ vars.now) }
{
    let items = vars.iter().copied().collect(alloc)?;
    Ok(Vars { items })
}
