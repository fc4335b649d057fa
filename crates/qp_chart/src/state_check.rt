//! The states of a chart with their rows, in the order of the file.
ghost use Rattle.std.specs.Prelude.{◌≡◌, ◌+◌, ◌≤◌, ◌++◌, length, None, IfOk, IfErr, All};
ghost use Rattle.qp_chart_names.specs.declared.raw.RawRow.{RawRow};
ghost use Rattle.qp_chart_names.specs.declared.raw.RawState.{RawState};
ghost use Rattle.std.specs.Option.{option_and_then};
ghost use Rattle.qp_chart_names.specs.Faults.{IsChartFault, first_in};
ghost use Rattle.qp_chart.specs.Parents.{parents_of, parent_number, is_below_in};
ghost use Rattle.qp_chart.specs.ChartFaults.{init_fault, row_fault, rows_fault, state_fault, is_covered, state_place};
ghost use Rattle.qp_chart_names.specs.Pairs.{Corresponds};
ghost use Rattle.qp_chart_names.specs.RawNumbers.{state_number};
ghost use Rattle.qp_chart.specs.ChartOf.{IsRowOf, IsStateOf};
ghost use Rattle.qp_chart_names.specs.RawNumbers.{Refers};
ghost use Rattle.qp_chart_names.specs.Readable.{IsReadableRow, IsReadableState};

use crate::checked::{Row, Rows, State, States};
use crate::parents::stands_above;
use crate::statements::{checked_acts, checked_guard};
use qp_chart_names::fit::count_of;
use qp_chart_names::{ChartFault, Part, RawRow, RawState, Scope, code, key};
use qp_chart_text::Name;
use std::alloc::Global;

/// The states in order.
pub(crate) fn checked_states(
    alloc: Global,
    scope: &Scope<'_>,
    parents: &[Option<u8>],
    raws: &[RawState],
) -> Result<States, ChartFault>
    requires parents { parents.now ≡ parents_of scope.now.chart.now }
    requires few { length raws.now ≤ 64 }
    requires readable { All IsReadableState raws.now }
    ensures ok { IfOk result (λ states. (first_in (state_fault scope.now.names.now scope.now.chart.now) 1 raws.now ≡ None) × Corresponds
        (IsStateOf scope.now.names.now scope.now.chart.now) raws.now states) }
    ensures fault { IfErr result (IsChartFault (first_in (state_fault scope.now.names.now scope.now.chart.now) 1 raws.now)) }
{
    let mut states = Vec::new(alloc);
    for (i, raw) in raws.iter().enumerate() {
        let state = checked_state(alloc, scope, parents, i as u8 + 1, raw)?;
        states.push(state)?;
    }
    Ok(States { items: states })
}

/// One state.
fn checked_state(
    alloc: Global,
    scope: &Scope<'_>,
    parents: &[Option<u8>],
    place: u8,
    raw: &RawState,
) -> Result<State, ChartFault>
    requires parents { parents.now ≡ parents_of scope.now.chart.now }
    requires readable { IsReadableState raw.now }
    ensures ok { IfOk result (λ state. (state_fault scope.now.names.now scope.now.chart.now place raw.now ≡ None) × IsStateOf
        scope.now.names.now scope.now.chart.now raw.now state) }
    ensures fault { IfErr result (IsChartFault (state_fault scope.now.names.now scope.now.chart.now place raw.now)) }
{
    let at = [Part::Key(key::STATE), Part::Pos(place as u16)];
    let entry = checked_acts(alloc, scope, None, &at, key::ENTRY, raw.entry.as_slice())?;
    let exit = checked_acts(alloc, scope, None, &at, key::EXIT, raw.exit.as_slice())?;
    let init = checked_init(scope, parents, place, &raw.init)?;
    let init_do = checked_acts(
        alloc,
        scope,
        None,
        &at,
        key::INIT_DO,
        raw.init_do.as_slice(),
    )?;
    let row = checked_rows(alloc, scope, place, raw.row.as_slice())?;
    Ok(State {
        name: raw.name,
        parent: parent_of(scope, &raw.parent),
        entry,
        exit,
        init,
        init_do,
        row,
    })
}

/// The number of the state that the key `parent` names.
fn parent_of(scope: &Scope<'_>, parent: &Option<Name>) -> Option<u8>
    ensures { result ≡ option_and_then (λ name. state_number scope.now.chart.now name) parent.now }
{
    match parent {
        Some(name) => scope.state_number(name),
        None => None,
    }
}

/// The initial target of the state at this place.
fn checked_init(
    scope: &Scope<'_>,
    parents: &[Option<u8>],
    place: u8,
    init: &Option<Name>,
) -> Result<Option<u8>, ChartFault>
    requires { parents.now ≡ parents_of scope.now.chart.now }
    ensures ok { IfOk result (λ to. (init_fault scope.now.chart.now place init.now ≡ None) × Refers (state_number scope.now.chart.now)
        init.now to) }
    ensures fault { IfErr result (IsChartFault (init_fault scope.now.chart.now place init.now)) }
{
    let Some(name) = init else {
        return Ok(None);
    };
    let at = [Part::Key(key::STATE), Part::Pos(place as u16)];
    let target = scope.state(name, &at, key::INIT)?;
    if !is_below(parents, target, place) {
        return Err(ChartFault::below(code::INIT_NOT_BELOW, &at, &[Part::Key(key::INIT)]));
    }
    Ok(Some(target))
}

/// Whether a state stands properly below another.
fn is_below(parents: &[Option<u8>], inner: u8, outer: u8) -> bool
    ensures { result ≡ is_below_in parents.now inner outer }
{
    stands_above(parents, Some(inner), outer) && inner != outer
}

/// The rows of a state in order.
fn checked_rows(
    alloc: Global,
    scope: &Scope<'_>,
    place: u8,
    raws: &[RawRow],
) -> Result<Rows, ChartFault>
    requires few { length raws.now ≤ 32 }
    requires readable { All IsReadableRow raws.now }
    ensures ok { IfOk result (λ rows. (rows_fault scope.now.names.now scope.now.chart.now place raws.now ≡ None) × Corresponds
        (IsRowOf scope.now.names.now scope.now.chart.now) raws.now rows) }
    ensures fault { IfErr result (IsChartFault (rows_fault scope.now.names.now scope.now.chart.now place raws.now)) }
{
    let mut rows = Vec::new(alloc);
    for (i, raw) in raws.iter().enumerate() {
        let at = [
            Part::Key(key::STATE),
            Part::Pos(place as u16),
            Part::Key(key::ROW),
            Part::Pos(i as u16 + 1),
        ];
        let row = checked_row(alloc, scope, &at, &raws[..i], raw)?;
        rows.push(row)?;
    }
    Ok(Rows { items: rows })
}

/// One row. `earlier` are the rows before it.
fn checked_row(
    alloc: Global,
    scope: &Scope<'_>,
    at: &[Part],
    earlier: &[RawRow],
    raw: &RawRow,
) -> Result<Row, ChartFault>
    requires place { length at.now ≤ 6 }
    requires readable { IsReadableRow raw.now }
    ensures ok { IfOk result (λ row. (row_fault scope.now.names.now scope.now.chart.now at.now earlier.now raw.now ≡ None) × IsRowOf
        scope.now.names.now scope.now.chart.now raw.now row) }
    ensures fault { IfErr result (IsChartFault (row_fault scope.now.names.now scope.now.chart.now at.now earlier.now raw.now)) }
{
    let on = scope.signal(&raw.on, at, key::ON)?;
    if covered(earlier, raw) {
        return Err(ChartFault::below(code::TWO_ROWS, at, &[]));
    }
    let params = count_of(scope, &raw.on);
    let when = checked_guard(alloc, scope, params, at, &raw.when)?;
    let acts = checked_acts(alloc, scope, Some(params), at, key::DO, raw.acts.as_slice())?;
    let to = scope.optional_state(&raw.to, at, key::TO)?;
    Ok(Row { on, when, acts, to })
}

/// Whether one of the earlier rows has the same signal and no guard.
fn covered(earlier: &[RawRow], raw: &RawRow) -> bool
    ensures { result ≡ is_covered earlier.now raw.now }
{
    earlier
        .iter()
        .any(|before| before.on == raw.on && before.when.is_none())
}
