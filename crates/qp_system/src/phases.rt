//! The faults of a system whose tables have none by themselves, in their order.

ghost use Rattle.std.specs.Prelude.{◌≤◌, length, All, IfOk};
ghost use Rattle.qp_chart.specs.ChartOf.{IsChartOf};
ghost use Rattle.qp_chart_names.specs.Pairs.{Corresponds};
ghost use Rattle.qp_system_tables.specs.Few.{IsFewChart, IsFew};
ghost use Rattle.qp_system.specs.Later.{later_of, later_fault};
ghost use Rattle.qp_system.specs.Passes.{Passes};
ghost use Rattle.qp_system.specs.Within.{outer_names};

use crate::between::{pools_pass, tables_pass};
use crate::charts::{checked_charts, outer_names};
use qp_chart::RawChart;
use qp_model::{Charts, PoolDef, SignalDef};
use qp_system_tables::{RawObject, RawSystem, SystemFault};
use std::alloc::Global;

/// The checked charts of these tables.
fn charts_of_tables(
    alloc: Global,
    pools: &[PoolDef],
    signals: &[SignalDef],
    charts: &[RawChart],
    objects: &[RawObject],
) -> Result<Charts, SystemFault>
    requires pools { length pools.now ≤ 15 }
    requires signals { length signals.now ≤ 200 }
    requires charts { length charts.now ≤ 32 }
    requires objects { length objects.now ≤ 32 }
    requires each { All IsFewChart charts.now }
    ensures passes { Passes (later_of pools.now signals.now charts.now objects.now) result }
    ensures made { IfOk result (Corresponds (IsChartOf (outer_names signals.now objects.now)) charts.now) }
{
    tables_pass(pools, signals, charts, objects)?;
    let names = outer_names(alloc, signals, objects)?;
    let checked = checked_charts(alloc, &names, charts)?;
    pools_pass(pools, signals)?;
    Ok(checked)
}

/// The checked charts of a system whose tables have no fault by themselves.
///
/// It refuses with the first fault in the order of the file: between the tables, then within each chart, then a signal that fits no pool.
pub fn charts_of(alloc: Global, raw: &RawSystem) -> Result<Charts, SystemFault>
    requires { IsFew raw.now }
    ensures passes { Passes (later_fault raw.now) result }
    ensures made { IfOk result (Corresponds (IsChartOf (outer_names raw.now.signals raw.now.objects)) raw.now.charts) }
{
    charts_of_tables(
        alloc,
        &raw.pools.items,
        &raw.signals.items,
        &raw.charts.items,
        &raw.objects.items,
    )
}
