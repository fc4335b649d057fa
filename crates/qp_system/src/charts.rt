//! The charts of a system file, checked.

ghost use Rattle.std.specs.Prelude.{◌≡◌, ◌≤◌, length, map, All, IfOk};
ghost use Rattle.qp_chart.specs.ChartOf.{IsChartOf};
ghost use Rattle.qp_chart_names.specs.Pairs.{Corresponds};
ghost use Rattle.qp_chart_names.specs.Readable.{IsReadable};
ghost use Rattle.qp_system.specs.Passes.{Passes};
ghost use Rattle.qp_system.specs.Within.{signal_name, object_name, outer_names, within_chart, charts_fault};

use qp_chart::{
    Chart, ChartFault, Names, ObjName, ObjNames, Part, Path, RawChart, SigName, SigNames, key,
};
use qp_model::{Charts, SignalDef};
use qp_system_tables::{RawObject, SystemFault};
use std::alloc::{AllocError, Global};

fn signal_names(alloc: Global, signals: &[SignalDef]) -> Result<SigNames, AllocError>
    ensures { IfOk result (λ names. names ≡ map signal_name signals.now) }
{
    let mut items = Vec::new(alloc);
    for signal in signals {
        items.push(SigName {
            name: signal.name,
            params: signal.params,
            fixed: signal.fixed,
        })?;
    }
    Ok(SigNames { items })
}

fn object_names(alloc: Global, objects: &[RawObject]) -> Result<ObjNames, AllocError>
    ensures { IfOk result (λ names. names ≡ map object_name objects.now) }
{
    let mut items = Vec::new(alloc);
    for object in objects {
        items.push(ObjName {
            name: object.name,
            priority: object.priority,
        })?;
    }
    Ok(ObjNames { items })
}

/// What charts may name outside themselves.
pub fn outer_names(
    alloc: Global,
    signals: &[SignalDef],
    objects: &[RawObject],
) -> Result<Names, AllocError>
    ensures { IfOk result (λ names. names ≡ outer_names signals.now objects.now) }
{
    let signals = signal_names(alloc, signals)?;
    let objects = object_names(alloc, objects)?;
    Ok(Names { signals, objects })
}

/// The chart at this place, checked.
fn checked_chart(
    alloc: Global,
    names: &Names,
    place: u16,
    raw: &RawChart,
) -> Result<Chart, SystemFault>
    requires { IsReadable names.now raw.now }
    ensures passes { Passes (within_chart names.now place raw.now) result }
    ensures made { IfOk result (IsChartOf names.now raw.now) }
{
    match Chart::check(alloc, raw, names) {
        Ok(chart) => Ok(chart),
        Err(ChartFault::Memory) => Err(SystemFault::Memory),
        Err(ChartFault::At { code, path }) => Err(SystemFault::At {
            code,
            path: Path::of(
                &[Part::Key(key::CHART), Part::Pos(place)],
                path.0.as_slice(),
            ),
        }),
    }
}

/// The charts, checked in order.
pub fn checked_charts(
    alloc: Global,
    names: &Names,
    charts: &[RawChart],
) -> Result<Charts, SystemFault>
    requires few { length charts.now ≤ 32 }
    requires readable { All (IsReadable names.now) charts.now }
    ensures passes { Passes (charts_fault names.now charts.now) result }
    ensures made { IfOk result (Corresponds (IsChartOf names.now) charts.now) }
{
    let mut items = Vec::new(alloc);
    for (i, raw) in charts.iter().enumerate() {
        let chart = checked_chart(alloc, names, i as u16 + 1, raw)?;
        items.push(chart)?;
    }
    Ok(Charts { items })
}
