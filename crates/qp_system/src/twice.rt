//! Names that stand twice, sizes that don't ascend, and static signals with parameters.

ghost use Rattle.std.specs.Prelude.{◌≡◌, ◌≤◌, ◌==◌, ◌&&◌, ◌∷◌, [], None, not, length, map};
ghost use Rattle.std.specs.List.{list_any};
ghost use Rattle.std.specs.Str.{bytes_eq};
ghost use Rattle.qp_chart_names.specs.declared.place.Part.TheVariants.{Key, Pos};
ghost use Rattle.qp_system.specs.Between.{is_not_above, sizes_fault, first_behind, signal_fault, chart_name_fault, object_fault};
ghost use Rattle.qp_system.specs.Passes.{Passes};
ghost use Rattle.qp_system_tables.specs.Refused.{fault_at};

use qp_chart::{Name, Part, Path, RawChart, code, key};
use qp_model::{PoolDef, SignalDef};
use qp_system_tables::{RawObject, SystemFault};

/// A fault at a key of a member of a list of the file.
pub fn member_fault(code: u8, list: u8, place: u16, key: u8) -> SystemFault
    ensures { result ≡ fault_at code (Key list ∷ Pos place ∷ Key key ∷ []) }
{
    SystemFault::At {
        code,
        path: Path::of(&[Part::Key(list), Part::Pos(place)], &[Part::Key(key)]),
    }
}

fn is_at_most(before: Option<u8>, size: u8) -> bool
    ensures { result ≡ is_not_above before size }
{
    match before {
        None => false,
        Some(before) => size <= before,
    }
}

/// Refuses pools whose sizes don't ascend.
pub fn sizes_ascend(pools: &[PoolDef]) -> Result<(), SystemFault>
    requires { length pools.now ≤ 200 }
    ensures { Passes (sizes_fault 1 None pools.now) result }
{
    let mut before = None;
    for (i, pool) in pools.iter().enumerate() {
        if is_at_most(before, pool.size) {
            return Err(member_fault(code::RANGE, key::POOL, i as u16 + 1, key::SIZE));
        }
        before = Some(pool.size);
    }
    Ok(())
}

fn has_needless_parameters(signal: &SignalDef) -> bool
    ensures { result ≡ (signal.now.fixed && not (signal.now.params == 0)) }
{
    signal.fixed && signal.params != 0
}

fn signal_is_named(signals: &[SignalDef], name: &Name) -> bool
    ensures { result ≡ list_any (λ x. bytes_eq name.now x.name) signals.now }
{
    signals.iter().any(|signal| *name == signal.name)
}

/// A signal behind others.
fn signal_passes(earlier: &[SignalDef], place: u16, signal: &SignalDef) -> Result<(), SystemFault>
    ensures { Passes (signal_fault earlier.now place signal.now) result }
{
    if signal_is_named(earlier, &signal.name) {
        return Err(member_fault(code::DOUBLE, key::SIGNAL, place, key::NAME));
    }
    if has_needless_parameters(signal) {
        return Err(member_fault(code::RANGE, key::SIGNAL, place, key::STATIC));
    }
    Ok(())
}

/// Refuses signals of one name, and static signals with parameters.
pub fn signals_pass(signals: &[SignalDef]) -> Result<(), SystemFault>
    requires { length signals.now ≤ 200 }
    ensures { Passes (first_behind signal_fault [] 1 signals.now) result }
{
    for (i, signal) in signals.iter().enumerate() {
        signal_passes(&signals[..i], i as u16 + 1, signal)?;
    }
    Ok(())
}

fn chart_is_named(charts: &[RawChart], name: &Name) -> bool
    ensures { result ≡ list_any (λ x. bytes_eq name.now x.name) charts.now }
{
    charts.iter().any(|chart| *name == chart.name)
}

/// A chart behind others.
fn chart_passes(earlier: &[RawChart], place: u16, chart: &RawChart) -> Result<(), SystemFault>
    ensures { Passes (chart_name_fault earlier.now place chart.now) result }
{
    if chart_is_named(earlier, &chart.name) {
        return Err(member_fault(code::DOUBLE, key::CHART, place, key::NAME));
    }
    Ok(())
}

/// Refuses charts of one name.
pub fn charts_pass(charts: &[RawChart]) -> Result<(), SystemFault>
    requires { length charts.now ≤ 200 }
    ensures { Passes (first_behind chart_name_fault [] 1 charts.now) result }
{
    for (i, chart) in charts.iter().enumerate() {
        chart_passes(&charts[..i], i as u16 + 1, chart)?;
    }
    Ok(())
}

fn object_is_named(objects: &[RawObject], name: &Name) -> bool
    ensures { result ≡ list_any (λ x. bytes_eq name.now x.name) objects.now }
{
    objects.iter().any(|object| *name == object.name)
}

/// An object behind others.
fn object_passes(earlier: &[RawObject], place: u16, object: &RawObject) -> Result<(), SystemFault>
    ensures { Passes (object_fault earlier.now place object.now) result }
{
    if object_is_named(earlier, &object.name) {
        return Err(member_fault(code::DOUBLE, key::OBJECT, place, key::NAME));
    }
    Ok(())
}

/// Refuses objects of one name.
pub fn objects_pass(objects: &[RawObject]) -> Result<(), SystemFault>
    requires { length objects.now ≤ 200 }
    ensures { Passes (first_behind object_fault [] 1 objects.now) result }
{
    for (i, object) in objects.iter().enumerate() {
        object_passes(&objects[..i], i as u16 + 1, object)?;
    }
    Ok(())
}
