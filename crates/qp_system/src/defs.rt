//! The objects and the time events of a system, from what its file says.

ghost use Rattle.std.specs.Option.{option_copied};
ghost use Rattle.std.specs.Prelude.{◌≡◌, ◌≤◌, ◌++◌, length, map, IfOk};
ghost use Rattle.std.specs.Str.{bytes_eq};
ghost use Rattle.std.specs.List.{All, find, flat_map};
ghost use Rattle.std.specs.List.Sorted.{IsPermutation, IsNonDecreasingBy};
ghost use Rattle.qp_chart_names.specs.Pairs.{Corresponds};
ghost use Rattle.qp_system.specs.SystemOf.{initial_value, IsObjectOf};
ghost use Rattle.qp_model.specs.Sound.{timer_of, timers_of};
ghost use Rattle.qp_system.specs.Placed.{chart_place, NamesChart, HasChartAmong};

use qp_chart::{Chart, Name, RawChart, Timer};
use qp_model::{ObjectDef, ObjectDefs, TimerDef, TimerDefs, Values};
use qp_system_tables::{RawObject, RawObjects};
use std::alloc::{AllocError, Global};

/// The objects in ascending priority.
pub fn by_priority(mut objects: RawObjects) -> RawObjects
    ensures same { IsPermutation objects result }
    ensures ascend { IsNonDecreasingBy (λ o. o.priority) result }
{
    objects.items.sort_unstable_by_key(|object| object.priority);
    objects
}

/// The place of the chart of this name.
fn place_of(charts: &[RawChart], name: &Name) -> Option<usize>
    ensures { result ≡ chart_place charts.now name.now }
{
    charts.iter().position(|chart| chart.name == *name)
}

/// The object's own first value of the variable of this name.
fn own_value<'a>(own: &'a [(Name, i64)], name: &Name) -> Option<&'a (Name, i64)>
    ensures { option_copied result ≡ find (λ v. bytes_eq v.0 name.now) own.now }
{
    own.iter().find(|value| value.0 == *name)
}

/// The first value of a variable: the object's own, where it has one.
fn value_of(own: &[(Name, i64)], var: &(Name, i64)) -> i64
    ensures { result ≡ initial_value own.now var.now }
{
    own_value(own, &var.0).map_or(var.1, |value| value.1)
}

/// The first values of a chart's variables for an object with these of its own.
fn values_of(alloc: Global, vars: &[(Name, i64)], own: &[(Name, i64)]) -> Result<Values, AllocError>
    ensures { IfOk result (λ values. values ≡ map (initial_value own.now) vars.now) }
{
    let items = vars.iter().map(|var| value_of(own, var)).collect(alloc)?;
    Ok(Values { items })
}

/// An object whose chart is one of these.
fn object_def(alloc: Global, charts: &[RawChart], raw: &RawObject) -> Result<ObjectDef, AllocError>
    requires few { length charts.now ≤ 32 }
    requires declared { NamesChart charts.now raw.now }
    ensures { IfOk result (IsObjectOf charts.now raw.now) }
{
    let place = place_of(charts, &raw.chart).unwrap();
    let vars = charts[place].vars.as_slice();
    Ok(ObjectDef {
        name: raw.name,
        chart: place as u8 + 1,
        priority: raw.priority,
        threshold: raw.threshold,
        ring: raw.queue,
        defer: raw.defer,
        vars: values_of(alloc, vars, raw.vars.as_slice())?,
    })
}

/// The objects in this order.
pub fn object_defs(
    alloc: Global,
    charts: &[RawChart],
    raws: &[RawObject],
) -> Result<ObjectDefs, AllocError>
    requires few { length charts.now ≤ 32 }
    requires declared { All (NamesChart charts.now) raws.now }
    ensures { IfOk result (Corresponds (IsObjectOf charts.now) raws.now) }
{
    let mut items = Vec::new(alloc);
    for raw in raws {
        let object = object_def(alloc, charts, raw)?;
        items.push(object)?;
    }
    Ok(ObjectDefs { items })
}

/// Adds the time events of an object, which are its chart's.
fn add_timers(
    items: &mut Vec<TimerDef>,
    timers: &[Timer],
    object: &ObjectDef,
) -> Result<(), AllocError>
    ensures { IfOk result (λ _. items.new.items ≡ items.old.items ++ map (timer_of object.now) timers.now) }
{
    for timer in timers {
        items.push(TimerDef {
            object: object.priority,
            sig: timer.signal(),
            rate: timer.rate(),
        })?;
    }
    Ok(())
}

/// The time events of these objects, object by object, each in the order of its chart.
pub fn timer_defs(
    alloc: Global,
    charts: &[Chart],
    objects: &[ObjectDef],
) -> Result<TimerDefs, AllocError>
    requires { All (HasChartAmong charts.now) objects.now }
    ensures { IfOk result (λ timers. timers ≡ flat_map (timers_of charts.now) objects.now) }
{
    let mut items = Vec::new(alloc);
    for object in objects {
        let chart = &charts[object.chart as usize - 1];
        add_timers(&mut items, chart.timer(), object)?;
    }
    Ok(TimerDefs { items })
}
