//! What an object takes from its chart, and its place among the others.

ghost use Rattle.std.specs.Prelude.{◌≡◌, ◌+◌, ◌≤◌, ◌==◌, [], length, map, IfOk};
ghost use Rattle.std.specs.List.{find, list_all, list_any, sum_by};
ghost use Rattle.std.specs.Option.{option_copied};
ghost use Rattle.std.specs.Str.{bytes_eq};
ghost use Rattle.qp_system.specs.Between.{timer_count_of, placing_fault, first_behind};
ghost use Rattle.qp_system.specs.Passes.{Passes};

use crate::twice::member_fault;
use qp_chart::{Name, Part, Path, RawChart, code, key};
use qp_system_tables::{RawObject, SystemFault};

/// How many time events all objects may have.
const MOST_TIMERS: usize = 64;

/// The first chart of this name.
fn chart_of<'a>(charts: &'a [RawChart], name: &Name) -> Option<&'a RawChart>
    ensures { option_copied result ≡ find (λ c. bytes_eq c.name name.now) charts.now }
{
    charts.iter().find(|chart| chart.name == *name)
}

fn has_var(own: &[(Name, i64)], name: &Name) -> bool
    ensures { result ≡ list_any (λ v. bytes_eq v.0 name.now) own.now }
{
    own.iter().any(|var| var.0 == *name)
}

/// Whether each of these variables is one of the chart's own.
fn has_all(own: &[(Name, i64)], vars: &[(Name, i64)]) -> bool
    ensures { result ≡ list_all (λ var. list_any (λ v. bytes_eq v.0 var.0) own.now) vars.now }
{
    vars.iter().all(|var| has_var(own, &var.0))
}

fn is_taken(objects: &[RawObject], priority: u8) -> bool
    ensures { result ≡ list_any (λ x. x.priority == priority) objects.now }
{
    objects.iter().any(|object| object.priority == priority)
}

/// An object behind others that have so many time events. It answers how many there are with its own.
fn object_placed(
    charts: &[RawChart],
    earlier: &[RawObject],
    timers: usize,
    place: u16,
    object: &RawObject,
) -> Result<usize, SystemFault>
    requires sum { timers ≡ sum_by (timer_count_of charts.now) earlier.now }
    requires few { timers ≤ 64 }
    ensures passes { Passes (placing_fault charts.now earlier.now place object.now) result }
    ensures total { IfOk result (λ total. (total ≡ timers + timer_count_of charts.now object.now) ×
        (total ≤ 64)) }
{
    let Some(chart) = chart_of(charts, &object.chart) else {
        return Err(member_fault(code::NO_SUCH_NAME, key::OBJECT, place, key::CHART));
    };
    if !has_all(chart.vars.as_slice(), object.vars.as_slice()) {
        return Err(member_fault(code::NO_SUCH_NAME, key::OBJECT, place, key::VARS));
    }
    if is_taken(earlier, object.priority) {
        return Err(member_fault(code::DOUBLE, key::OBJECT, place, key::PRIORITY));
    }
    if object.threshold < object.priority {
        return Err(member_fault(code::RANGE, key::OBJECT, place, key::THRESHOLD));
    }
    let total = timers + chart.timer.as_slice().len();
    if total > MOST_TIMERS {
        return Err(SystemFault::At {
            code: code::TOO_MANY,
            path: Path::of(&[Part::Key(key::OBJECT), Part::Pos(place)], &[]),
        });
    }
    Ok(total)
}

/// Refuses objects whose chart or variables aren't declared, whose priority stands twice or is above their threshold, and too many time events.
pub fn objects_placed(charts: &[RawChart], objects: &[RawObject]) -> Result<(), SystemFault>
    requires { length objects.now ≤ 200 }
    ensures { Passes (first_behind (placing_fault charts.now) [] 1 objects.now) result }
{
    let mut timers = 0;
    for (i, object) in objects.iter().enumerate() {
        timers = object_placed(charts, &objects[..i], timers, i as u16 + 1, object)?;
    }
    Ok(())
}
