//! The system of a file's bytes.

ghost use Rattle.std.specs.Prelude.{IfOk, IfErr};
ghost use Rattle.qp_model.specs.Sound.{IsSound};
ghost use Rattle.qp_system.specs.SystemOf.{IsSystemOf, RefusesSystem};

use crate::checked::checked_of_bytes;
use crate::defs::{by_priority, object_defs, timer_defs};
use qp_model::System;
use qp_system_tables::SystemFault;
use std::alloc::Global;

/// Reads a system file.
///
/// It refuses with the first fault of the file: of its text as TOML, of a table by itself, then between tables, within
/// charts, and of a signal that fits no pool.
pub fn system_of_bytes(alloc: Global, bytes: &[u8]) -> Result<System, SystemFault>
    ensures ok { IfOk result (λ sys. IsSystemOf bytes.now sys) }
    ensures sound { IfOk result (λ sys. IsSound sys) }
    ensures fault { IfErr result (λ e. RefusesSystem bytes.now e) }
{
    let (raw, charts) = checked_of_bytes(alloc, bytes)?;
    let tables = raw.charts;
    let ordered = by_priority(raw.objects);
    let objects = object_defs(alloc, &tables.items, &ordered.items)?;
    let timers = timer_defs(alloc, &charts.items, &objects.items)?;
    Ok(System {
        pools: raw.pools,
        signals: raw.signals,
        charts,
        objects,
        timers,
    })
}
