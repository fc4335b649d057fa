//! Faults between the tables of a system file, before and after those within its charts.

ghost use Rattle.std.specs.Prelude.{◌≡◌, ◌≤◌, ◌&&◌, not, nat_le, length, map};
ghost use Rattle.std.specs.List.{list_any};
ghost use Rattle.qp_system.specs.Between.{between_fault, no_pool_fault};
ghost use Rattle.qp_system_tables.specs.Few.{whole};
ghost use Rattle.qp_system.specs.Passes.{Passes};

use crate::placing::objects_placed;
use crate::twice::{charts_pass, objects_pass, signals_pass, sizes_ascend};
use qp_chart::{Part, Path, RawChart, code, key};
use qp_model::{PoolDef, SignalDef};
use qp_system_tables::{RawObject, SystemFault};

/// Refuses tables with a fault between them.
pub fn tables_pass(
    pools: &[PoolDef],
    signals: &[SignalDef],
    charts: &[RawChart],
    objects: &[RawObject],
) -> Result<(), SystemFault>
    requires pools { length pools.now ≤ 15 }
    requires signals { length signals.now ≤ 200 }
    requires charts { length charts.now ≤ 32 }
    requires objects { length objects.now ≤ 32 }
    ensures { Passes (between_fault (whole pools.now signals.now charts.now objects.now)) result }
{
    sizes_ascend(pools)?;
    signals_pass(signals)?;
    charts_pass(charts)?;
    objects_pass(objects)?;
    objects_placed(charts, objects)
}

fn has_room(pools: &[PoolDef], params: u8) -> bool
    ensures { result ≡ list_any (λ p. nat_le params p.size) pools.now }
{
    pools.iter().any(|pool| params <= pool.size)
}

/// Whether no pool has blocks for a signal that isn't static.
fn has_no_pool(pools: &[PoolDef], signal: &SignalDef) -> bool
    ensures { result ≡ (not signal.now.fixed && not (list_any (λ p. nat_le signal.now.params p.size) pools.now)) }
{
    !signal.fixed && !has_room(pools, signal.params)
}

/// Refuses a system with a signal that isn't static and fits no pool.
pub fn pools_pass(pools: &[PoolDef], signals: &[SignalDef]) -> Result<(), SystemFault>
    requires { length signals.now ≤ 200 }
    ensures { Passes (no_pool_fault pools.now signals.now) result }
{
    for (i, signal) in signals.iter().enumerate() {
        if has_no_pool(pools, signal) {
            return Err(SystemFault::At {
                code: code::NO_POOL,
                path: Path::of(&[Part::Key(key::SIGNAL), Part::Pos(i as u16 + 1)], &[]),
            });
        }
    }
    Ok(())
}
