//! The bytes of a system file, up to its checked charts.

ghost use Rattle.std.specs.Prelude.{◌⊎◌, IfOk, IfErr};
ghost use Rattle.qp_system.specs.Checked.{HasLater, IsChecked};
ghost use Rattle.qp_system_tables.specs.Document.{RefusesBytes};

use crate::phases::charts_of;
use qp_model::Charts;
use qp_system_tables::{RawSystem, SystemFault, raw_of_bytes};
use std::alloc::Global;

/// Reads a system file that has no fault: its tables, and its charts with their names looked up.
///
/// It refuses with the first fault of the file: of a table by itself, then between tables, within charts, and of a signal that fits no pool.
pub fn checked_of_bytes(alloc: Global, bytes: &[u8]) -> Result<(RawSystem, Charts), SystemFault>
    ensures ok { IfOk result (λ read. IsChecked bytes.now read.0 read.1) }
    ensures fault { IfErr result (λ e. RefusesBytes e bytes.now ⊎ HasLater bytes.now e) }
{
    let raw = raw_of_bytes(alloc, bytes)?;
    let charts = charts_of(alloc, &raw)?;
    Ok((raw, charts))
}
