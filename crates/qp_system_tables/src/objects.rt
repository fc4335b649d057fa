//! Objects, and the whole file.

ghost use Rattle.toml.specs.View.{table_view};
ghost use Rattle.qp_system_tables.specs.Refused.{ReadsAs};
ghost use Rattle.qp_system_tables.specs.Tables.{read_object, raw_of};

use crate::entries::{TableEntry, entries_or_none, needed_entries};
use crate::fault::SystemFault;
use crate::lists::Count;
use crate::numbers::{Range, needed_number, number_or};
use crate::raw::{RawCharts, RawObject, RawObjects, RawSystem};
use crate::section::Section;
use crate::texts::needed_name;
use crate::vars::vars_or_none;
use qp_chart::key;
use qp_model::{PoolDefs, SignalDefs};
use std::alloc::Global;
use toml::Table;

/// Priorities and thresholds.
const LEVELS: Range = Range { least: 1, most: 32 };
/// Lengths of rings and of lists of deferred events.
const LENGTHS: Range = Range {
    least: 0,
    most: 255,
};
/// How many charts and objects a file has.
const PARTS: Count = Count { least: 1, most: 32 };

impl TableEntry for RawObject {
    ghost reading = { read_object };

    ghost depth = { 6 };

    #[tactic(auto, unfolding(crate::specs::Tables::read_object))]
    fn read(alloc: Global, section: Section) -> Result<RawObject, SystemFault> {
        section.knows(&[
            key::NAME,
            key::CHART,
            key::PRIORITY,
            key::THRESHOLD,
            key::QUEUE,
            key::DEFER,
            key::VARS,
        ])?;
        let name = needed_name(section, key::NAME)?;
        let chart = needed_name(section, key::CHART)?;
        let priority = needed_number(section, key::PRIORITY, LEVELS)?;
        let threshold = number_or(section, key::THRESHOLD, LEVELS, priority)?;
        let queue = needed_number(section, key::QUEUE, LENGTHS)?;
        let defer = number_or(section, key::DEFER, LENGTHS, 0)?;
        let vars = vars_or_none(alloc, section, key::VARS, None)?;
        Ok(RawObject {
            name,
            chart,
            priority,
            threshold,
            queue,
            defer,
            vars,
        })
    }
}

/// The system of a tree, with its names not looked up.
#[tactic(auto, unfolding(crate::specs::Tables::raw_of))]
pub fn raw_system(alloc: Global, table: &Table) -> Result<RawSystem, SystemFault>
    ensures { ReadsAs (λ raw. raw) result (raw_of (table_view table.now)) }
{
    let section = Section { at: &[], table };
    section.knows(&[key::QP, key::POOL, key::SIGNAL, key::CHART, key::OBJECT])?;
    needed_number(section, key::QP, Range { least: 1, most: 1 })?;
    let pools = entries_or_none(alloc, section, key::POOL, 15)?;
    let signals = entries_or_none(alloc, section, key::SIGNAL, 200)?;
    let charts = needed_entries(alloc, section, key::CHART, PARTS)?;
    let objects = needed_entries(alloc, section, key::OBJECT, PARTS)?;
    Ok(RawSystem {
        pools: PoolDefs { items: pools },
        signals: SignalDefs { items: signals },
        charts: RawCharts { items: charts },
        objects: RawObjects { items: objects },
    })
}
