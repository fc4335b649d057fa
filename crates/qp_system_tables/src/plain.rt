//! Pools and signals.

ghost use Rattle.qp_system_tables.specs.Tables.{read_pool, read_signal};

use crate::entries::TableEntry;
use crate::fault::SystemFault;
use crate::numbers::{Range, flag_or_false, needed_number, number_or};
use crate::section::Section;
use crate::texts::needed_name;
use qp_chart::key;
use qp_model::{PoolDef, SignalDef};
use std::alloc::Global;

impl TableEntry for PoolDef {
    ghost reading = { read_pool };

    ghost depth = { 6 };

    #[tactic(auto, unfolding(crate::specs::Tables::read_pool))]
    fn read(_alloc: Global, section: Section) -> Result<PoolDef, SystemFault> {
        section.knows(&[key::SIZE, key::BLOCKS])?;
        let size = needed_number(section, key::SIZE, Range { least: 0, most: 8 })?;
        let blocks = needed_number(section, key::BLOCKS, Range { least: 1, most: 32 })?;
        Ok(PoolDef { size, blocks })
    }
}

impl TableEntry for SignalDef {
    ghost reading = { read_signal };

    ghost depth = { 6 };

    #[tactic(auto, unfolding(crate::specs::Tables::read_signal))]
    fn read(_alloc: Global, section: Section) -> Result<SignalDef, SystemFault> {
        section.knows(&[key::NAME, key::PARAMS, key::STATIC])?;
        let name = needed_name(section, key::NAME)?;
        let params = number_or(section, key::PARAMS, Range { least: 0, most: 8 }, 0)?;
        let fixed = flag_or_false(section, key::STATIC)?;
        Ok(SignalDef {
            name,
            params,
            fixed,
        })
    }
}
