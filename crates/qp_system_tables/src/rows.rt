//! Time events and rows.

ghost use Rattle.qp_system_tables.specs.Tables.{read_timer, read_row};

use crate::entries::TableEntry;
use crate::fault::SystemFault;
use crate::numbers::{Range, needed_number};
use crate::section::Section;
use crate::texts::{needed_name, optional_name, optional_text, texts_or_none};
use qp_chart::{RawRow, RawTimer, key};
use std::alloc::Global;

impl TableEntry for RawTimer {
    ghost reading = { read_timer };

    ghost depth = { 6 };

    #[tactic(auto, unfolding(crate::specs::Tables::read_timer))]
    fn read(_alloc: Global, section: Section) -> Result<RawTimer, SystemFault> {
        section.knows(&[key::NAME, key::SIGNAL, key::RATE])?;
        let name = needed_name(section, key::NAME)?;
        let signal = needed_name(section, key::SIGNAL)?;
        let rate = needed_number(section, key::RATE, Range { least: 0, most: 3 })?;
        Ok(RawTimer { name, signal, rate })
    }
}

impl TableEntry for RawRow {
    ghost reading = { read_row };

    ghost depth = { 6 };

    #[tactic(auto, unfolding(crate::specs::Tables::read_row))]
    fn read(alloc: Global, section: Section) -> Result<RawRow, SystemFault> {
        section.knows(&[key::ON, key::WHEN, key::DO, key::TO])?;
        let on = needed_name(section, key::ON)?;
        let when = optional_text(alloc, section, key::WHEN)?;
        let acts = texts_or_none(alloc, section, key::DO)?;
        let to = optional_name(section, key::TO)?;
        Ok(RawRow { on, when, acts, to })
    }
}
