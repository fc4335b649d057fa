//! States and charts.

ghost use Rattle.std.specs.Prelude.{◌≡◌, ◌∷◌, ◌++◌, [], Some};
ghost use Rattle.std.specs.Option.{option_map};
ghost use Rattle.toml.specs.View.{table_view, view};
ghost use Rattle.qp_chart_names.specs.declared.place.Part.TheVariants.{Key};
ghost use Rattle.qp_chart_names.specs.Keys as key;
ghost use Rattle.qp_system_tables.specs.Refused.{ReadsAs};
ghost use Rattle.qp_system_tables.specs.Tree.{at_key};
ghost use Rattle.qp_system_tables.specs.Tables.{read_initial, has_items, read_state, read_chart};

use crate::entries::{TableEntry, entries_or_none, needed_entries};
use crate::fault::SystemFault;
use crate::lists::Count;
use crate::section::Section;
use crate::texts::{name, needed_name, optional_name, texts_or_none};
use crate::vars::vars_or_none;
use qp_chart::{Name, RawChart, RawRows, RawState, RawStates, RawTimers, code, key};
use std::alloc::Global;
use toml::Value;

/// Whether a value is a list that isn't empty.
fn is_filled_list(value: Option<&Value>) -> bool
    ensures { result ≡ has_items (option_map (λ v. view v.now) value.entry) }
{
    let Some(value) = value else {
        return false;
    };
    match value.as_array() {
        None => false,
        Some(items) => !items.as_slice().is_empty(),
    }
}

/// The initial state of a state, which has to stand where the state has initial actions.
fn initial_name(section: Section) -> Result<Option<Name>, SystemFault>
    ensures { ReadsAs (option_map (λ name. name)) result (read_initial (section.entry.at.now ++ Key key.INIT ∷ [])
        (at_key key.INIT (table_view section.entry.table.now)) (at_key key.INIT_DO (table_view section.entry.table.now))) }
{
    let place = section.place(key::INIT);
    match section.value(key::INIT) {
        Some(value) => Ok(Some(name(place, value)?)),
        None if is_filled_list(section.value(key::INIT_DO)) => Err(place.refuse(code::MISSING)),
        None => Ok(None),
    }
}

impl TableEntry for RawState {
    ghost reading = { read_state };

    ghost depth = { 4 };

    #[tactic(auto, unfolding(crate::specs::Tables::read_state))]
    fn read(alloc: Global, section: Section) -> Result<RawState, SystemFault> {
        section.knows(&[
            key::NAME,
            key::PARENT,
            key::ENTRY,
            key::EXIT,
            key::INIT,
            key::INIT_DO,
            key::ROW,
        ])?;
        let name = needed_name(section, key::NAME)?;
        let parent = optional_name(section, key::PARENT)?;
        let entry = texts_or_none(alloc, section, key::ENTRY)?;
        let exit = texts_or_none(alloc, section, key::EXIT)?;
        let init = initial_name(section)?;
        let init_do = texts_or_none(alloc, section, key::INIT_DO)?;
        let rows = entries_or_none(alloc, section, key::ROW, 32)?;
        Ok(RawState {
            name,
            parent,
            entry,
            exit,
            init,
            init_do,
            row: RawRows { items: rows },
        })
    }
}

impl TableEntry for RawChart {
    ghost reading = { read_chart };

    ghost depth = { 2 };

    #[tactic(auto, unfolding(crate::specs::Tables::read_chart))]
    fn read(alloc: Global, section: Section) -> Result<RawChart, SystemFault> {
        section.knows(&[
            key::NAME,
            key::INIT,
            key::INIT_DO,
            key::VARS,
            key::TIMER,
            key::STATE,
        ])?;
        let name = needed_name(section, key::NAME)?;
        let init = needed_name(section, key::INIT)?;
        let init_do = texts_or_none(alloc, section, key::INIT_DO)?;
        let vars = vars_or_none(alloc, section, key::VARS, Some(16))?;
        let timers = entries_or_none(alloc, section, key::TIMER, 8)?;
        let count = Count { least: 1, most: 64 };
        let states = needed_entries(alloc, section, key::STATE, count)?;
        Ok(RawChart {
            name,
            init,
            init_do,
            vars,
            timer: RawTimers { items: timers },
            state: RawStates { items: states },
        })
    }
}
