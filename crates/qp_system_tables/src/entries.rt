//! What the tables of a list say, one after another.

ghost use Rattle.std.specs.Prelude.{ℕ, ◌+◌, ◌≤◌, ◌∷◌, ◌++◌, List, [], length, map};
ghost use Rattle.std.specs.declared.result.Result.{Result};
ghost use Rattle.toml.specs.Data.{Members};
ghost use Rattle.toml.specs.View.{table_view};
ghost use Rattle.qp_chart_names.specs.declared.place.Part.{Part};
ghost use Rattle.qp_chart_names.specs.declared.place.Part.TheVariants.{Key};
ghost use Rattle.qp_chart_names.specs.Faults.{Fault};
ghost use Rattle.qp_system_tables.specs.Refused.{ReadsAs};
ghost use Rattle.qp_system_tables.specs.Tree.{each, needed, defaulted};
ghost use Rattle.qp_system_tables.specs.Tables.{read_tables};
ghost use Rattle.qp_system_tables.specs.Values.{tables_of};

use crate::fault::SystemFault;
use crate::lists::{Count, needed_tables, tables_or_none};
use crate::section::{KeyPlace, Section};
use std::alloc::Global;
use toml::Table;

/// What one table of a list says.
pub trait TableEntry: Drop {
    /// The reading of a table at a path.
    ghost reading: { List Part → Members → Result Self Fault };

    /// How long that path may be.
    ghost depth: { ℕ };

    /// Reads a table.
    fn read(alloc: Global, section: Section) -> Result<Self, SystemFault>
        requires { length section.at.now ≤ depth }
        ensures { ReadsAs (λ entry. entry) result (reading section.entry.at.now (table_view section.entry.table.now)) };
}

/// The entries of a list, in order.
fn entries<T: TableEntry>(
    alloc: Global,
    place: KeyPlace,
    tables: &[&Table],
) -> Result<Vec<T>, SystemFault>
    requires few { length tables.now ≤ 200 }
    requires room { length place.at.now + 2 ≤ T.depth }
    requires shallow { T.depth ≤ 6 }
    ensures { ReadsAs (λ v. v.items) result (each T.reading (place.entry.at.now ++ Key place.entry.key ∷ []) 1
        (map (λ t. table_view t.now) tables.now)) }
{
    let mut items = Vec::new(alloc);
    for (i, table) in tables.iter().enumerate() {
        let path = place.item(i as u16 + 1);
        let at = path.0.as_slice();
        items.push(T::read(alloc, Section { at, table: *table })?)?;
    }
    Ok(items)
}

/// The entries of the list at a key that has to stand.
pub fn needed_entries<T: TableEntry>(
    alloc: Global,
    section: Section,
    key: u8,
    count: Count,
) -> Result<Vec<T>, SystemFault>
    requires few { count.most ≤ 200 }
    requires room { length section.at.now + 2 ≤ T.depth }
    requires shallow { T.depth ≤ 6 }
    ensures { ReadsAs (λ v. v.items) result (read_tables T.reading (section.entry.at.now ++ Key key ∷ [])
        (needed (tables_of count.least count.most) key section.entry.at.now (table_view section.entry.table.now))) }
{
    let tables = needed_tables(alloc, section, key, count)?;
    entries(alloc, section.place(key), &tables)
}

/// The entries of the list at a key, none where the key is missing.
pub fn entries_or_none<T: TableEntry>(
    alloc: Global,
    section: Section,
    key: u8,
    most: usize,
) -> Result<Vec<T>, SystemFault>
    requires few { most ≤ 200 }
    requires room { length section.at.now + 2 ≤ T.depth }
    requires shallow { T.depth ≤ 6 }
    ensures { ReadsAs (λ v. v.items) result (read_tables T.reading (section.entry.at.now ++ Key key ∷ [])
        (defaulted [] (tables_of 0 most) key section.entry.at.now (table_view section.entry.table.now))) }
{
    let tables = tables_or_none(alloc, section, key, most)?;
    entries(alloc, section.place(key), &tables)
}
