//! Lists of tables at keys.

ghost use Rattle.std.specs.Prelude.{◌≡◌, ◌≤◌, ◌∷◌, ◌++◌, [], length, map, IfOk};
ghost use Rattle.std.specs.Option.{option_map};
ghost use Rattle.toml.specs.Data.{as_table};
ghost use Rattle.toml.specs.View.{view, items_view, table_view};
ghost use Rattle.qp_chart_names.specs.declared.place.Part.TheVariants.{Key};
ghost use Rattle.qp_system_tables.specs.Refused.{ReadsAs};
ghost use Rattle.qp_system_tables.specs.Tree.{needed, defaulted};
ghost use Rattle.qp_system_tables.specs.Values.{all_of_kind, tables_of};

use crate::fault::SystemFault;
use crate::section::{KeyPlace, Section};
use qp_chart::code;
use std::alloc::{AllocError, Global};
use toml::{Table, Value};

/// How many tables a list may have.
#[derive(Clone, Copy)]
pub struct Count {
    pub least: usize,
    pub most: usize,
}

/// The tables of a list, or nothing where something else stands among them.
fn all_tables(alloc: Global, items: &[Value]) -> Result<Option<Vec<&Table>>, AllocError>
    ensures { IfOk result (λ r. option_map (λ v. map (λ t. table_view t.now) v.items) r ≡ all_of_kind as_table (items_view items.now)) }
{
    let mut tables = Vec::new(alloc);
    for item in items {
        match item.as_table() {
            None => return Ok(None),
            Some(table) => tables.push(table)?,
        }
    }
    Ok(Some(tables))
}

/// A list of tables.
#[tactic(auto, unfolding(crate::specs::Values::tables_of, crate::specs::Values::items_of_kind))]
fn tables<'a>(
    alloc: Global,
    place: KeyPlace,
    count: Count,
    value: &'a Value,
) -> Result<Vec<&'a Table>, SystemFault>
    ensures few { IfOk result (λ v. length v.items ≤ count.most) }
    ensures exact { ReadsAs (λ v. map (λ t. table_view t.now) v.items) result (tables_of count.least count.most
        (place.entry.at.now ++ Key place.entry.key ∷ []) (view value.now)) }
{
    let Some(items) = value.as_array() else {
        return Err(place.refuse(code::WRONG_KIND));
    };
    match all_tables(alloc, items)? {
        None => Err(place.refuse(code::WRONG_KIND)),
        Some(tables) if count.least <= tables.len() && tables.len() <= count.most => Ok(tables),
        Some(_) => Err(place.refuse(code::TOO_MANY)),
    }
}

/// The list of tables at a key that has to stand.
#[tactic(auto, unfolding(crate::specs::Tree::needed))]
pub fn needed_tables<'a>(
    alloc: Global,
    section: Section<'a>,
    key: u8,
    count: Count,
) -> Result<Vec<&'a Table>, SystemFault>
    ensures few { IfOk result (λ v. length v.items ≤ count.most) }
    ensures exact { ReadsAs (λ v. map (λ t. table_view t.now) v.items) result (needed (tables_of count.least count.most) key
        section.entry.at.now (table_view section.entry.table.now)) }
{
    let place = section.place(key);
    match section.value(key) {
        None => Err(place.refuse(code::MISSING)),
        Some(value) => tables(alloc, place, count, value),
    }
}

/// The list of tables at a key, empty where the key is missing.
#[tactic(auto, unfolding(crate::specs::Tree::defaulted))]
pub fn tables_or_none<'a>(
    alloc: Global,
    section: Section<'a>,
    key: u8,
    most: usize,
) -> Result<Vec<&'a Table>, SystemFault>
    ensures few { IfOk result (λ v. length v.items ≤ most) }
    ensures exact { ReadsAs (λ v. map (λ t. table_view t.now) v.items) result (defaulted [] (tables_of 0 most) key section.entry.at.now
        (table_view section.entry.table.now)) }
{
    match section.value(key) {
        None => Ok(Vec::new(alloc)),
        Some(value) => tables(alloc, section.place(key), Count { least: 0, most }, value),
    }
}
