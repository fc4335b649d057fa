//! Variables and their first values.

ghost use Rattle.std.specs.Prelude.{◌≡◌, ◌∷◌, ◌++◌, [], map, Some, IfOk};
ghost use Rattle.std.specs.Option.{option_and_then, option_map};
ghost use Rattle.toml.specs.Data.{as_table};
ghost use Rattle.toml.specs.View.{view, table_view};
ghost use Rattle.qp_chart_names.specs.declared.place.Part.TheVariants.{Key};
ghost use Rattle.qp_system_tables.specs.Refused.{ReadsAs};
ghost use Rattle.qp_system_tables.specs.Tree.{defaulted};
ghost use Rattle.qp_system_tables.specs.Values.{all_integers, is_above, named_vars, some_vars, vars_of};

use crate::fault::SystemFault;
use crate::section::{KeyPlace, Section};
use crate::texts::allowed_name;
use qp_chart::{Vars, code};
use std::alloc::{AllocError, Global};
use toml::{Table, Value};

/// The members of a table, or nothing where a value isn't an integer.
fn integers(alloc: Global, table: &Table) -> Result<Option<Vec<(&str, i64)>>, AllocError>
    ensures { IfOk result (λ r. option_map (λ v. map (λ x. (x.0.now, x.1)) v.items) r ≡ all_integers (table_view table.now)) }
{
    let mut vars = Vec::new(alloc);
    for (name, value) in table {
        match value.as_integer() {
            None => return Ok(None),
            Some(first) => vars.push((name.as_str(), first))?,
        }
    }
    Ok(Some(vars))
}

/// Variables, each of whose keys has to be a name.
fn named(alloc: Global, place: KeyPlace, vars: &[(&str, i64)]) -> Result<Vars, SystemFault>
    ensures { ReadsAs (λ vars. vars) result (named_vars (place.entry.at.now ++ Key place.entry.key ∷ []) (map (λ x. (x.0.now, x.1)) vars.now)) }
{
    let mut items = Vec::new(alloc);
    for (text, first) in vars {
        let name = allowed_name(place, text)?;
        items.push((name, *first))?;
    }
    Ok(Vars { items })
}

/// Whether there are more than the limit, if there is one.
fn is_more(most: Option<usize>, count: usize) -> bool
    ensures { result ≡ is_above most count }
{
    match most {
        None => false,
        Some(most) => most < count,
    }
}

/// The integers of a value, or nothing where it is no table of integers.
fn integers_in(alloc: Global, value: &Value) -> Result<Option<Vec<(&str, i64)>>, AllocError>
    ensures { IfOk result (λ r. option_map (λ v. map (λ x. (x.0.now, x.1)) v.items) r
        ≡ option_and_then (λ members. all_integers members) (as_table (view value.now))) }
{
    match value.as_table() {
        None => Ok(None),
        Some(table) => integers(alloc, table),
    }
}

/// Variables, each of whose keys has to be a name, at most so many where there is a limit.
fn few_named(
    alloc: Global,
    place: KeyPlace,
    most: Option<usize>,
    vars: &[(&str, i64)],
) -> Result<Vars, SystemFault>
    ensures { ReadsAs (λ vars. vars) result (some_vars most (place.entry.at.now ++ Key place.entry.key ∷ [])
        (Some (map (λ x. (x.0.now, x.1)) vars.now))) }
{
    if is_more(most, vars.len()) {
        Err(place.refuse(code::TOO_MANY))
    } else {
        named(alloc, place, vars)
    }
}

/// Variables, at most so many where there is a limit.
#[tactic(auto, unfolding(crate::specs::Values::vars_of))]
fn vars(
    alloc: Global,
    place: KeyPlace,
    most: Option<usize>,
    value: &Value,
) -> Result<Vars, SystemFault>
    ensures { ReadsAs (λ vars. vars) result (vars_of most (place.entry.at.now ++ Key place.entry.key ∷ []) (view value.now)) }
{
    match integers_in(alloc, value)? {
        None => Err(place.refuse(code::WRONG_KIND)),
        Some(vars) => few_named(alloc, place, most, &vars),
    }
}

/// The variables at `vars`, none where the key is missing.
#[tactic(auto, unfolding(crate::specs::Tree::defaulted))]
pub fn vars_or_none(
    alloc: Global,
    section: Section,
    key: u8,
    most: Option<usize>,
) -> Result<Vars, SystemFault>
    ensures { ReadsAs (λ vars. vars) result (defaulted [] (vars_of most) key section.entry.at.now (table_view section.entry.table.now)) }
{
    match section.value(key) {
        None => Ok(Vars {
            items: Vec::new(alloc),
        }),
        Some(value) => vars(alloc, section.place(key), most, value),
    }
}
