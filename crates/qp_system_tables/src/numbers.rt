//! Numbers and booleans at keys.

ghost use Rattle.std.specs.Prelude.{◌∷◌, ◌++◌, [], false};
ghost use Rattle.toml.specs.View.{view, table_view};
ghost use Rattle.qp_chart_names.specs.declared.place.Part.TheVariants.{Key};
ghost use Rattle.qp_system_tables.specs.Refused.{ReadsAs};
ghost use Rattle.qp_system_tables.specs.Tree.{needed, defaulted};
ghost use Rattle.qp_system_tables.specs.Values.{integer_between, flag_value};

use crate::fault::SystemFault;
use crate::section::{KeyPlace, Section};
use qp_chart::code;
use toml::Value;

/// The numbers that a key may have.
#[derive(Clone, Copy)]
pub struct Range {
    pub least: u8,
    pub most: u8,
}

/// An integer in a range.
#[tactic(auto, unfolding(crate::specs::Values::integer_between))]
fn number(place: KeyPlace, range: Range, value: &Value) -> Result<u8, SystemFault>
    ensures { ReadsAs (λ n. n) result (integer_between range.least range.most (place.entry.at.now ++ Key place.entry.key ∷ []) (view value.now)) }
{
    match value.as_integer() {
        None => Err(place.refuse(code::WRONG_KIND)),
        Some(n) if i64::from(range.least) <= n && n <= i64::from(range.most) => Ok(n as u8),
        Some(_) => Err(place.refuse(code::RANGE)),
    }
}

/// The number at a key that has to stand.
#[tactic(auto, unfolding(crate::specs::Tree::needed))]
pub fn needed_number(section: Section, key: u8, range: Range) -> Result<u8, SystemFault>
    ensures { ReadsAs (λ n. n) result (needed (integer_between range.least range.most) key section.entry.at.now
        (table_view section.entry.table.now)) }
{
    let place = section.place(key);
    match section.value(key) {
        None => Err(place.refuse(code::MISSING)),
        Some(value) => number(place, range, value),
    }
}

/// The number at a key, or the default where the key is missing.
#[tactic(auto, unfolding(crate::specs::Tree::defaulted))]
pub fn number_or(section: Section, key: u8, range: Range, default: u8) -> Result<u8, SystemFault>
    ensures { ReadsAs (λ n. n) result (defaulted default (integer_between range.least range.most) key section.entry.at.now
        (table_view section.entry.table.now)) }
{
    match section.value(key) {
        None => Ok(default),
        Some(value) => number(section.place(key), range, value),
    }
}

#[tactic(auto, unfolding(crate::specs::Values::flag_value))]
fn flag(place: KeyPlace, value: &Value) -> Result<bool, SystemFault>
    ensures { ReadsAs (λ b. b) result (flag_value (place.entry.at.now ++ Key place.entry.key ∷ []) (view value.now)) }
{
    match value.as_bool() {
        None => Err(place.refuse(code::WRONG_KIND)),
        Some(flag) => Ok(flag),
    }
}

/// The boolean at a key, false where the key is missing.
#[tactic(auto, unfolding(crate::specs::Tree::defaulted))]
pub fn flag_or_false(section: Section, key: u8) -> Result<bool, SystemFault>
    ensures { ReadsAs (λ b. b) result (defaulted false flag_value key section.entry.at.now (table_view section.entry.table.now)) }
{
    match section.value(key) {
        None => Ok(false),
        Some(value) => flag(section.place(key), value),
    }
}
