//! Names, texts and action lists at keys.

ghost use Rattle.std.specs.Prelude.{◌≡◌, ◌≤◌, ◌∷◌, ◌++◌, [], length, map, Some, IfOk};
ghost use Rattle.std.specs.Option.{option_map};
ghost use Rattle.toml.specs.Data.{as_str};
ghost use Rattle.toml.specs.View.{view, items_view, table_view};
ghost use Rattle.qp_chart_names.specs.declared.place.Part.TheVariants.{Key};
ghost use Rattle.qp_system_tables.specs.Refused.{ReadsAs};
ghost use Rattle.qp_system_tables.specs.Tree.{needed, defaulted, optional};
ghost use Rattle.qp_system_tables.specs.Values.{allowed_name, name_of, text_value, all_of_kind, items_of_kind, short_texts, some_texts, texts_of};

use crate::fault::SystemFault;
use crate::name::is_allowed;
use crate::section::{KeyPlace, Section};
use qp_chart::{Name, Text, Texts, code};
use std::alloc::{AllocError, Global};
use toml::Value;

/// A text that has to be a name.
#[tactic(auto, unfolding(crate::specs::Values::allowed_name))]
pub fn allowed_name(place: KeyPlace, text: &str) -> Result<Name, SystemFault>
    ensures { ReadsAs (λ name. name) result (allowed_name (place.entry.at.now ++ Key place.entry.key ∷ []) text.now) }
{
    match Name::from(text) {
        Ok(name) if is_allowed(text) => Ok(name),
        _ => Err(place.refuse(code::RANGE)),
    }
}

/// A name.
#[tactic(auto, unfolding(crate::specs::Values::name_of))]
pub fn name(place: KeyPlace, value: &Value) -> Result<Name, SystemFault>
    ensures { ReadsAs (λ name. name) result (name_of (place.entry.at.now ++ Key place.entry.key ∷ []) (view value.now)) }
{
    match value.as_str() {
        None => Err(place.refuse(code::WRONG_KIND)),
        Some(text) => allowed_name(place, text),
    }
}

/// The name at a key that has to stand.
#[tactic(auto, unfolding(crate::specs::Tree::needed))]
pub fn needed_name(section: Section, key: u8) -> Result<Name, SystemFault>
    ensures { ReadsAs (λ name. name) result (needed name_of key section.entry.at.now (table_view section.entry.table.now)) }
{
    let place = section.place(key);
    match section.value(key) {
        None => Err(place.refuse(code::MISSING)),
        Some(value) => name(place, value),
    }
}

/// The name at a key that may be missing.
#[tactic(auto, unfolding(crate::specs::Tree::optional))]
pub fn optional_name(section: Section, key: u8) -> Result<Option<Name>, SystemFault>
    ensures { ReadsAs (option_map (λ name. name)) result (optional name_of key section.entry.at.now
        (table_view section.entry.table.now)) }
{
    match section.value(key) {
        None => Ok(None),
        Some(value) => Ok(Some(name(section.place(key), value)?)),
    }
}

/// A text of at most 200 bytes.
#[tactic(auto, unfolding(crate::specs::Values::text_value))]
fn text(alloc: Global, place: KeyPlace, value: &Value) -> Result<Text, SystemFault>
    ensures { ReadsAs (λ text. text) result (text_value (place.entry.at.now ++ Key place.entry.key ∷ []) (view value.now)) }
{
    match value.as_str() {
        None => Err(place.refuse(code::WRONG_KIND)),
        Some(text) if text.len() <= 200 => Ok(Text {
            items: String::from_str(alloc, text)?,
        }),
        Some(_) => Err(place.refuse(code::RANGE)),
    }
}

/// The text at a key that may be missing.
#[tactic(auto, unfolding(crate::specs::Tree::optional))]
pub fn optional_text(alloc: Global, section: Section, key: u8) -> Result<Option<Text>, SystemFault>
    ensures { ReadsAs (λ text. text) result (optional text_value key section.entry.at.now (table_view section.entry.table.now)) }
{
    match section.value(key) {
        None => Ok(None),
        Some(value) => Ok(Some(text(alloc, section.place(key), value)?)),
    }
}

/// The texts of a list, or nothing where something else stands among them.
fn strings(alloc: Global, items: &[Value]) -> Result<Option<Vec<&str>>, AllocError>
    ensures { IfOk result (λ r. option_map (λ v. map (λ s. s.now) v.items) r ≡ all_of_kind as_str (items_view items.now)) }
{
    let mut texts = Vec::new(alloc);
    for item in items {
        match item.as_str() {
            None => return Ok(None),
            Some(text) => texts.push(text)?,
        }
    }
    Ok(Some(texts))
}

/// Copies of texts of at most 200 bytes each.
fn copies(alloc: Global, place: KeyPlace, texts: &[&str]) -> Result<Texts, SystemFault>
    requires { length texts.now ≤ 16 }
    ensures { ReadsAs (λ t. t) result (short_texts (place.entry.at.now ++ Key place.entry.key ∷ []) 1 (map (λ s. s.now) texts.now)) }
{
    let mut items = Vec::new(alloc);
    for (i, text) in texts.iter().enumerate() {
        if text.len() > 200 {
            return Err(SystemFault::At {
                code: code::RANGE,
                path: place.item(i as u16 + 1),
            });
        }
        items.push(Text {
            items: String::from_str(alloc, text)?,
        })?;
    }
    Ok(Texts { items })
}

/// The texts of a value, or nothing where it is no list of texts.
#[tactic(auto, unfolding(crate::specs::Values::items_of_kind))]
fn strings_in(alloc: Global, value: &Value) -> Result<Option<Vec<&str>>, AllocError>
    ensures { IfOk result (λ r. option_map (λ v. map (λ s. s.now) v.items) r ≡ items_of_kind as_str (view value.now)) }
{
    match value.as_array() {
        None => Ok(None),
        Some(items) => strings(alloc, items),
    }
}

/// Copies of at most 16 texts.
fn few_copies(alloc: Global, place: KeyPlace, texts: &[&str]) -> Result<Texts, SystemFault>
    ensures { ReadsAs (λ t. t) result (some_texts (place.entry.at.now ++ Key place.entry.key ∷ []) (Some (map (λ s. s.now) texts.now))) }
{
    if texts.len() > 16 {
        Err(place.refuse(code::TOO_MANY))
    } else {
        copies(alloc, place, texts)
    }
}

/// An action list.
#[tactic(auto, unfolding(crate::specs::Values::texts_of))]
fn texts(alloc: Global, place: KeyPlace, value: &Value) -> Result<Texts, SystemFault>
    ensures { ReadsAs (λ t. t) result (texts_of (place.entry.at.now ++ Key place.entry.key ∷ []) (view value.now)) }
{
    match strings_in(alloc, value)? {
        None => Err(place.refuse(code::WRONG_KIND)),
        Some(texts) => few_copies(alloc, place, &texts),
    }
}

/// The action list at a key, empty where the key is missing.
#[tactic(auto, unfolding(crate::specs::Tree::defaulted))]
pub fn texts_or_none(alloc: Global, section: Section, key: u8) -> Result<Texts, SystemFault>
    ensures { ReadsAs (λ t. t) result (defaulted [] texts_of key section.entry.at.now (table_view section.entry.table.now)) }
{
    match section.value(key) {
        None => Ok(Texts {
            items: Vec::new(alloc),
        }),
        Some(value) => texts(alloc, section.place(key), value),
    }
}
