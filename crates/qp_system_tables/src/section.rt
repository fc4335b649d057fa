//! A table of the file, and the places of its keys.

ghost use Rattle.std.specs.Prelude.{◌≡◌, ◌≤◌, ◌∷◌, ◌++◌, [], length, string_bytes};
ghost use Rattle.std.specs.BTreeMap as BTreeMap;
ghost use Rattle.std.specs.List.{list_all};
ghost use Rattle.std.specs.Option.{option_map};
ghost use Rattle.toml.specs.View.{view, table_view};
ghost use Rattle.qp_chart_names.specs.declared.place.Part.TheVariants.{Key, Pos};
ghost use Rattle.qp_system_tables.specs.Tree.{at_key, is_key, all_known, knows_keys};
ghost use Rattle.qp_system_tables.specs.Refused.{ReadsAs, fault_at};

use crate::fault::SystemFault;
use qp_chart::{Part, Path, code, key};
use toml::{Table, Value};

/// The place of a key: the path to its table, and the key.
#[derive(Clone, Copy)]
pub struct KeyPlace<'a> {
    pub at: &'a [Part],
    pub key: u8,
    ghost room: { length at.now ≤ 6 },
}

impl<'a> KeyPlace<'a> {
    /// A fault at the key.
    pub fn refuse(self, code: u8) -> SystemFault
        ensures { result ≡ fault_at code (self.entry.at.now ++ Key self.entry.key ∷ []) }
    {
        SystemFault::At {
            code,
            path: Path::of(self.at, &[Part::Key(self.key)]),
        }
    }

    /// The path to a member of the list at the key.
    pub fn item(self, place: u16) -> Path
        ensures { result.0.items ≡ (self.entry.at.now ++ Key self.entry.key ∷ []) ++ Pos place ∷ [] }
    {
        Path::of(self.at, &[Part::Key(self.key), Part::Pos(place)])
    }
}

/// A table of the file and the path to it.
#[derive(Clone, Copy)]
pub struct Section<'a> {
    pub at: &'a [Part],
    pub table: &'a Table,
    ghost room: { length at.now ≤ 6 },
}

impl<'a> Section<'a> {
    pub fn place(self, key: u8) -> KeyPlace<'a>
        ensures at { result.at.now ≡ self.entry.at.now }
        ensures key { result.key ≡ key }
    {
        KeyPlace { at: self.at, key }
    }

    /// The value at a key.
    #[tactic(auto, unfolding(crate::specs::Tree::at_key))]
    pub fn value(self, key: u8) -> Option<&'a Value>
        ensures { option_map (λ v. view v.now) result ≡ at_key key (table_view self.entry.table.now) }
    {
        self.table.get(key::word(key))
    }

    /// Refuses a table with another key than these.
    #[tactic(auto, unfolding(crate::specs::Tree::knows_keys))]
    pub fn knows(self, keys: &[u8]) -> Result<(), SystemFault>
        ensures { ReadsAs (λ _. tt) result (knows_keys keys.now self.entry.at.now (table_view self.entry.table.now)) }
    {
        if are_known(keys, self.table) {
            Ok(())
        } else {
            Err(SystemFault::At {
                code: code::UNKNOWN,
                path: Path::of(self.at, &[]),
            })
        }
    }
}

/// Whether the word is that of one of the keys.
#[tactic(auto, unfolding(crate::specs::Tree::is_key))]
fn is_known(keys: &[u8], word: &str) -> bool
    ensures { result ≡ is_key keys.now word.now }
{
    keys.iter().any(|key| word == key::word(*key))
}

fn has_known_keys(keys: &[u8], table: &Table) -> bool
    ensures { result ≡ list_all (λ word. is_key keys.now (string_bytes word)) (BTreeMap.keys table.now) }
{
    table.keys().all(|word| is_known(keys, word.as_str()))
}

/// Whether the keys of a table are all among these.
fn are_known(keys: &[u8], table: &Table) -> bool
    ensures { result ≡ all_known keys.now (table_view table.now) }
{
    has_known_keys(keys, table)
}
