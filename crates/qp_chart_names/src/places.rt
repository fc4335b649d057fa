//! Tables from names to numbers.

use qp_chart_text::Name;
use std::alloc::{AllocError, Global};
use std::collections::BTreeMap;

/// Numbers by name. The first number that a name is given stays.
#[derive(Drop)]
pub struct NumbersByName {
    map: BTreeMap<Name, u16>,
}

impl NumbersByName {
    ghost use Rattle.std.specs.Prelude.{◌≡◌, ℕ, List, None, IfOk};
    ghost use Rattle.qp_chart_names.specs.Numbering.{number_of_name, AddsName};

    pub fn new(alloc: Global) -> NumbersByName
        ensures { (name : List ℕ) → number_of_name result name ≡ None }
    {
        NumbersByName {
            map: BTreeMap::new(alloc),
        }
    }

    pub fn get(&self, name: &Name) -> Option<u16>
        ensures { result ≡ number_of_name self.now name.now }
    {
        self.map.get(name).copied()
    }

    /// Gives the name this number, and tells whether the name was new. A known name keeps its number.
    pub fn add(&mut self, name: &Name, number: u16) -> Result<bool, AllocError>
        ensures { IfOk result (λ added. AddsName self.old self.new name.now number added) }
    {
        if self.map.contains_key(name) {
            return Ok(false);
        }
        self.map.insert(*name, number)?;
        Ok(true)
    }
}
