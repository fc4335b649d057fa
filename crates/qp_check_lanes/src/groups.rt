//! Records put into groups by a key, each group in the order of the records.

ghost use Rattle.std.specs.Prelude.{◌≡◌, ◌<◌, ◌++◌, [], ◌∷◌, ℕ, length, get_or, IfOk, OnOk};
ghost use Rattle.std.specs.declared.option.Option.{Option};
ghost use Rattle.qp_model.specs.Record.{Item, item_of};
ghost use Rattle.qp_check_lanes.specs.Groups.{empty_groups, grouped, put_at};

use qp_model::Rec;
use std::alloc::{AllocError, Global};
use std::marker::Model;

/// Records that stand elsewhere. Contracts see what they say.
#[derive(Drop)]
pub struct Group<'a> {
    pub items: Vec<&'a Rec>,
}

impl<'a> Model for Group<'a> {
    ghost use Rattle.std.specs.Prelude.{List, map};
    ghost use Rattle.qp_model.specs.Record.{Item, item_of};

    ghost Value = { List Item };

    ghost view = { λ g. map (λ r. item_of r.now) g.items.items };
}

impl<'a> Group<'a> {
    pub fn new(alloc: Global) -> Self
        ensures { result ≡ [] }
    {
        Group {
            items: Vec::new(alloc),
        }
    }

    /// Puts a record at the end.
    pub fn put(&mut self, r: &'a Rec) -> Result<(), AllocError>
        ensures { OnOk result (self.new ≡ self.old ++ item_of r.now ∷ []) }
    {
        Ok(self.items.push(r)?)
    }
}

/// Groups of records, one for each key from 0 on.
#[derive(Drop)]
pub struct Groups<'a> {
    pub items: Vec<Group<'a>>,
}

impl<'a> Model for Groups<'a> {
    ghost use Rattle.std.specs.Prelude.{List};
    ghost use Rattle.qp_model.specs.Record.{Item};

    ghost Value = { List (List Item) };

    ghost view = { λ g. g.items.items };
}

impl<'a> Groups<'a> {
    /// So many groups, each empty.
    fn empty(alloc: Global, size: usize) -> Result<Self, AllocError>
        ensures { IfOk result (λ g. g ≡ empty_groups size) }
    {
        let mut items = Vec::new(alloc);
        for _ in 0..size {
            items.push(Group::new(alloc))?;
        }
        Ok(Groups { items })
    }

    /// The records of key `k`.
    pub fn at(&self, k: usize) -> &Group<'a>
        requires { k < length self.now }
        ensures { result.now ≡ get_or self.now k [] }
    {
        &self.items[k]
    }

    /// Puts a record at the end of group `k`, if there is one.
    fn put(&mut self, k: usize, r: &'a Rec) -> Result<(), AllocError>
        ensures { OnOk result (self.new ≡ put_at k (item_of r.now) self.old) }
    {
        match self.items.get_mut(k) {
            Some(group) => group.put(r),
            None => Ok(()),
        }
    }
}

/// A reading of records as numbers below a size.
pub trait Key {
    ghost key_of: { Self → Item → Option ℕ };

    fn key(&self, r: &Rec) -> Option<usize>
        ensures { result ≡ key_of self.now (item_of r.now) };
}

/// The records of each key below `size`.
pub fn grouped<'a, K: Key>(
    alloc: Global,
    records: &Group<'a>,
    size: usize,
    key: &K,
) -> Result<Groups<'a>, AllocError>
    ensures { IfOk result (λ g. g ≡ grouped (K.key_of key.now) size records.now) }
{
    let mut groups = Groups::empty(alloc, size)?;
    for r in &records.items {
        match key.key(r) {
            Some(k) => groups.put(k, r)?,
            None => {}
        }
    }
    Ok(groups)
}
