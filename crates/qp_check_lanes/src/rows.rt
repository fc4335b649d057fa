//! Records in rows, by keys of three numbers.

ghost use Rattle.std.specs.Prelude.{◌≡◌, ◌++◌, ◌∷◌, [], ℕ, if◌then◌else◌, OnOk};
ghost use Rattle.qp_model.specs.Record.{item_of};
ghost use Rattle.qp_check_lanes.specs.Keys.{same_key};
ghost use Rattle.qp_check_lanes.specs.Rows.{records_of_key};

use crate::groups::Group;
use qp_model::Rec;
use std::alloc::{AllocError, Global};
use std::collections::BTreeMap;

/// Records that stand elsewhere, in a row for each key. A row takes the records in the order in which they are put.
#[derive(Drop)]
pub struct KeyedRecords<'a> {
    pub rows: BTreeMap<(u64, u64, u64), Group<'a>>,
}

impl<'a> KeyedRecords<'a> {
    pub fn none(alloc: Global) -> Self
        ensures { (q : ℕ × ℕ × ℕ) → records_of_key result q ≡ [] }
    {
        KeyedRecords {
            rows: BTreeMap::new(alloc),
        }
    }

    /// Puts a record at the end of a row.
    pub fn put(&mut self, alloc: Global, key: (u64, u64, u64), r: &'a Rec) -> Result<(), AllocError>
        ensures { OnOk result ((q : ℕ × ℕ × ℕ) → records_of_key self.new q ≡ (if same_key key q then records_of_key self.old q ++ item_of r.now ∷ [] else
            records_of_key self.old q)) }
    {
        match self.rows.get_mut(&key) {
            Some(row) => row.put(r),
            None => {
                let mut row = Group::new(alloc);
                row.put(r)?;
                self.rows.insert(key, row)?;
                Ok(())
            }
        }
    }

    /// The records of a key, or else these, which are none.
    pub fn at<'b>(&'b self, key: (u64, u64, u64), none: &'b Group<'a>) -> &'b Group<'a>
        requires { none.now ≡ [] }
        ensures { result.now ≡ records_of_key self.now key }
    {
        match self.rows.get(&key) {
            Some(row) => return row,
            None => {}
        }
        none
    }
}
