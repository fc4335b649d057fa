//! Places of records, by what the records draw or show.

ghost use Rattle.std.specs.Prelude.{◌≡◌, ℕ, ◌<◌, ◌≤◌, ◌&&◌, ◌||◌, not, true, false, IfSome, MatchOption, OnOk};
ghost use Rattle.std.specs.BTreeSet.{contains};
ghost use Rattle.qp_check_lanes.specs.Keys.{key_cmp, same_key};
ghost use Rattle.qp_replay.specs.Marks.{has_mark};

use std::alloc::{AllocError, Global};
use std::collections::{BTreeMap, BTreeSet};

/// A record of a journal: its lane, and its place there, both from 0.
#[derive(Clone, Copy, PartialEq, Eq, Debug)]
pub struct At {
    pub lane: u32,
    pub place: u32,
}

/// The marks of records on words, each with its lane and its place.
#[derive(Drop)]
pub(crate) struct Marks {
    pub marks: BTreeMap<(u64, u64, u64), BTreeSet<(u128, u32, u32)>>,
}

fn least(row: &BTreeSet<(u128, u32, u32)>) -> Option<(u128, u32, u32)>
    ensures found { MatchOption result ((e : ℕ × ℕ × ℕ) → contains key_cmp row.now e ≡ false) (λ f. contains key_cmp row.now f ≡ true) }
    ensures least { IfSome result (λ f. (e : ℕ × ℕ × ℕ) → contains key_cmp row.now e ≡ true → f.0 ≤ e.0) }
{
    match row.first() {
        Some(mark) => Some(*mark),
        None => None,
    }
}

impl Marks {
    pub fn none(alloc: Global) -> Self
        ensures { (q e : ℕ × ℕ × ℕ) → has_mark result q e ≡ false }
    {
        Marks {
            marks: BTreeMap::new(alloc),
        }
    }

    pub fn put(
        &mut self,
        alloc: Global,
        key: (u64, u64, u64),
        mark: (u128, u32, u32),
    ) -> Result<(), AllocError>
        ensures { OnOk result ((q e : ℕ × ℕ × ℕ) → has_mark self.new q e ≡ (has_mark self.old q e || (same_key key q && same_key mark e))) }
    {
        let mut row = match self.marks.remove(&key) {
            Some(row) => row,
            None => BTreeSet::new(alloc),
        };
        let _ = row.insert(mark)?;
        self.marks.insert(key, row)?;
        Ok(())
    }

    pub fn take(&mut self, key: (u64, u64, u64), mark: (u128, u32, u32))
        ensures { (q e : ℕ × ℕ × ℕ) → has_mark self.new q e ≡ (has_mark self.old q e && not (same_key key q && same_key mark e)) }
    {
        match self.marks.get_mut(&key) {
            Some(row) => {
                let _ = row.remove(&mark);
            }
            None => {}
        }
    }

    /// The least mark on a word.
    fn first(&self, key: (u64, u64, u64)) -> Option<(u128, u32, u32)>
        ensures found { MatchOption result ((e : ℕ × ℕ × ℕ) → has_mark self.now key e ≡ false) (λ f. has_mark self.now key f ≡ true) }
        ensures least { IfSome result (λ f. (e : ℕ × ℕ × ℕ) → has_mark self.now key e ≡ true → f.0 ≤ e.0) }
    {
        match self.marks.get(&key) {
            Some(row) => least(row),
            None => None,
        }
    }

    /// A record whose mark on the word is below this one.
    pub fn below(&self, key: (u64, u64, u64), mark: u128) -> Option<At>
        ensures { MatchOption result ((e : ℕ × ℕ × ℕ) → has_mark self.now key e ≡ true → mark ≤ e.0)
            (λ x. (m : ℕ) × (m < mark) × (has_mark self.now key (m, x.lane, x.place) ≡ true)) }
    {
        let (m, lane, place) = self.first(key)?;
        if m < mark {
            Some(At { lane, place })
        } else {
            None
        }
    }

    /// A record whose mark on the word is at most this one.
    pub fn within(&self, key: (u64, u64, u64), mark: u128) -> Option<At>
        ensures { MatchOption result ((e : ℕ × ℕ × ℕ) → has_mark self.now key e ≡ true → mark < e.0)
            (λ x. (m : ℕ) × (m ≤ mark) × (has_mark self.now key (m, x.lane, x.place) ≡ true)) }
    {
        let (m, lane, place) = self.first(key)?;
        if m <= mark {
            Some(At { lane, place })
        } else {
            None
        }
    }
}
