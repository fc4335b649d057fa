//! The references to a block that stand after any operations, also after some that aren't allowed.

ghost use Rattle.std.specs.Prelude.{◌≡◌, ◌≤◌, ◌<◌, ◌+◌, ◌^◌, ℕ, List, [], ◌∷◌, false, nat_lt, length, get_or, IfOk, IsTrue};
ghost use Rattle.std.specs.List.{list_all};
ghost use Rattle.qp_chart.specs.StateTree.{has};
ghost use Rattle.qp_model.specs.End.{same_numbers};
ghost use Rattle.qp_model.specs.Lists.{without_one};
ghost use Rattle.qp_model.specs.Machine.{after};
ghost use Rattle.qp_model.specs.Record.{item_of};
ghost use Rattle.qp_model.specs.References.{Refs, references, refs_next};
ghost use Rattle.qp_check_ends.specs.Resting.{AreNamesCounted, makes_below};

use qp_check_lanes::groups::Group;
use qp_check_lanes::lives::marked;
use qp_model::{Body, Rec};
use std::alloc::{AllocError, Global};

/// How often each reference stands, and how many stand in all.
#[derive(Drop)]
pub(crate) struct ReferenceCounts {
    pub(crate) counts: Vec<u64>,
    pub(crate) total: u64,
}

impl ReferenceCounts {
    /// No reference stands, and those to come are below `size`.
    fn none(alloc: Global, size: usize) -> Result<Self, AllocError>
        ensures counted { IfOk result (λ s. AreNamesCounted [] s.counts.items s.total) }
        ensures none { IfOk result (λ s. s.total ≡ 0) }
        ensures size { IfOk result (λ s. length s.counts.items ≡ size) }
    {
        Ok(ReferenceCounts {
            counts: vec![in alloc; 0; size]?,
            total: 0,
        })
    }

    /// How often a reference stands.
    fn at(&self, k: u64) -> u64
        ensures { result ≡ get_or self.now.counts.items k 0 }
    {
        match self.counts.get(k as usize) {
            Some(n) => *n,
            None => 0,
        }
    }

    fn add(&mut self, k: u64)
        requires inside { k < length self.old.counts.items }
        requires room { self.old.total + 1 < 2 ^ 64 }
        requires counts { (names : List ℕ) × AreNamesCounted names self.old.counts.items self.old.total }
        ensures counted { (names : List ℕ) → AreNamesCounted names self.old.counts.items self.old.total → AreNamesCounted (k ∷ names) self.new.counts.items
            self.new.total }
        ensures size { length self.new.counts.items ≡ length self.old.counts.items }
        ensures bounded { self.new.total ≤ self.old.total + 1 }
    {
        self.counts[k as usize] += 1;
        self.total += 1;
    }

    /// Removes a reference once, where it stands.
    fn remove(&mut self, k: u64)
        ensures counted { (names : List ℕ) → AreNamesCounted names self.old.counts.items self.old.total → AreNamesCounted (without_one k names)
            self.new.counts.items self.new.total }
        ensures size { length self.new.counts.items ≡ length self.old.counts.items }
        ensures bounded { self.new.total ≤ self.old.total + 1 }
    {
        let count = self.at(k);
        if count > 0 {
            self.counts[k as usize] = count - 1;
            self.total = self.total.saturating_sub(1);
        }
    }

    /// Makes an operation, as its record states it.
    fn apply(&mut self, body: &Body)
        requires inside { IsTrue (makes_below (length self.old.counts.items) body.now) }
        requires room { self.old.total + 1 < 2 ^ 64 }
        requires counts { (names : List ℕ) × AreNamesCounted names self.old.counts.items self.old.total }
        ensures counted { (s : Refs) → AreNamesCounted s.names self.old.counts.items self.old.total → AreNamesCounted (refs_next s body.now).names
            self.new.counts.items self.new.total }
        ensures size { length self.new.counts.items ≡ length self.old.counts.items }
        ensures bounded { self.new.total ≤ self.old.total + 1 }
    {
        match body {
            Body::Inc { r, .. } => self.add(*r),
            Body::Dec { k, .. } => self.remove(*k),
            _ => {}
        }
    }

    /// Makes the operation that a record states.
    #[tactic(auto, unfolding(qp_model::specs::Record::item_of))]
    fn apply_record(&mut self, r: &Rec)
        requires inside { IsTrue (makes_below (length self.old.counts.items) (item_of r.now).body) }
        requires room { self.old.total + 1 < 2 ^ 64 }
        requires counts { (names : List ℕ) × AreNamesCounted names self.old.counts.items self.old.total }
        ensures counted { (s : Refs) → AreNamesCounted s.names self.old.counts.items self.old.total → AreNamesCounted (refs_next s (item_of r.now).body).names
            self.new.counts.items self.new.total }
        ensures size { length self.new.counts.items ≡ length self.old.counts.items }
        ensures bounded { self.new.total ≤ self.old.total + 1 }
    {
        self.apply(&r.body());
    }

    /// Makes these operations, where no reference stands.
    fn apply_all(&mut self, history: &Group)
        requires below { IsTrue (list_all (λ i. makes_below (length self.old.counts.items) i.body) history.now) }
        requires none { AreNamesCounted [] self.old.counts.items self.old.total }
        ensures { AreNamesCounted (after references history.now).names self.new.counts.items self.new.total }
    {
        for r in &history.items {
            self.apply_record(r);
        }
    }

    /// What stands after these operations, whose references are numbered below `size`.
    pub(crate) fn after(alloc: Global, history: &Group, size: usize) -> Result<Self, AllocError>
        requires { IsTrue (list_all (λ i. makes_below size i.body) history.now) }
        ensures { IfOk result (λ s. AreNamesCounted (after references history.now).names s.counts.items s.total) }
    {
        let mut counts = ReferenceCounts::none(alloc, size)?;
        counts.apply_all(history);
        Ok(counts)
    }

    /// Whether each of these references stands.
    fn has_all(&self, names: &[u64]) -> bool
        ensures { result ≡ list_all (λ k. nat_lt 0 (get_or self.now.counts.items k 0)) names.now }
    {
        names.iter().all(|k| self.at(*k) > 0)
    }

    /// Whether each reference that stands is marked.
    fn has_only(&self, marks: &[bool]) -> bool
        requires { length marks.now ≡ length self.now.counts.items }
        ensures { (names others : List ℕ) → AreNamesCounted names self.now.counts.items self.now.total →
            ((k : ℕ) → k < length self.now.counts.items → get_or marks.now k false ≡ has others k) → result ≡ list_all (λ x. has others x)
            names }
    {
        for k in 0..marks.len() {
            if self.counts[k] > 0 && !marks[k] {
                return false;
            }
        }
        true
    }

    /// Whether the references that stand are exactly these.
    pub(crate) fn are(&self, alloc: Global, others: &[u64]) -> Result<bool, AllocError>
        ensures { IfOk result (λ b. (names : List ℕ) → AreNamesCounted names self.now.counts.items self.now.total → b ≡ same_numbers names others.now) }
    {
        if self.total != others.len() as u64 {
            return Ok(false);
        }
        if !self.has_all(others) {
            return Ok(false);
        }
        let marks = marked(alloc, others, self.counts.len())?;
        Ok(self.has_only(&marks))
    }
}
