//! What a word held before each of its operations and after the last.

ghost use Rattle.std.specs.Prelude.{◌≡◌, ◌+◌, ◌<◌, ◌≤◌, ◌^◌, ℕ, IfOk, OnOk};
ghost use Rattle.qp_model.specs.References.{Refs, references, refs_next};
ghost use Rattle.qp_check_knowledge.specs.KnownTables.{AreReferencesCounted, free_counts, left_counts, member_lists, value_at};
ghost use Rattle.qp_check_lanes.specs.WordTotals.{count_in};

use qp_check_lanes::groups::Group;
use qp_check_lanes::pools::FreeBlocks;
use qp_check_lanes::signals::{Members, Subscribed};
use qp_check_lanes::word_state::WordState;
use qp_check_lanes::word_totals::CountsByNumber;
use qp_model::Body;
use std::alloc::{AllocError, Global};

/// The number at a place, or the last one.
pub fn number_at(xs: &[u64], n: usize) -> u64
    ensures { result ≡ value_at 0 xs.now n }
{
    let last = xs.len().saturating_sub(1);
    match xs.get(n.min(last)) {
        Some(x) => *x,
        None => 0,
    }
}

/// How many blocks of a pool were free.
#[tactic(auto, unfolding(crate::specs::KnownTables::free_counts))]
pub fn free_counts(alloc: Global, blocks: u8, history: &Group) -> Result<Vec<u64>, AllocError>
    ensures { IfOk result (λ v. v.items ≡ free_counts blocks history.now) }
{
    let mut free = FreeBlocks::new(alloc, blocks)?;
    let mut counts = Vec::new(alloc);
    for r in &history.items {
        counts.push(free.left())?;
        free.apply(r.of, &r.body())?;
    }
    counts.push(free.left())?;
    Ok(counts)
}

/// The references to a block that stand, by the operations that made them.
#[derive(Drop)]
struct Standing {
    counts: CountsByNumber,
    total: u64,
}

impl Standing {
    fn none(alloc: Global) -> Self
        ensures { AreReferencesCounted references.first result.counts result.total }
    {
        Standing {
            counts: CountsByNumber::none(alloc),
            total: 0,
        }
    }

    fn apply(&mut self, body: &Body) -> Result<(), AllocError>
        requires few { self.old.total + 1 < 2 ^ 64 }
        requires each { (q : ℕ) → count_in self.old.counts q ≤ self.old.total }
        ensures counted { OnOk result ((s : Refs) → AreReferencesCounted s self.old.counts self.old.total → AreReferencesCounted (refs_next s body.now)
            self.new.counts self.new.total) }
        ensures bounded { OnOk result (self.new.total ≤ self.old.total + 1) }
    {
        match body {
            Body::Inc { r, .. } => {
                self.counts.add(*r)?;
                self.total += 1;
            }
            Body::Dec { k, .. } => {
                if self.counts.take(*k)? {
                    self.total = self.total.saturating_sub(1);
                }
            }
            _ => {}
        }
        Ok(())
    }
}

/// How many references to a block stood.
pub fn left_counts(alloc: Global, history: &Group) -> Result<Vec<u64>, AllocError>
    ensures { IfOk result (λ v. v.items ≡ left_counts history.now) }
{
    let mut standing = Standing::none(alloc);
    let mut counts = Vec::new(alloc);
    for r in &history.items {
        counts.push(standing.total)?;
        standing.apply(&r.body())?;
    }
    counts.push(standing.total)?;
    Ok(counts)
}

/// The subscribers of a signal at each time.
pub fn member_lists(alloc: Global, history: &Group) -> Result<Vec<Subscribed>, AllocError>
    ensures { IfOk result (λ v. v.items ≡ member_lists history.now) }
{
    let mut members = Members::new(alloc);
    let mut lists = Vec::new(alloc);
    for r in &history.items {
        lists.push(members.listed(alloc)?)?;
        members.apply(r.of, &r.body())?;
    }
    lists.push(members.listed(alloc)?)?;
    Ok(lists)
}
