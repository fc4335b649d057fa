//! How many entries each object has taken.

ghost use Rattle.std.specs.Prelude.{◌≡◌, ◌==◌, ◌<◌, ◌-◌, ◌+◌, ◌^◌, ℕ, min, nat_le, slice_index, if◌then◌else◌};
ghost use Rattle.qp_model.specs.History.{lane_items, all_items};
ghost use Rattle.qp_model.specs.Record.{item_of};
ghost use Rattle.qp_model.specs.End.{took_count, takes_of, is_its_object};
ghost use Rattle.qp_check_ends.specs.Takes.{AreTakesOf};

use qp_model::{Body, Journal, Rec};

/// How many entries each object has taken; a count stands still at its type's end.
#[derive(Drop)]
pub struct Takes {
    pub counts: [u64; 256],
}

/// The object that takes an entry.
#[tactic(auto, unfolding(qp_model::specs::Record::item_of))]
fn taker(r: &Rec) -> Option<u8>
    ensures { (o : ℕ) → takes_of o (item_of r.now) ≡ is_its_object o result }
{
    match r.body() {
        Body::Took { .. } => Some(r.of),
        _ => None,
    }
}

impl Takes {
    fn none() -> Self
        ensures { (o : ℕ) → o < 256 → slice_index result.counts o ≡ 0 }
    {
        Takes { counts: [0; 256] }
    }

    fn of(&self, o: u8) -> u64
        ensures { result ≡ slice_index self.now.counts o }
    {
        self.counts[usize::from(o)]
    }

    /// Whether an object has taken just its budget.
    pub fn has_spent(&self, j: &Journal, o: u8) -> bool
        requires { AreTakesOf j.now.lanes self.now }
        ensures { result ≡ (took_count (all_items j.now.lanes) o == j.now.budget) }
    {
        self.of(o) == u64::from(j.budget)
    }

    /// Whether an object has taken no more than its budget.
    pub fn keeps_budget(&self, j: &Journal, o: u8) -> bool
        requires { AreTakesOf j.now.lanes self.now }
        ensures { result ≡ nat_le (took_count (all_items j.now.lanes) o) j.now.budget }
    {
        self.of(o) <= u64::from(j.budget)
    }

    fn add(&mut self, taker: Option<u8>)
        requires { (o : ℕ) → o < 256 → slice_index self.old.counts o < 2 ^ 64 }
        ensures { (o : ℕ) → o < 256 → slice_index self.new.counts o ≡ min (slice_index self.old.counts o +
            (if is_its_object o taker then 1 else 0)) (2 ^ 64 - 1) }
    {
        if let Some(o) = taker {
            let place = usize::from(o);
            self.counts[place] = self.counts[place].saturating_add(1);
        }
    }

    fn add_lane(&mut self, lane: &[Rec])
        requires { (o : ℕ) → o < 256 → slice_index self.old.counts o < 2 ^ 64 }
        ensures { (o : ℕ) → o < 256 → slice_index self.new.counts o ≡ min (slice_index self.old.counts o + took_count (lane_items lane.now)
            o) (2 ^ 64 - 1) }
    {
        for r in lane {
            self.add(taker(r));
        }
    }

    /// The takes of a journal.
    pub fn of_journal(j: &Journal) -> Self
        ensures { AreTakesOf j.now.lanes result }
    {
        let mut takes = Takes::none();
        for lane in &j.lanes.items {
            takes.add_lane(&lane.items);
        }
        takes
    }
}
