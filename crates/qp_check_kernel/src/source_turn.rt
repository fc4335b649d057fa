//! Which source acts: what the records before a look say.

ghost use Rattle.std.specs.Prelude.{◌≡◌, ◌+◌, ◌==◌, ◌<◌, ◌≤◌, ◌&&◌, ◌^◌, ℕ, drop, length, if◌then◌else◌, OnOk};
ghost use Rattle.std.specs.List.{list_all, find};
ghost use Rattle.std.specs.Option.{option_map};
ghost use Rattle.qp_model.specs.Record.{item_of};
ghost use Rattle.qp_model.specs.OneOrder.{enters, leaves, is_stim as stims, may_act, turned};
ghost use Rattle.qp_check_kernel.specs.AsPlaced.{as_placed, said_at};
ghost use Rattle.qp_check_lanes.specs.Options.{is_this_number};
ghost use Rattle.qp_check_lanes.specs.WordTotals.{count_in};
ghost use Rattle.qp_check_kernel.specs.Turns.{as_turn, left_from, first_acting, next_turn};

use crate::stimulus_index::Placed;
use qp_check_lanes::word_totals::CountsByNumber;
use qp_model::{Body, Rec, Source, Stim, System};
use std::alloc::{AllocError, Global};

/// What the records so far have done: how many stimuli each source has begun, which one acted last, and how many entries came to each
/// queue and left it.
#[derive(Drop)]
pub struct Progress {
    pub begun: CountsByNumber,
    pub last: usize,
    pub entered: CountsByNumber,
    pub left: CountsByNumber,
}

/// A stimulus by its source and its place there, from 1.
#[derive(Clone, Copy)]
pub struct StimulusPlace {
    pub source: usize,
    pub place: u64,
}

/// The queue that an entry comes to.
#[tactic(auto, unfolding(qp_model::specs::Record::item_of))]
fn entered(r: &Rec) -> Option<u64>
    ensures { (o : ℕ) → enters o (item_of r.now) ≡ is_this_number o result }
{
    match r.body() {
        Body::Post { a, .. } => Some(a),
        Body::Lifo { .. } => Some(u64::from(r.of)),
        _ => None,
    }
}

/// The queue that an entry leaves.
#[tactic(auto, unfolding(qp_model::specs::Record::item_of))]
fn left(r: &Rec) -> Option<u64>
    ensures { (o : ℕ) → leaves o (item_of r.now) ≡ is_this_number o result }
{
    match r.body() {
        Body::Took { .. } => Some(u64::from(r.of)),
        _ => None,
    }
}

#[tactic(auto, unfolding(qp_model::specs::Record::item_of))]
fn is_stim(x: Placed) -> bool
    ensures { result ≡ stims (as_placed x.entry) }
{
    matches!(x.rec.body(), Body::Stim { .. })
}

/// The source that begins a stimulus.
fn beginner(x: Placed) -> Option<u64>
    ensures { (s : ℕ) → (stims (as_placed x.entry) && (x.entry.lane == s)) ≡ is_this_number s result }
{
    if is_stim(x) {
        Some(x.lane as u64)
    } else {
        None
    }
}

/// Whether a source with so many stimuli begun may act; a `settle` may only where all is at rest.
fn acts(rests: bool, source: &Source, begun: u64) -> bool
    ensures { result ≡ may_act rests (drop begun source.now) }
{
    match source.items.get(begun as usize) {
        None => false,
        Some(Stim::Settle) => rests,
        Some(_) => true,
    }
}

impl Progress {
    pub fn none(alloc: Global) -> Self
        ensures begun { (k : ℕ) → count_in result.begun k ≡ 0 }
        ensures entered { (k : ℕ) → count_in result.entered k ≡ 0 }
        ensures left { (k : ℕ) → count_in result.left k ≡ 0 }
        ensures last { result.last ≡ 0 }
    {
        Progress {
            begun: CountsByNumber::none(alloc),
            last: 0,
            entered: CountsByNumber::none(alloc),
            left: CountsByNumber::none(alloc),
        }
    }

    /// One record more.
    pub fn note(&mut self, x: Placed) -> Result<(), AllocError>
        requires begun { (k : ℕ) → count_in self.old.begun k + 1 < 2 ^ 64 }
        requires entered { (k : ℕ) → count_in self.old.entered k + 1 < 2 ^ 64 }
        requires left { (k : ℕ) → count_in self.old.left k + 1 < 2 ^ 64 }
        ensures begun { OnOk result ((k : ℕ) → count_in self.new.begun k ≡ count_in self.old.begun k +
            (if stims (as_placed x.entry) && (x.entry.lane == k) then 1 else 0)) }
        ensures entered { OnOk result ((k : ℕ) → count_in self.new.entered k ≡ count_in self.old.entered k +
            (if enters k (said_at x.entry) then 1 else 0)) }
        ensures left { OnOk result ((k : ℕ) → count_in self.new.left k ≡ count_in self.old.left k +
            (if leaves k (said_at x.entry) then 1 else 0)) }
        ensures last { OnOk result (self.new.last ≡ (if stims (as_placed x.entry) then x.entry.lane else self.old.last)) }
    {
        self.begun.count(beginner(x))?;
        self.entered.count(entered(x.rec))?;
        self.left.count(left(x.rec))?;
        if is_stim(x) {
            self.last = x.lane;
        }
        Ok(())
    }

    /// Whether every queue is empty.
    fn all_empty(&self, sys: &System) -> bool
        ensures { result ≡ list_all (λ d. count_in self.now.entered d.priority == count_in self.now.left d.priority) sys.now.objects }
    {
        for d in &sys.objects.items {
            if self.entered.at(u64::from(d.priority)) != self.left.at(u64::from(d.priority)) {
                return false;
            }
        }
        true
    }

    /// The first of these sources that may act; they are numbered from k on.
    fn first(&self, rests: bool, k: usize, sources: &[Source]) -> Option<usize>
        requires { k + length sources.now < 2 ^ 64 }
        ensures { result ≡ first_acting rests (left_from k (count_in self.now.begun) sources.now) }
    {
        for (i, source) in sources.iter().enumerate() {
            if acts(rests, source, self.begun.at((k + i) as u64)) {
                return Some(k + i);
            }
        }
        None
    }

    /// The source that acts: the first that may, in cyclic order after the one that acted last.
    fn acting(&self, rests: bool, stimuli: &[Source]) -> Option<usize>
        ensures { result ≡ first_acting rests (turned self.now.last (left_from 1 (count_in self.now.begun) stimuli.now)) }
    {
        let last = self.last.min(stimuli.len());
        match self.first(rests, last + 1, &stimuli[last..]) {
            Some(source) => Some(source),
            None => self.first(rests, 1, &stimuli[..last]),
        }
    }

    /// The stimulus that acts in a look.
    pub fn next(&self, sys: &System, stimuli: &[Source], at_base: bool) -> Option<StimulusPlace>
        requires { (k : ℕ) → count_in self.now.begun k + 1 < 2 ^ 64 }
        ensures { option_map as_turn result ≡ next_turn self.now sys.now stimuli.now at_base }
    {
        let rests = at_base && self.all_empty(sys);
        let source = self.acting(rests, stimuli)?;
        Some(StimulusPlace {
            source,
            place: self.begun.at(source as u64) + 1,
        })
    }
}
