//! Whether each look has the stimulus that acts there.

ghost use Rattle.std.specs.Prelude.{◌≡◌, ◌+◌, ◌<◌, ◌^◌, ℕ, [], map, Some, IfOk};
ghost use Rattle.std.specs.declared.option.Option.{Option};
ghost use Rattle.std.specs.Option.{option_map};
ghost use Rattle.qp_model.specs.Record.{item_of};
ghost use Rattle.qp_model.specs.OneOrder.{OneThread, look_of, looks_right, is_turn as right, no_look as without_look};
ghost use Rattle.qp_model.specs.OneOrder as order;
ghost use Rattle.qp_check_kernel.specs.AsPlaced.{as_placed};
ghost use Rattle.qp_check_kernel.specs.StimulusIndex.{parts_at};
ghost use Rattle.qp_check_kernel.specs.Turns.{as_turn};
ghost use Rattle.qp_check_lanes.specs.WordTotals.{count_in};
ghost use Rattle.qp_check_kernel.specs.OrderTurns.{RunsAs, turn_in, turns_in, turns_on, is_turn_found, look_stands};

use crate::source_turn::{Progress, StimulusPlace};
use crate::stimulus_index::{Index, Placed};
use qp_model::{Body, Rec, Source, System};
use std::alloc::{AllocError, Global};

/// The stimuli that stand in a look, as far as they matter.
#[derive(Clone, Copy)]
pub enum InLook {
    Nothing,
    Once { turn: StimulusPlace },
    Often,
}

/// The stimulus that a record begins.
#[tactic(auto, unfolding(qp_model::specs::Record::item_of))]
fn turn(x: Placed) -> Option<StimulusPlace>
    ensures { option_map as_turn result ≡ turn_in (as_placed x.entry) }
{
    match x.rec.body() {
        Body::Stim { i, .. } => Some(StimulusPlace {
            source: x.lane,
            place: i,
        }),
        _ => None,
    }
}

impl InLook {
    /// With one stimulus more, if it is one.
    fn and(self, turn: Option<StimulusPlace>) -> Self
        ensures { result ≡ turns_on self turn }
    {
        match (self, turn) {
            (found, None) => found,
            (InLook::Nothing, Some(turn)) => InLook::Once { turn },
            (InLook::Once { .. } | InLook::Often, Some(_)) => InLook::Often,
        }
    }

    /// Whether just this stimulus was found, or none where it is none.
    fn is(self, turn: Option<StimulusPlace>) -> bool
        ensures { result ≡ is_turn_found (option_map as_turn turn) self }
    {
        match (self, turn) {
            (InLook::Nothing, None) => true,
            (InLook::Once { turn: found }, Some(turn)) => found.source == turn.source
                && found.place == turn.place,
            _ => false,
        }
    }

    /// The stimuli among these records.
    fn among(part: &[Placed]) -> Self
        ensures { (t : Option order.Turn) → is_turn_found t result ≡ right t (turns_in (map as_placed part.now)) }
    {
        let mut found = InLook::Nothing;
        for x in part {
            found = found.and(turn(*x));
        }
        found
    }
}

impl<'a> Index<'a> {
    /// Whether just this stimulus stands in a look, or none where it is none.
    pub fn has(&self, k: u64, turn: Option<StimulusPlace>) -> bool
        ensures { result ≡ right (option_map as_turn turn) (turns_in (parts_at self.now k)) }
    {
        match self.parts.get(&k) {
            Some(part) => InLook::among(&part.items).is(turn),
            None => turn.is_none(),
        }
    }
}

/// The count and the floor of a `look`.
#[tactic(auto, unfolding(qp_model::specs::Record::item_of))]
fn look(r: &Rec) -> Option<(u64, u64)>
    ensures { result ≡ look_of (item_of r.now).body }
{
    match r.body() {
        Body::Look { k, floor } => Some((k, floor)),
        _ => None,
    }
}

/// Whether no look stands in these records.
fn no_look(after: &[Placed]) -> bool
    ensures { result ≡ without_look (map as_placed after.now) }
{
    after.iter().all(|x| look(x.rec).is_none())
}

/// What is at hand for the looks: the system, its stimuli, those that stand in each look, and whether a `spill` stands.
#[derive(Clone, Copy)]
pub struct Run<'r, 'a> {
    pub sys: &'r System,
    pub stimuli: &'r [Source],
    pub index: &'r Index<'a>,
    pub spills: bool,
}

impl<'r, 'a> Run<'r, 'a> {
    /// Whether a look has the stimulus that acts in it; only where a `spill` stands may the last look lack it.
    fn look_stands(&self, progress: &Progress, l: (u64, u64), after: &[Placed]) -> bool
        requires { (k : ℕ) → count_in progress.now.begun k + 1 < 2 ^ 64 }
        ensures { result ≡ look_stands self.now progress.now (map as_placed after.now) (Some l) }
    {
        let index = self.index;
        index.has(l.0, progress.next(self.sys, self.stimuli, l.1 == 0))
            || (self.spills && index.has(l.0, None) && no_look(after))
    }

    /// The same of any record.
    fn stands(&self, progress: &Progress, x: Placed, after: &[Placed]) -> bool
        requires { (k : ℕ) → count_in progress.now.begun k + 1 < 2 ^ 64 }
        ensures { result ≡ look_stands self.now progress.now (map as_placed after.now) (look_of (as_placed x.entry).item.body) }
    {
        match look(x.rec) {
            Some(l) => self.look_stands(progress, l, after),
            None => true,
        }
    }

    /// Whether each look has its stimulus.
    pub fn looks_stand(&self, alloc: Global, order: &[Placed]) -> Result<bool, AllocError>
        ensures { IfOk result (λ b. (r : OneThread) → RunsAs self.now r → b ≡ looks_right r [] (map as_placed order.now)) }
    {
        let mut progress = Progress::none(alloc);
        for (i, x) in order.iter().enumerate() {
            if !self.stands(&progress, *x, &order[i + 1..]) {
                return Ok(false);
            }
            progress.note(*x)?;
        }
        Ok(true)
    }
}
