//! The deferred list of an object, as its records leave it.

ghost use Rattle.std.specs.Prelude.{◌≡◌, ◌==◌, [], ◌∷◌, ◌++◌, drop, length, nat_lt, if◌then◌else◌, IfOk};
ghost use Rattle.qp_model.specs.History.{lane_items};
ghost use Rattle.qp_model.specs.Record.{item_of};
ghost use Rattle.qp_model.specs.Knowing.{Facts, records_of};
ghost use Rattle.qp_model.specs.Line.{is_front};
ghost use Rattle.qp_model.specs.Deferral.{keep, kept_after};
ghost use Rattle.qp_model.specs.Lawful.{deferral_holds};
ghost use Rattle.qp_check_lanes.specs.Options.{allowed};

use crate::lane_parts::{home_lane, lane_at};
use qp_model::{Body, Entry, Journal, ObjectDef, Rec, System};
use std::alloc::{AllocError, Global};
use std::collections::VecDeque;
use std::marker::Model;

/// The deferred entries of an object. Contracts see the list, the oldest first.
#[derive(Drop)]
pub struct DeferredList {
    pub items: VecDeque<Entry>,
}

impl Model for DeferredList {
    ghost use Rattle.std.specs.Prelude.{List};
    ghost use Rattle.qp_model.specs.declared.bodies.Entry.{Entry};

    ghost Value = { List Entry };

    ghost view = { λ b. b.items.items };
}

impl DeferredList {
    fn none(alloc: Global) -> Self
        ensures { result ≡ [] }
    {
        DeferredList {
            items: VecDeque::new(alloc),
        }
    }

    fn begins_with(&self, e: Entry) -> bool
        ensures { result ≡ is_front e self.now }
    {
        match self.items.front() {
            Some(first) => first.is_same(e),
            None => false,
        }
    }

    /// Removes the oldest entry where it is this one.
    fn remove(&mut self, e: Entry) -> bool
        ensures { allowed result self.new ≡ (if is_front e self.old then Some (drop 1 self.old) else None) }
    {
        if !self.begins_with(e) {
            return false;
        }
        self.items.pop_front();
        true
    }

    /// Appends an entry where the list has room.
    fn add(&mut self, room: u8, e: Entry) -> Result<bool, AllocError>
        ensures { IfOk result (λ b. allowed b self.new ≡ (if nat_lt (length self.old) room then Some (self.old ++ e ∷ []) else None)) }
    {
        if self.items.len() >= usize::from(room) {
            return Ok(false);
        }
        self.items.push_back(e)?;
        Ok(true)
    }

    /// Keeps the list by a record, or answers that it can't stand there.
    #[tactic(auto, unfolding(qp_model::specs::Deferral::keep))]
    fn keep(&mut self, room: u8, body: &Body) -> Result<bool, AllocError>
        ensures { IfOk result (λ b. allowed b self.new ≡ keep room self.old body.now) }
    {
        match body {
            Body::Defer { entry } => self.add(room, *entry),
            Body::NoDefer => Ok(self.items.len() >= usize::from(room)),
            Body::Recall { entry } => Ok(self.remove(*entry)),
            Body::Flush { entry } => Ok(self.remove(*entry)),
            Body::NoRecall => Ok(self.items.is_empty()),
            _ => Ok(true),
        }
    }

    /// The same for a record of this object; one of another changes nothing.
    #[tactic(auto, unfolding(qp_model::specs::Record::item_of))]
    fn keep_own(&mut self, room: u8, o: u8, r: &Rec) -> Result<bool, AllocError>
        ensures { IfOk result (λ b. allowed b self.new ≡ (if (item_of r.now).of == o then keep room self.old
            (item_of r.now).body else Some self.old)) }
    {
        if r.of != o {
            return Ok(true);
        }
        self.keep(room, &r.body())
    }
}

/// The deferred list of an object after these records; `None` where one of them can't stand.
pub fn kept(
    alloc: Global,
    room: u8,
    o: u8,
    lane: &[Rec],
) -> Result<Option<DeferredList>, AllocError>
    ensures { IfOk result (λ k. (w : Facts) → k ≡ kept_after room [] (records_of w o 0 (lane_items lane.now))) }
{
    let mut kept = DeferredList::none(alloc);
    for r in lane {
        if !kept.keep_own(room, o, r)? {
            return Ok(None);
        }
    }
    Ok(Some(kept))
}

/// Whether each record of deferral of an object stands where its deferred list allows it.
#[tactic(auto, unfolding(qp_model::specs::Lawful::deferral_holds, qp_model::specs::Home::by_object, qp_model::specs::Lawful::facts_of))]
pub fn keeps_deferred(
    alloc: Global,
    sys: &System,
    j: &Journal,
    d: &ObjectDef,
) -> Result<bool, AllocError>
    ensures { IfOk result (λ b. b ≡ deferral_holds sys.now j.now d.now) }
{
    let home = home_lane(sys, j, d.priority);
    Ok(kept(alloc, d.defer, d.priority, lane_at(j, home))?.is_some())
}
