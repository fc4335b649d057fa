//! The objects of a system, by priority.

ghost use Rattle.std.specs.Prelude.{◌≡◌, IfOk};
ghost use Rattle.qp_kernel_turns.specs.Objects.{AreMade, BeginsAt, IsPlace, MayBeginAt, MayResumeAt, MayStartAt, ResumesAt, StartsAt, leaf_in, taken_up_by, threshold_in, vars_in};

use qp_base::Memory;
use qp_calls::{HeldEntry, Ops};
use qp_dispatch::{Object, Step};
use qp_model::System;
use std::alloc::Global;

/// The highest priority, and one more for none.
const PLACES: u8 = 33;

/// An object with the threshold that the system gives it.
#[derive(Drop)]
pub(crate) struct Slot {
    pub(crate) object: Object,
    pub(crate) threshold: u8,
}

/// All objects of a system, each at its priority, and the ceiling of their lane.
#[derive(Drop)]
pub struct Objects {
    pub(crate) slots: Vec<Option<Slot>>,
    pub(crate) ceiling: u8,
}

/// The object of this priority before its start, where the system has one.
fn place(alloc: Global, sys: &System, p: u8) -> Result<Option<Slot>, Memory>
    ensures { IfOk result (λ slot. IsPlace sys.now p slot) }
{
    match sys.object_at(u64::from(p)) {
        None => Ok(None),
        Some(definition) => {
            let object = Object::new(alloc, sys, p)?;
            Ok(Some(Slot {
                object,
                threshold: definition.threshold,
            }))
        }
    }
}

impl Objects {
    /// All objects, before their start.
    pub fn new(alloc: Global, sys: &System) -> Result<Objects, Memory>
        ensures { IfOk result (λ xs. AreMade sys.now xs) }
    {
        let Ok(mut slots) = Vec::with_capacity(alloc, usize::from(PLACES)) else {
            return Err(Memory);
        };
        for p in 0..PLACES {
            let slot = place(alloc, sys, p)?;
            let Ok(()) = slots.push(slot) else {
                return Err(Memory);
            };
        }
        Ok(Objects { slots, ceiling: 0 })
    }

    /// Takes up an entry that was taken for the object of this priority. It adds no record.
    pub fn begin(&mut self, p: u8, e: HeldEntry)
        requires { MayBeginAt p self.old }
        ensures { BeginsAt p e self.old self.new }
    {
        if let Some(slot) = &mut self.slots[usize::from(p)] {
            slot.object.begin(e);
        }
    }

    /// Goes on with the step of the object of this priority, up to its next scheduling point or to its end.
    pub fn resume<O: Ops>(&mut self, p: u8, ops: &mut O, sys: &System, ceiling: &mut u8) -> Step
        requires { MayResumeAt sys.now ceiling.old p self.old (O.lane ops.old) }
        ensures { ResumesAt sys.now ceiling.old ceiling.new p self.old self.new (O.lane ops.old) (O.lane ops.new) result }
    {
        match &mut self.slots[usize::from(p)] {
            Some(slot) => slot.object.resume(ops, sys, ceiling),
            None => Step::Memory,
        }
    }

    /// The whole start of the object of this priority.
    pub(crate) fn start_one<O: Ops>(
        &mut self,
        p: u8,
        ops: &mut O,
        sys: &System,
        ceiling: &mut u8,
    ) -> Step
        requires { MayStartAt sys.now ceiling.old p self.old (O.lane ops.old) }
        ensures { StartsAt sys.now ceiling.new p self.old self.new (O.lane ops.old) (O.lane ops.new) result }
    {
        match &mut self.slots[usize::from(p)] {
            Some(slot) => slot.object.start(ops, sys, ceiling),
            None => Step::Memory,
        }
    }

    /// How many entries the object of this priority has taken up; 0 where there is none.
    pub fn taken(&self, p: u8) -> u32
        ensures { result ≡ taken_up_by self.now.slots.items p }
    {
        match self.slots.get(usize::from(p)) {
            Some(Some(slot)) => slot.object.taken(),
            _ => 0,
        }
    }

    /// The threshold of the object of this priority; 0 where there is none.
    pub(crate) fn threshold(&self, p: u8) -> u8
        ensures { result ≡ threshold_in self.now.slots.items p }
    {
        match self.slots.get(usize::from(p)) {
            Some(Some(slot)) => slot.threshold,
            _ => 0,
        }
    }

    /// The current leaf of the object of this priority. None before its start is done, and where there is no such object.
    pub fn leaf(&self, p: u8) -> Option<u8>
        ensures { result ≡ leaf_in self.now.slots.items p }
    {
        match self.slots.get(usize::from(p)) {
            Some(Some(slot)) => slot.object.leaf(),
            _ => None,
        }
    }

    /// The values of the variables of the object of this priority; none where there is no such object.
    pub fn vars(&self, p: u8) -> &[i64]
        ensures { result.now ≡ vars_in self.now.slots.items p }
    {
        match self.slots.get(usize::from(p)) {
            Some(Some(slot)) => slot.object.vars(),
            _ => &[],
        }
    }

    /// Leaves the deferred entries of all objects, and those of steps under way, without a record.
    pub fn end<O: Ops>(self, ops: &mut O)
        ensures { O.lane ops.new ≡ O.lane ops.old }
    {
        let _ = ops;
    }
}
