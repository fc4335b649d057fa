//! An object in a lane of its own, and its start.

ghost use Rattle.std.specs.Prelude.{◌≡◌, IfOk, not, ◌&&◌};
ghost use Rattle.qp_model.specs.Sound.{IsSound};
ghost use Rattle.qp_kernel_turns.specs.Lanes.{LaneStarts};
ghost use Rattle.qp_port_lanes.specs.At.{HasEmptyLane, IsUnstartedHome};
ghost use Rattle.qp_port_lanes.specs.Turning.{HomeStarts, StartsAlone};

use qp_base::Memory;
use qp_calls::Ops;
use qp_dispatch::{Object, Step};
use qp_model::System;
use std::alloc::Global;

/// An object in a lane of its own: its priority, the ceiling of the lane, whether its queue was looked at in the place of a take,
/// and whether a step of it is under way.
#[derive(Drop)]
pub struct Home {
    pub(crate) object: Object,
    pub(crate) me: u8,
    pub(crate) ceiling: u8,
    pub(crate) looked: bool,
    pub(crate) busy: bool,
}

impl Home {
    /// The object of this priority before its start, for a lane that serves it and no other. A system that lacks it, or its chart,
    /// gets the answer of a want of memory.
    pub fn new(alloc: Global, sys: &System, priority: u8) -> Result<Home, Memory>
        ensures { IfOk result (λ home. IsUnstartedHome sys.now priority home) }
    {
        let object = Object::new(alloc, sys, priority)?;
        Ok(Home {
            object,
            me: priority,
            ceiling: 0,
            looked: false,
            busy: false,
        })
    }

    /// The whole start of the object, the first that happens in its lane. It ends in an assertion, or where the lane has no room,
    /// and never answers Point.
    pub fn start<O: Ops>(&mut self, ops: &mut O, sys: &System) -> Step
        requires sound { IsSound sys.now }
        requires made { IsUnstartedHome sys.now self.old.me self.old }
        requires empty { HasEmptyLane sys.now self.old.me (O.lane ops.old) }
        ensures goes { HomeStarts sys.now self.old.me self.new (O.lane ops.new) result }
        ensures alone { StartsAlone (O.lane ops.new) result }
        ensures lane { LaneStarts (O.lane ops.old) (O.lane ops.new) result }
        ensures same { self.new.me ≡ self.old.me }
    {
        self.object.start(ops, sys, &mut self.ceiling)
    }

    /// Its priority.
    pub fn priority(&self) -> u8
        ensures { result ≡ self.now.me }
    {
        self.me
    }

    /// The object.
    pub fn object(&self) -> &Object
        ensures { result.now ≡ self.now.object }
    {
        &self.object
    }

    /// Whether its start is done, and no step of it is under way.
    pub fn rests(&self) -> bool
        ensures { result ≡ (self.now.object.started && not self.now.busy) }
    {
        self.object.leaf().is_some() && !self.busy
    }
}
