//! The start of all objects.

ghost use Rattle.std.specs.Prelude.{◌+◌, ◌<◌, length};
ghost use Rattle.qp_model.specs.Sound.{IsSound};
ghost use Rattle.qp_kernel_turns.specs.Lanes.{LaneStarts};
ghost use Rattle.qp_kernel_turns.specs.Objects.{AreMade};
ghost use Rattle.qp_kernel_turns.specs.Starting.{HaveBegun, IsFreshLane, StartsAll, StartsOne, priorities_from};

use crate::objects::Objects;
use qp_calls::Ops;
use qp_dispatch::Step;
use qp_model::System;

impl Objects {
    /// Starts all objects, in ascending priority, in a lane that has no other work. It stops at the first start that ends in an
    /// assertion or finds no room, and never answers Point.
    pub fn start<O: Ops>(&mut self, ops: &mut O, sys: &System) -> Step
        requires sound { IsSound sys.now }
        requires made { AreMade sys.now self.old }
        requires fresh { IsFreshLane sys.now (O.lane ops.old) }
        ensures goes { StartsAll sys.now self.old self.new (O.lane ops.old) (O.lane ops.new) result }
        ensures lane { LaneStarts (O.lane ops.old) (O.lane ops.new) result }
    {
        for place in 0..sys.objects.items.len() {
            match self.start_next(place, ops, sys) {
                Step::Done => {}
                answer => return answer,
            }
        }
        Step::Done
    }

    /// Starts the object at this place, the first that has not started.
    fn start_next<O: Ops>(&mut self, place: usize, ops: &mut O, sys: &System) -> Step
        requires sound { IsSound sys.now }
        requires place { place < length sys.now.objects }
        requires begun { HaveBegun sys.now (priorities_from sys.now place) self.old (O.lane ops.old) }
        ensures { StartsOne sys.now (place + 1) self.old self.new (O.lane ops.old) (O.lane ops.new) result }
    {
        let mut ceiling = self.ceiling;
        let answer = self.start_one(sys.objects.items[place].priority, ops, sys, &mut ceiling);
        self.ceiling = ceiling;
        answer
    }
}
