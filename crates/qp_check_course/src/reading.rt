//! A course that is read record by record.

ghost use Rattle.std.specs.Prelude.{◌≡◌, [], List, IfOk};
ghost use Rattle.qp_model.specs.Told as telling;
ghost use Rattle.qp_model.specs.declared.systems.ObjectDef as object;
ghost use Rattle.qp_model.specs.declared.systems.System as system;
ghost use Rattle.qp_check_course.specs.Followable.{IsFollowable};
ghost use Rattle.qp_check_course.specs.Reading.{CanRead, CourseHasBegun, LeavesOf, ReadsOn};
ghost use Rattle.qp_check_course.specs.Standing.{FollowSomehow, StandsAt};

use crate::decide::actor_of;
use crate::runs::begin;
use crate::standing::Standing;
use crate::states::{Actor, State};
use qp_check_calls::Told;
use qp_model::{ObjectDef, System};
use std::alloc::{AllocError, Global};

/// The course of an object, read record by record.
#[derive(Drop)]
pub struct CourseReading<'a> {
    pub(crate) who: Actor<'a>,
    pub(crate) state: State<'a>,
}

impl<'a> CourseReading<'a> {
    /// The course before its first record. There is none where the object has no chart.
    pub fn begin(alloc: Global, sys: &'a System, d: &ObjectDef) -> Result<Option<Self>, AllocError>
        requires { IsFollowable sys.now d.now }
        ensures { IfOk result (λ first. CourseHasBegun sys.now d.now first) }
    {
        match actor_of(sys, d) {
            Some(who) => {
                let state = begin(alloc, &who, d)?;
                Ok(Some(CourseReading { who, state }))
            }
            None => Ok(None),
        }
    }

    /// The course behind one record more of a start or a step, with the points before it; None where it can't come next.
    pub fn read(self, alloc: Global, told: &Told) -> Result<Option<Self>, AllocError>
        requires { CanRead self }
        ensures { IfOk result (λ later. ReadsOn self.entry told.now later) }
    {
        let CourseReading { who, state } = self;
        let here = state.passed(&who);
        let next = here.tell(alloc, &who, told)?;
        match next {
            Some(state) => Ok(Some(CourseReading { who, state })),
            None => Ok(None),
        }
    }

    /// Where the object stands behind the records read; nowhere in the midst of its start or of a step.
    pub fn standing(self) -> Option<Standing>
        ensures { (sys : system.System) (d : object.ObjectDef) (all : List telling.Told) → IsFollowable sys d → FollowSomehow sys d all →
            LeavesOf sys d self.entry [] all → StandsAt sys d all result }
    {
        let CourseReading { who: _, state } = self;
        state.standing()
    }
}
