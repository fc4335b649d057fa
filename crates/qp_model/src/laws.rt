//! Laws that every lawful journal keeps. Each function here does nothing: its contract is the law.

ghost use Rattle.qp_model.specs.Laws.{StepsBeginAboveTheFloor, CooperativeStepsStandAlone, KernelRestsWhereAllAreEmpty, QuietEndLeavesNothing, TakesWhatItsQueueGives, StepsAreTheMeaning};

/// Under `sim`, `qk` and `qv` an object's step begins only right after a look that showed its queue with an entry,
/// and only where its priority is above the floor: the larger of the running object's threshold and the ceiling.
pub fn steps_begin_above_the_floor()
    ensures { StepsBeginAboveTheFloor }
{}

/// Under the cooperative kernel no step begins within another.
pub fn cooperative_steps_stand_alone()
    ensures { CooperativeStepsStandAlone }
{}

/// An end 0 leaves every queue empty, every stimulus done, and each block free or held by deferred entries alone.
pub fn quiet_end_leaves_nothing()
    ensures { QuietEndLeavesNothing }
{}

/// An object's steps are over the entries that its queue gave, in order: those of the takes in the queue's history.
/// Priorities ascend from above 0, as those of a system file do.
pub fn steps_take_what_the_queue_gives()
    ensures { TakesWhatItsQueueGives }
{}

/// Each object's steps are the statechart meaning of the events that its queue gave, in order. Where the run
/// stopped early, its records are the front of such a course.
pub fn steps_are_the_meaning()
    ensures { StepsAreTheMeaning }
{}

/// The kernel rests only right after a look at the base that saw the queue of every object empty.
pub fn the_kernel_rests_where_all_are_empty()
    ensures { KernelRestsWhereAllAreEmpty }
{}
