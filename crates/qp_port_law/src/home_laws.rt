//! Laws of a home lane, from its first record to its end. Each function here does nothing: its contract is the law.

ghost use Rattle.qp_port_law.specs.HomeLaws.{FullHomeEnds, HomeStartFails, HomeStartIsCut, HomeStartCompletes, HomeStepBegins, HomeStepEnds, HomeStepFails, HomeStepIsCut, HomeStepPauses, LookIsTold, NilIsTold, OwnRises, RestingHomeEnds, RestingHomeLeaves, SpentHomeEnds, UnstartedHomeEnds, WaitingHomeEnds};

/// The object's start comes to its `done`, and its lane has a whole group.
pub fn home_starts()
    ensures { HomeStartCompletes }
{}

/// The queue is found empty, and the lane tells so.
pub fn nil_is_told()
    ensures { NilIsTold }
{}

/// At the budget the queue is looked at in the place of a take, and is empty.
pub fn look_is_told()
    ensures { LookIsTold }
{}

/// Below its budget the object takes an entry up.
pub fn home_step_begins()
    ensures { HomeStepBegins }
{}

/// Its step goes on to the next scheduling point.
pub fn home_step_pauses()
    ensures { HomeStepPauses }
{}

/// Its step comes to its end, with the release of its entry, and the object rests.
pub fn home_step_ends()
    ensures { HomeStepEnds }
{}

/// A run may stop before the object has started.
pub fn unstarted_home_ends()
    ensures { UnstartedHomeEnds }
{}

/// An assertion within its start is the last record of the lane.
pub fn home_start_fails()
    ensures { HomeStartFails }
{}

/// A `spill` cuts its start right behind a record of it.
pub fn home_start_is_cut()
    ensures { HomeStartIsCut }
{}

/// A run may stop while the object rests.
pub fn resting_home_ends()
    ensures { RestingHomeEnds }
{}

/// A lane without room for what comes next ends by its `spill`.
pub fn full_home_ends()
    ensures { FullHomeEnds }
{}

/// An object at its budget whose queue is seen with an entry ends its lane by `spent`.
pub fn spent_home_ends()
    ensures { SpentHomeEnds }
{}

/// A run may stop while its step waits at a scheduling point.
pub fn waiting_home_ends()
    ensures { WaitingHomeEnds }
{}

/// An assertion within a step is the last record of the lane.
pub fn home_step_fails()
    ensures { HomeStepFails }
{}

/// A `spill` cuts a step right behind a record of its object, up to its release.
pub fn home_step_is_cut()
    ensures { HomeStepIsCut }
{}

/// The last-in posts and takes of a lane never grow fewer.
pub fn own_rises()
    ensures { OwnRises }
{}

/// An object that rests is where the course of its records leaves it, whatever marks stand behind them.
pub fn resting_home_leaves()
    ensures { RestingHomeLeaves }
{}
