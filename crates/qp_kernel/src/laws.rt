//! Laws of the kernel's lane, from its first record to the journal of its run. Each function here does nothing: its contract is the law.

ghost use Rattle.qp_kernel.specs.Laws.{LaneBegins, LooksAreSettled, ObjectStartCompletes, LookIsAdded, EmptyIsSeen, EntryIsSeen, RestIsAdded, StepBegins, StepPauses, StepEnds, RunEndsQuietly, RunStopsElsewhere, BudgetEnds, AssertionEndsStep, AssertionEndsStart, SpillEndsStep, SpillEndsStart, FullLaneEnds, DeferredAreKept, RunsAreLawful, QuietRunsAreLawful};

/// Before its first record lane 0 stands: no object has started, and nothing is owed.
pub fn lane_begins()
    ensures { LaneBegins }
{}

/// Which stimuli later looks have is no matter of what has been read of lane 0.
pub fn looks_are_settled()
    ensures { LooksAreSettled }
{}

/// The next object's start comes to its `done`, and the object rests.
pub fn objects_start()
    ensures { ObjectStartCompletes }
{}

/// A look is added, with the next count and the floor that stands; the object that owes its scheduling point has it.
pub fn looks_are_added()
    ensures { LookIsAdded }
{}

/// An empty queue is seen, and the look goes on to the next object, or the row ends.
pub fn empty_queues_are_seen()
    ensures { EmptyIsSeen }
{}

/// An entry is seen, and the step of its object comes next.
pub fn entries_are_seen()
    ensures { EntryIsSeen }
{}

/// The cooperative kernel rests behind a look at the base without an entry, and its row goes on or is over.
pub fn rests_are_added()
    ensures { RestIsAdded }
{}

/// The object found takes its entry up, where it has taken fewer than its budget.
pub fn steps_begin()
    ensures { StepBegins }
{}

/// The running object's step goes on to its next scheduling point, which it owes.
pub fn steps_pause()
    ensures { StepPauses }
{}

/// The running object's step comes to its end, with the release of its entry, and the object rests.
pub fn steps_end()
    ensures { StepEnds }
{}

/// A run whose row at the base is over, all objects at rest, has a whole lane 0.
pub fn runs_end_quietly()
    ensures { RunEndsQuietly }
{}

/// A run that another lane stops has a lane 0 that stopped where it may.
pub fn runs_stop_elsewhere()
    ensures { RunStopsElsewhere }
{}

/// An object at its budget whose queue is seen with an entry ends the lane by `spent`.
pub fn budgets_end_runs()
    ensures { BudgetEnds }
{}

/// An assertion within a step is the last record of the lane.
pub fn assertions_end_steps()
    ensures { AssertionEndsStep }
{}

/// An assertion within a start is the last record of the lane.
pub fn assertions_end_starts()
    ensures { AssertionEndsStart }
{}

/// A `spill` cuts a step right behind a record of its object, up to its release.
pub fn spills_end_steps()
    ensures { SpillEndsStep }
{}

/// A `spill` cuts a start right behind a record of its object.
pub fn spills_end_starts()
    ensures { SpillEndsStart }
{}

/// A lane without room for what comes next ends by its `spill`.
pub fn full_lanes_end()
    ensures { FullLaneEnds }
{}

/// The deferred entries of a journal are those that its objects keep at rest.
pub fn deferred_are_kept()
    ensures { DeferredAreKept }
{}

/// What a kernel of one thread knows of its run, when it has ended, makes its journal lawful.
pub fn runs_are_lawful()
    ensures { RunsAreLawful }
{}

/// So does a run that comes to its end by itself: the row at the base is over, all stimuli are done, every object
/// rests, and every queue is empty.
pub fn quiet_runs_are_lawful()
    ensures { QuietRunsAreLawful }
{}
