//! Laws of the end of a run with threads. Each function here does nothing: its contract is the law.

ghost use Rattle.qp_port_law.specs.QuietLaws.{HandsAddUp, HistoriesAreSeen, QueuesAreEmpty, QuietRunsRest};

/// A word has no more operations than the greatest number that the lanes' own records have of it.
pub fn histories_are_seen()
    ensures { HistoriesAreSeen }
{}

/// A queue that was last seen empty, by a lane that has seen as much of it as each other, is empty over the whole
/// history.
pub fn queues_are_empty()
    ensures { QueuesAreEmpty }
{}

/// What the lanes have in their hands adds up.
pub fn hands_add_up()
    ensures { HandsAddUp }
{}

/// Where such a lane last saw every queue empty, and all hands have deferred entries alone, nothing is left undone.
pub fn quiet_runs_rest()
    ensures { QuietRunsRest }
{}
