//! Laws of runs with threads. Each function here does nothing: its contract is the law.

ghost use Rattle.qp_port_law.specs.Laws.{HomesKeepDeferred, PortRunsAreLawful, QkRunsAreLawful};

/// A run in which each object has a lane of its own leaves a lawful journal.
pub fn port_runs_are_lawful()
    ensures { PortRunsAreLawful }
{}

/// So does a run in which lane 0 has all objects, and each source a lane of its own.
pub fn qk_runs_are_lawful()
    ensures { QkRunsAreLawful }
{}

/// The deferred entries of a journal in which each object rests in its own lane are those that the objects keep.
pub fn homes_keep_deferred()
    ensures { HomesKeepDeferred }
{}
