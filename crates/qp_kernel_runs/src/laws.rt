//! Laws of runs on one thread. Each function here does nothing: its contract is the law.

ghost use Rattle.qp_kernel_runs.specs.Laws.{IdleRunsAreLawful, StoppedRunsAreLawful};

/// A run that stopped early leaves a lawful journal.
pub fn stopped_runs_are_lawful()
    ensures { StoppedRunsAreLawful }
{}

/// So does a run that comes to its end by itself.
pub fn idle_runs_are_lawful()
    ensures { IdleRunsAreLawful }
{}
