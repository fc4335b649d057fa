//! Laws of runs that have ended. Each function here does nothing: its contract is the law.

ghost use Rattle.qp_port.specs.Laws.{SealedRunsAreLawful};

/// The lanes of a run, sealed into a journal, leave a lawful one.
pub fn sealed_runs_are_lawful()
    ensures { SealedRunsAreLawful }
{}
