//! Laws of runs with threads that have ended. Each function here does nothing: its contract is the law.

ghost use Rattle.qp_port_law.specs.SealedLaws.{HomesThatStartFirst, PortRestsAreTold, QkRestsAreTold, SealedPortRunsAreLawful, SealedQkLanesAreLawful, ZeroThatStartsFirst};

/// Lanes that were sealed, one for each object and each source, left a lawful journal of `port`.
pub fn sealed_port_runs_are_lawful()
    ensures { SealedPortRunsAreLawful }
{}

/// Lanes that were sealed, lane 0 for all objects and one for each source, left a lawful journal of `qk`.
pub fn sealed_qk_runs_are_lawful()
    ensures { SealedQkLanesAreLawful }
{}

/// Where each object starts in a lane of its own before any source acts, all starts come first.
pub fn homes_that_start_first()
    ensures { HomesThatStartFirst }
{}

/// Where all objects start in lane 0 before any source acts, all starts come first.
pub fn zero_that_starts_first()
    ensures { ZeroThatStartsFirst }
{}

/// Where objects rest by what their own lanes tell, they rest by the journal.
pub fn port_rests_are_told()
    ensures { PortRestsAreTold }
{}

/// Where they rest by what lane 0 tells, they rest by the journal.
pub fn qk_rests_are_told()
    ensures { QkRestsAreTold }
{}
