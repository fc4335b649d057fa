//! Laws of outcomes. Each function here does nothing: its contract is the law.

ghost use Rattle.qp_kernel_end.specs.Laws.{OutcomeIsTheEnd};

/// The outcome of a lawful journal is the end that it states.
pub fn the_outcome_is_the_end()
    ensures { OutcomeIsTheEnd }
{}
