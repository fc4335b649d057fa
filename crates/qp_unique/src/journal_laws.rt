//! What there is only one of.

ghost use Rattle.qp_unique.specs.JournalLaws.{OneThreadJournalsAreTidy, OneThreadJournalsAreOne, UnspiltJournalsAreOne, ShortJournalsAreUnspilt, SummariesAreOne, OrdersAreOne};

/// A lawful journal of a run with one thread is tidy, where the stimuli fit the sound system.
pub fn one_thread_journals_are_tidy()
    ensures { OneThreadJournalsAreTidy }
{}

/// So one whose lanes are short is the only one of its kernel for the system, its stimuli and a budget, but for one whose lane 0 ended
/// with a `spill` behind a last look that lacks its stimulus.
pub fn one_thread_journals_are_one()
    ensures { OneThreadJournalsAreOne }
{}

/// Of those in which no lane ended with a `spill` there is one.
pub fn unspilt_journals_are_one()
    ensures { UnspiltJournalsAreOne }
{}

/// A short one is among them.
pub fn short_journals_are_unspilt()
    ensures { ShortJournalsAreUnspilt }
{}

/// A journal of a sound system has one summary.
pub fn summaries_are_one()
    ensures { SummariesAreOne }
{}

/// The order in which each next record is from the lowest lane that may go on is one.
pub fn orders_are_one()
    ensures { OrdersAreOne }
{}
