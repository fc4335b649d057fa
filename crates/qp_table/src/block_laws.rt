//! One law for each kind of step. Each function here does nothing: its contract is the law.

ghost use Rattle.qp_table.specs.BlockLaws.{GivesKeepTheRule, FillsKeepTheRule, FirstReferencesKeepTheRule, ReferencesKeepTheRule, DropsKeepTheRule, BacksKeepTheRule, HoldersReadTheEvent};

/// The lowest free block is given out for an event.
pub fn gives_keep_the_rule()
    ensures { GivesKeepTheRule }
{}

/// An event word of a give under way is written.
pub fn fills_keep_the_rule()
    ensures { FillsKeepTheRule }
{}

/// A fresh block gets its first reference.
pub fn first_references_keep_the_rule()
    ensures { FirstReferencesKeepTheRule }
{}

/// Who holds a reference makes another.
pub fn references_keep_the_rule()
    ensures { ReferencesKeepTheRule }
{}

/// A reference is dropped.
pub fn drops_keep_the_rule()
    ensures { DropsKeepTheRule }
{}

/// A used block comes back to its pool.
pub fn backs_keep_the_rule()
    ensures { BacksKeepTheRule }
{}

/// Who holds a reference reads the event that the block was given out for.
pub fn holders_read_the_event()
    ensures { HoldersReadTheEvent }
{}
