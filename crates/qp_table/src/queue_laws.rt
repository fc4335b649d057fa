//! One law for each kind of step. Each function here does nothing: its contract is the law.

ghost use Rattle.qp_table.specs.QueueLaws.{ClaimsKeepTheRule, LaysKeepTheRule, EmptiesKeepTheRule, FreesKeepTheRule, LastInClaimsKeepTheRule};

/// A first-in place is drawn.
pub fn claims_keep_the_rule()
    ensures { ClaimsKeepTheRule }
{}

/// The cell of a claim is written.
pub fn lays_keep_the_rule()
    ensures { LaysKeepTheRule }
{}

/// The home lane empties the front cell.
pub fn empties_keep_the_rule()
    ensures { EmptiesKeepTheRule }
{}

/// The home lane frees the entry under way.
pub fn frees_keep_the_rule()
    ensures { FreesKeepTheRule }
{}

/// The home lane draws a last-in place.
pub fn last_in_claims_keep_the_rule()
    ensures { LastInClaimsKeepTheRule }
{}
