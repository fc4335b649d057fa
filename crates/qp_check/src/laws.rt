//! What the definitions of the judge mean. Each function here does nothing: its contract is the law.

ghost use Rattle.qp_check.specs.Law.{LawfulWhereNoneFails, VerdictsAreOne};

/// No definition fails at any site exactly where the journal is lawful.
pub fn lawful_where_none_fails()
    ensures { LawfulWhereNoneFails }
{}

/// A journal has one verdict.
pub fn verdicts_are_one()
    ensures { VerdictsAreOne }
{}
