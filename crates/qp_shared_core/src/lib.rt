//! Each step of a running lane is a step of the core.
#![tactic(auto)]

ghost use Rattle.qp_shared_core.specs.Laws.{StepsAreCore};

/// The law, for each kind of atomic step of a lane: it may be made in the core there, and comes to the same words and the same view.
pub fn steps_are_core()
    ensures { StepsAreCore }
{}
