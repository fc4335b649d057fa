//! What a tree of states promises. Each function here does nothing: its contract is the promise.

ghost use Rattle.qp_chart.specs.TreeLaws.{PathsThatEndAreTrees, MainStateIsNearest, ExitsWalkOut};

/// Where each state's path reaches the top within as many places as there are states, no state is among its own
/// ancestors.
pub fn paths_that_end_are_trees()
    ensures { PathsThatEndAreTrees }
{}

/// The main state of two states, given by the four cases of their places in the tree, is the nearest one that their
/// paths share.
pub fn main_state_is_nearest()
    ensures { MainStateIsNearest }
{}

/// The exits of a transition are the states of the leaf's path, from the leaf outwards, up to the main state.
pub fn exits_walk_out()
    ensures { ExitsWalkOut }
{}
