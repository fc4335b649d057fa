//! Where a chart's states stand in their tree: the paths outwards, main states, and what a transition leaves and enters.
#![tactic(auto)]

mod places;

pub use places::{entered, exited, init_of, main_state, parent_of, path_of, rows_of, state_at};
