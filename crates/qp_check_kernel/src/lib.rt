//! Lane 0 under a kernel, record by record, and the one order of all records in a run with one thread.
#![tactic(auto)]

// Lane 0 under a kernel, record by record.
pub mod kernel_lane;
mod lane_roles;
mod lane_stack;
pub mod lane_state;
mod stimulated;

// The order of a run with one thread.
pub mod one_order;
mod order_looks;
mod order_tests;
mod order_turns;
mod source_turn;
mod stimulus_index;
