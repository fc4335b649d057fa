//! Seats on both tables, and what lanes that end together have made of the tables that they shared.
#![tactic(auto)]

pub mod laws;
pub mod side;
pub mod table;
