//! Runs on one thread, under `sim` and `qv`.
#![tactic(auto)]

mod acting;
mod calls;
mod choosing;
mod ending;
mod happened;
mod interrupting;
pub mod laws;
mod making;
mod rests;
mod run;
mod visiting;
mod world;

pub use run::{Simulated, qv_with_rests, run_qv, run_sim, sim_with_rests};
pub use world::SimWorld;
