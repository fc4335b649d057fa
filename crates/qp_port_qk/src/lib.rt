//! Workers of a run under `qk`: lane 0 has the kernel and all objects, each other lane a source.
#![tactic(auto)]

mod crossing;
mod job;
pub mod laws;
mod making;
pub mod rest_laws;
mod rests;
mod run;
mod starting;
mod worker;

pub use crossing::jobs_cross_threads;
pub use job::QkJob;
pub use run::{QkRun, run_lanes_of_qk};
pub use worker::QkWorker;
