//! The top call of the program: its words, its files, the run and the output.
#![tactic(auto)]

mod top;

pub use qp_run_parts::{
    Objects, Place, Sealed, Status, SummaryFault, Threaded, Told, generate, kept_seal, kernel_turn,
    laws, rerun, run_port, run_qk, run_qv, run_sim, run_wait, write_summary,
};
pub use top::{Answered, answer, qp_main, report, tell};
