//! The program `qp`.
#![tactic(auto)]

use qp_process::process;
use std::env;
use std::process::ExitCode;

fn main(rt: HostRuntime) -> ExitCode {
    process(&rt, &rt, env::args(&rt))
}
