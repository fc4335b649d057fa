//! Tests of the top call that are too long for the tables of qp_verdicts, whose program two compilers build: journals of a million records;
//! of its output, line by line and in pieces, to sinks that fail; and of runs with threads: that two lanes run beside one another, what the
//! gate is told, what two threads that post to one another leave, and what settled posts and sums of many sources come to under each kernel.
//!
//! They stand beside qp_run and qp_process, over their public calls, so that neither is proved a second time for them.
#![tactic(auto)]

#[cfg(test)]
mod asked;
#[cfg(test)]
mod beside;
#[cfg(test)]
mod crossed;
#[cfg(test)]
mod faults;
#[cfg(test)]
mod pieces;
#[cfg(test)]
mod samples;
#[cfg(test)]
mod settled;
#[cfg(test)]
mod spills;
#[cfg(test)]
mod sums;
#[cfg(test)]
mod told;
#[cfg(test)]
mod watch;
