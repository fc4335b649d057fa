//! Tests of the readers and writers of files: what a system, stimuli and a journal say that were read, and journals as text and frames,
//! there and back.
//!
//! They stand beside those crates, over their public calls, so that none of these is proved a second time for them. The faults of files are in
//! the tables of qp_verdicts.
#![tactic(auto)]

#[cfg(test)]
mod charts;
#[cfg(test)]
mod frames;
#[cfg(test)]
mod puts;
#[cfg(test)]
mod samples;
#[cfg(test)]
mod scans;
#[cfg(test)]
mod stimuli;
#[cfg(test)]
mod systems;
#[cfg(test)]
mod texts;
