//! Tests of the judge and its parts, and of the orders of journals: records, the records of calls, shapes and courses of lists, sources,
//! lanes and ends, what a journal knows beside its records, verdicts, and orders.
//!
//! They stand beside those crates, over their public calls, so that none of these is proved a second time for them.
#![tactic(auto)]

// What the tests have in common.
#[cfg(test)]
mod lines;
#[cfg(test)]
mod samples;

// Records, and the lists of one object.
#[cfg(test)]
mod calls;
#[cfg(test)]
mod courses;
#[cfg(test)]
mod lists;
#[cfg(test)]
mod records;

// Lanes and whole journals.
#[cfg(test)]
mod orders;
#[cfg(test)]
mod runs;
#[cfg(test)]
mod sources;
#[cfg(test)]
mod told;
#[cfg(test)]
mod verdicts;
