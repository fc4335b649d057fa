//! Tests of groups of calls over the world of one thread: the records of each, from the rules of events and queues.
//!
//! They stand beside qp_calls and qp_plain, over their public calls, so that neither is proved a second time for them.
#![tactic(auto)]

#[cfg(test)]
mod acts;
#[cfg(test)]
mod bench;
#[cfg(test)]
mod deeds;
#[cfg(test)]
mod desk;
// Named by the definitions of specs/, which stand outside of tests too.
mod ends;
#[cfg(test)]
mod handlers;
#[cfg(test)]
mod lanes;
#[cfg(test)]
mod limits;
#[cfg(test)]
mod rows;
#[cfg(test)]
mod shown;
#[cfg(test)]
mod systems;

// Tests of objects in a lane of the world of one thread: the records of starts and steps, with their scheduling points.
//
// They stand beside qp_dispatch, over its public calls, so that it isn't proved a second time for them, and read their systems from
// texts.
mod actor;
#[cfg(test)]
mod answers;
#[cfg(test)]
mod guards;
#[cfg(test)]
mod levels;
#[cfg(test)]
mod locked;
#[cfg(test)]
mod publications;
#[cfg(test)]
mod refusals;
#[cfg(test)]
mod step_bench;
#[cfg(test)]
mod step_cases;
#[cfg(test)]
mod step_full;
#[cfg(test)]
mod step_systems;
#[cfg(test)]
mod step_trial;
#[cfg(test)]
mod steps_shown;

// Tests of the kernel's turn: what its gate is told, and a lane that it fills; and of stimuli in a lane of the world of one thread: their
// records, full lanes, and what the gate is told.
//
// They stand beside qp_kernel_turns and qp_calls_stimulus, over their public calls, so that neither is proved a second time for them, and
// read their systems and stimuli from texts.
#[cfg(test)]
mod filled;
#[cfg(test)]
mod gated;
#[cfg(test)]
mod gates;
#[cfg(test)]
mod playing;
#[cfg(test)]
mod reading;
#[cfg(test)]
mod stimuli_full;
#[cfg(test)]
mod stimuli_shown;
#[cfg(test)]
mod stimulus_trial;
