//! Tests of the tables that threads share: worked examples over lanes on one thread, each call of a lane, and posts and takes of lanes on
//! threads beside one another. Of the waiting port: single calls of its lanes, and a turn over an empty queue. Of the side table by itself: each
//! call of a seat, and the end of two seats. And rows of workers, and schedules of the core's steps.
//!
//! They stand beside the crates that they are of, over their public calls, so that none of those is proved a second time for them.
#![tactic(auto)]

#[cfg(test)]
mod calls;
#[cfg(test)]
mod events;
#[cfg(test)]
mod judged;
#[cfg(test)]
mod kernel;
#[cfg(test)]
mod lamps;
#[cfg(test)]
mod lanes;
#[cfg(test)]
mod objects;
#[cfg(test)]
mod players;
#[cfg(test)]
mod posts;
#[cfg(test)]
mod rings;
#[cfg(test)]
mod rows;
#[cfg(test)]
mod schedules;
#[cfg(test)]
mod seats;
#[cfg(test)]
mod shown;
#[cfg(test)]
mod sides;
#[cfg(test)]
mod stops;
#[cfg(test)]
mod systems;
#[cfg(test)]
mod turns;
#[cfg(test)]
mod workers;
