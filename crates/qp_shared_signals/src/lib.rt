//! What a lane does on the side table: subscriptions, time events and the stop word.
#![tactic(auto)]

mod signals;
mod stopping;
mod timers;

pub use signals::{subscribe, subscribers, unsubscribe};
pub use stopping::{stop, stopped};
pub use timers::{arm, disarm, rearm, tick_one};
