//! The calls of one lane, and groups of calls.
#![tactic(auto)]

mod answers;
pub mod crossing;
mod deferral;
mod deferred;
mod did;
mod entries;
mod halting;
mod members;
mod ops;
mod pools;
mod posts;
mod publication;
mod publishing;
mod ticks;
mod tokens;

pub use answers::{Arm, Claim, Counts, Dec, Give, RoomFault, Take, Tick};
pub use deferral::{defer, flush, recall};
pub use deferred::Deferred;
pub use did::Did;
pub use halting::{Halted, halt};
pub use ops::Ops;
pub use posts::{end_step, forward, lifo_new, post, post_new, post_static};
pub use publication::{Begun, Publication};
pub use publishing::{publish, publish_begin, publish_end, publish_post};
pub use ticks::tick_rate;
pub use tokens::{Fresh, HeldEntry, Hold};
