//! The calls of a lane of shared tables on pools and blocks, and those that touch no word.
#![tactic(auto)]

mod events;
mod giving;
mod leaving;
mod noting;
mod references;
mod returning;
pub mod steps;

pub use events::{par, sig};
pub use giving::give;
pub use leaving::{leave, leave_fresh};
pub use noting::{by, note, room};
pub use references::{dec, first, inc};
pub use returning::back;
