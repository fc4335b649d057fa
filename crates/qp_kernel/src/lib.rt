//! The kernel of one thread: what it keeps, the world that it looks at, and the laws of its lane.
#![tactic(auto)]

mod alone;
mod crossing;
mod kernel;
pub mod laws;
mod meeting;
mod world;

pub use alone::Alone;
pub use crossing::lanes_alone_cross_threads;
pub use kernel::Kernel;
pub use world::{Irq, World};
