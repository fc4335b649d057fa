//! The words of a world of one thread.
#![tactic(auto)]

// Pools and their blocks.
mod block;
mod pool;

// The other kinds.
mod queue;
mod signal;
mod timer;

pub use block::BlockWord;
pub use pool::PoolWord;
pub use queue::QueueWord;
pub use signal::SignalWord;
pub use timer::TimerWord;
