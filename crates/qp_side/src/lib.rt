//! The side table of signals, time events and the stop word: its rule, the steps on its words, its root, and the calls of the seats that the root gives.
#![tactic(auto)]

pub mod clock_steps;
mod crossing;
pub mod laws;
mod records;
mod seat;
mod side;
pub mod signal_steps;
mod signals;
pub mod steps;
pub mod stop_steps;
mod stopping;
mod timers;
mod tries;
mod view;
pub mod words;

pub use crossing::{seats_cross_threads, side_crosses_threads};
pub use seat::SideSeat;
pub use side::{Side, SideRoot};
pub use steps::{SideLaw, Words};
pub use view::SideView;
