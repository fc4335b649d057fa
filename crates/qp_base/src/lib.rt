//! What every crate of the framework shares: events, the counter of steps, and the edges of the program, which are files, streams and the gate.
#![tactic(auto)]

mod course;
mod dir_shelf;
mod event;
mod faults;
mod gates;
mod gathered;
mod mem_shelf;
mod mem_sink;
mod shelves;
mod sinks;
mod std_sink;
mod steps;
mod tells;

pub use course::Course;
pub use dir_shelf::DirShelf;
pub use event::Ev;
pub use faults::Memory;
pub use gates::{Gate, NoGate};
pub use gathered::{Beginning, Gathered};
pub use mem_shelf::MemShelf;
pub use mem_sink::MemSink;
pub use shelves::{FILE_LIMIT, Shelf, ShelfFault};
pub use sinks::{Sink, SinkFault};
pub use std_sink::StdSink;
pub use steps::Steps;
pub use tells::Tells;
