//! Journals as frames, both ways.
#![tactic(auto)]

mod bytes;
pub mod code;
mod decoder;
mod faults;
mod frames;
pub mod laws;
mod numbers;
mod stream;
mod writer;

pub use decoder::Decoder;
pub use faults::FrameFault;
pub use writer::write_frames;
