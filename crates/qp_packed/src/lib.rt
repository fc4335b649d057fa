//! Records of a lane in words of 32 bits.
#![tactic(auto)]

mod cursor;
mod packed_lane;
mod pushing;
mod tails;

pub use cursor::Cursor;
pub use packed_lane::{MOST_WORDS, PackedLane};
