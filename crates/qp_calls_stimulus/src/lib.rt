//! One stimulus as calls of the lane of its source.
#![tactic(auto)]

mod calling;
mod doing;
mod settling;

pub use doing::{Stimulated, stimulus};
pub use settling::{Sight, settle};
