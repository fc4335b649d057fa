//! What is told of the steps of a lane.

use crate::gates::Gate;

/// What a lane tells of its steps. Each gate is one; but a lane asks no more of what it tells than this, and not that other
/// threads may reach it too.
pub trait Tells {
    /// Called right after the lane has recorded that an object took an entry, or that a source began a stimulus.
    /// `step` counts those records of the lane.
    fn tells(&self, lane: u32, step: u64);
}

impl<G: Gate> Tells for G {
    fn tells(&self, lane: u32, step: u64) {
        self.at(lane, step);
    }
}
