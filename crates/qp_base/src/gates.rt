//! The gate, by which a test holds a lane.

/// A lane calls its gate at each step, so a test can hold one lane until another has come as far.
pub trait Gate: Sync {
    /// Called right after the lane has recorded that an object took an entry, or that a source began a stimulus.
    /// `step` counts those records of the lane.
    fn at(&self, lane: u32, step: u64);
}

/// The gate of a run that nobody holds.
#[derive(Clone, Copy)]
pub struct NoGate;

impl Gate for NoGate {
    fn at(&self, _lane: u32, _step: u64) {}
}
