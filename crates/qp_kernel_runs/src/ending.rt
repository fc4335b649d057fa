//! Worlds of `sim` ended.

ghost use Rattle.qp_kernel_runs.specs.SimEnded.{IsSimEnded};

use crate::world::SimWorld;
use qp_model::Lanes;

impl SimWorld<'_> {
    /// The lanes: lane 0, and then the sources. It takes no memory.
    pub fn finish(self) -> Lanes
        ensures { IsSimEnded self.entry result }
    {
        let SimWorld {
            plain,
            stim: _,
            begun: _,
            last: _,
            halted: _,
            done: _,
        } = self;
        plain.finish()
    }
}
