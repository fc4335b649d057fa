//! Worlds of `sim` begun.

ghost use Rattle.std.specs.Prelude.{◌≡◌, ◌+◌, IfOk, length};

use crate::happened::Happened;
use crate::world::SimWorld;
use qp_base::Memory;
use qp_model::Stimuli;
use qp_plain::PlainWorld;
use std::alloc::Global;

impl<'a> SimWorld<'a> {
    ghost use Rattle.qp_plain.specs.NewWorld.{lanes_in};
    ghost use Rattle.qp_kernel_runs.specs.NewSim.{IsNewSim, IsSim};

    /// The world with these stimuli. The plain world has one lane more than the stimuli have sources, and nothing has
    /// happened in it.
    pub fn new(
        alloc: Global,
        plain: PlainWorld<'a>,
        stim: &'a Stimuli,
    ) -> Result<SimWorld<'a>, Memory>
        requires lanes { lanes_in plain ≡ 1 + length stim.now }
        requires first { IsNewSim plain }
        ensures { IfOk result (λ w. IsSim plain.entry stim.now w) }
    {
        let Ok(begun) = vec![in alloc; 0u32; stim.sources.len()] else {
            return Err(Memory);
        };
        Ok(SimWorld {
            plain,
            stim,
            begun,
            last: 0,
            halted: false,
            done: Happened::new(),
        })
    }
}
