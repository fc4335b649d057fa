//! The world of `sim`.

ghost use Rattle.qp_plain.specs.WorldView.{world_view};
ghost use Rattle.qp_kernel_runs.specs.SimHolds.{SimHolds};

use crate::happened::Happened;
use qp_model::Stimuli;
use qp_plain::PlainWorld;

/// A world of one thread whose sources act in the looks of lane 0, which is chosen between the calls. Lane `i` is
/// source `i`. It keeps how many stimuli of each source have begun, the source that acted last, 0 for none, and
/// whether a stimulus has stopped the run.
#[derive(Drop)]
pub struct SimWorld<'a> {
    pub(crate) plain: PlainWorld<'a>,
    pub(crate) stim: &'a Stimuli,
    pub(crate) begun: Vec<u32>,
    pub(crate) last: u32,
    pub(crate) halted: bool,
    pub(crate) done: Happened,
    ghost holds: { SimHolds stim.now begun.items last halted done.list (world_view plain) },
}
