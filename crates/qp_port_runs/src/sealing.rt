//! A run that was sealed.

ghost use Rattle.std.specs.Prelude.{◌≡◌, IfOk, map, false, true};
ghost use Rattle.std.specs.List.{AllByRecursion};
ghost use Rattle.qp_model.specs.Ends.{quiet};
ghost use Rattle.qp_port_lanes.specs.Answers.{IsFed};
ghost use Rattle.qp_port_phases.specs.Stopping.{AnyStopped};
ghost use Rattle.qp_port_law.specs.Sealed.{SealsLanes};
ghost use Rattle.qp_shared.specs.Ending.{AreAll};
ghost use Rattle.qp_shared.specs.Lane.{lane_view};
ghost use Rattle.qp_shared.specs.WasSealed.{WasSealedFor};

use qp_base::Memory;
use qp_kernel_end::Rest;
use qp_model::ends::QUIET;
use qp_shared::{Sealed, Shared, SharedLane};

/// What a run with threads leaves: its journal, sealed, and where its objects rest.
#[derive(Drop)]
pub struct Threaded {
    pub sealed: Sealed,
    /// An object whose step was under way is not among them, and none where a start broke off.
    pub rests: Vec<Rest>,
}

/// Seals the lanes of a run, which tells whether nothing was left to be done; where something was, a lane has stopped, and its record or
/// another's tells why, since none has handed in 7. So the end isn't quiet then.
pub fn seal(
    shared: &Shared<'_>,
    lanes: Vec<SharedLane<'_>>,
    rests: Vec<Rest>,
    done: bool,
    kernel: u8,
    budget: u32,
) -> Result<Threaded, Memory>
    requires all { AreAll shared.now (map lane_view lanes.items) }
    requires cause { done ≡ false → AnyStopped (map lane_view lanes.items) }
    requires fed { AllByRecursion IsFed (map lane_view lanes.items) }
    ensures seals { IfOk result (λ run. SealsLanes shared.now.sys.now kernel budget (map lane_view lanes.entry.items) run.sealed.journal) }
    ensures sealed { IfOk result (λ run. WasSealedFor shared.now.sys.now run.sealed.journal) }
    ensures quiet { IfOk result (λ run. run.sealed.journal.end ≡ quiet → done ≡ true) }
    ensures rests { IfOk result (λ run. run.rests.items ≡ rests.items) }
{
    let sealed = shared.finish(lanes, kernel, budget)?;
    if sealed.journal().end == QUIET && !done {
        unreachable!();
    }
    Ok(Threaded { sealed, rests })
}
