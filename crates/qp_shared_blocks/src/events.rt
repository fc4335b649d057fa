//! The event of a reference, read in place.

ghost use Rattle.std.specs.Prelude.{◌≡◌, ◌<◌, length, slice_get, Some};
ghost use Rattle.qp_model.specs.Record.{entry};
ghost use Rattle.qp_calls.specs.Clauses.{IsEvent, StandsHold};
ghost use Rattle.qp_shared_lane.specs.Lane.{state_view};

use qp_calls::Hold;
use qp_shared_lane::LaneState;
use qp_shared_words::blocks::read_event;

/// The signal of the event.
pub fn sig(lane: &mut LaneState<'_>, h: &Hold) -> u16
    requires stands { StandsHold h.now (state_view lane.old) }
    ensures value { result ≡ ((state_view lane.old).event (entry h.now.pool h.now.block h.now.name)).sig }
    ensures event { IsEvent (state_view lane.old).sys ((state_view lane.old).event (entry h.now.pool h.now.block h.now.name)) }
    ensures stays { state_view lane.new ≡ state_view lane.old }
{
    let (pool, block, name) = (h.pool(), h.block(), h.name());
    let found = read_event(lane.words, &mut lane.seat, pool, block, name, 0);
    (found % 65536) as u16
}

/// Parameter `j` of the event, from 0.
pub fn par(lane: &mut LaneState<'_>, h: &Hold, j: usize) -> u64
    requires stands { StandsHold h.now (state_view lane.old) }
    requires within { j < length ((state_view lane.old).event (entry h.now.pool h.now.block h.now.name)).pars }
    ensures value { slice_get ((state_view lane.old).event (entry h.now.pool h.now.block h.now.name)).pars j ≡ Some result }
    ensures stays { state_view lane.new ≡ state_view lane.old }
{
    let (pool, block, name) = (h.pool(), h.block(), h.name());
    // An event has at most eight parameters, behind its signal.
    let place = j.min(7) as u8 + 1;
    read_event(lane.words, &mut lane.seat, pool, block, name, place)
}
