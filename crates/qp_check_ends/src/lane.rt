//! The lane of a source.

ghost use Rattle.std.specs.Prelude.{◌≡◌, IfOk, List};
ghost use Rattle.qp_model.specs.declared.journals.Journal.{Journal};
ghost use Rattle.qp_model.specs.Record.{Item};
ghost use Rattle.qp_model.specs.Knowing.{Facts};
ghost use Rattle.qp_model.specs.History.{lane_items};
ghost use Rattle.qp_model.specs.Sources.{IsSourceLane, source_records};
ghost use Rattle.qp_model.specs.Lawful.{SpillStands, facts_of};
ghost use Rattle.qp_check_calls.specs.Decides.{Decides};
ghost use Rattle.qp_check_ends.specs.AsSource.{some_may_end, may_spill};

use crate::records::are_of_none;
use crate::stops::{Stops, may_stop};
use crate::tries::tries_differ;
use qp_check_calls::Told;
use qp_check_lanes::lane_parts::{spills_cut, spills_in};
use qp_model::ends::may_cut;
use qp_model::{Rec, Stim, System};
use std::alloc::{AllocError, Global};

/// Whether one of these ends is allowed.
fn some_may_end(stops: Stops, end: u8, spills: bool) -> bool
    ensures { result ≡ some_may_end stops end spills }
{
    let is_cut = stops.before_stimulus
        || stops.after_try
        || stops.at_assert
        || (stops.in_stimulus && spills);
    stops.all_done || (may_cut(end) && is_cut)
}

/// Whether records that may end so may be followed by a `spill`, which cuts a stimulus or stands behind a whole one.
fn may_spill(stops: Stops, cuts: bool) -> bool
    ensures { result ≡ may_spill stops cuts }
{
    if cuts {
        stops.in_stimulus
    } else {
        stops.before_stimulus || stops.all_done
    }
}

/// Whether a lane is that of a source with these stimuli, in a run that ended so. `told` are its records without its `spill`.
pub fn is_source_lane(
    alloc: Global,
    sys: &System,
    kernel: u8,
    end: u8,
    stimuli: &[Stim],
    lane: &[Rec],
    told: &[Told],
) -> Result<bool, AllocError>
    ensures { IfOk result (λ is. (w : Facts) → w.sys ≡ sys.now → told.now ≡ source_records w (lane_items lane.now) → Decides is
        (IsSourceLane w kernel end stimuli.now (lane_items lane.now))) }
{
    if !are_of_none(lane) {
        return Ok(false);
    }
    if !spills_cut(end, lane) {
        return Ok(false);
    }
    if !tries_differ(alloc, lane)? {
        return Ok(false);
    }
    let stops = may_stop(alloc, sys, kernel, stimuli, told)?;
    Ok(some_may_end(stops, end, spills_in(lane)))
}

/// Whether the `spill` of a source stands within its stimulus, where it `cuts` one, or else behind a whole one.
pub fn spill_stands(
    alloc: Global,
    sys: &System,
    kernel: u8,
    cuts: bool,
    stimuli: &[Stim],
    told: &[Told],
) -> Result<bool, AllocError>
    ensures { IfOk result (λ stands. (j : Journal) (lane : List Item) → j.kernel ≡ kernel → told.now ≡ source_records (facts_of sys.now j)
        lane → Decides stands (SpillStands sys.now j cuts stimuli.now lane)) }
{
    Ok(may_spill(may_stop(alloc, sys, kernel, stimuli, told)?, cuts))
}
