//! Lane 0 as a kernel lane.

ghost use Rattle.std.specs.Prelude.{◌≡◌, ◌+◌, ◌==◌, ◌||◌, nat_le, length, if◌then◌else◌, count_by, IfOk};
ghost use Rattle.std.specs.List.{list_any};
ghost use Rattle.std.specs.Option.{option_map};
ghost use Rattle.qp_model.specs.Ends.{may_cut, is_assert};
ghost use Rattle.qp_model.specs.History.{lane_items, all_items};
ghost use Rattle.qp_model.specs.Home.{lane_at as lane_of};
ghost use Rattle.qp_model.specs.KernelLane.{lane_read, is_whole_reading, is_over as over};
ghost use Rattle.qp_model.specs.Kernels.{sim, qk, qv};
ghost use Rattle.qp_model.specs.Lawful.{is_settle, reading_holds, setting_of};
ghost use Rattle.qp_check_kernel.specs.LaneState.{as_place, as_reading, as_setting};

use crate::lane_state::{LaneReading, Rules, Upcoming};
use crate::stimulated::stimulated;
use qp_check_lanes::lane_parts::{asserts, lane_at, source_lanes, spills_cut};
use qp_check_lanes::record_tests;
use qp_model::ends::may_cut;
use qp_model::kernels::{QK, QV, SIM};
use qp_model::{Journal, Rec, System};
use std::alloc::{AllocError, Global};

/// How far lane 0 has been read after these records; `None` where one of them can't stand in its place.
fn read<'a>(
    alloc: Global,
    rules: &Rules<'a>,
    lane: &[Rec],
) -> Result<Option<LaneReading<'a>>, AllocError>
    ensures { IfOk result (λ r. option_map as_reading r ≡ lane_read (as_setting rules.now) (lane_items lane.now)) }
{
    let mut reading = LaneReading::of_none(alloc, rules.sys);
    for r in lane {
        if !reading.next(rules, r)? {
            return Ok(None);
        }
    }
    Ok(Some(reading))
}

/// Whether the `settle` records of the journal are at least one fewer than this.
fn settles_suffice(j: &Journal, idle: u64) -> bool
    ensures { result ≡ nat_le idle (count_by (λ i. is_settle i.body) (all_items j.now.lanes) + 1) }
{
    let mut wanted = idle.saturating_sub(1);
    for lane in &j.lanes.items {
        wanted = wanted.saturating_sub(settles_in(&lane.items) as u64);
    }
    wanted == 0
}

fn settles_in(lane: &[Rec]) -> usize
    ensures { result ≡ count_by (λ i. is_settle i.body) (lane_items lane.now) }
{
    lane.iter().filter(|r| record_tests::is_settle(r)).count()
}

/// Whether the lane ends as it may: in a run that stopped early all objects have started, unless an assertion ended it; else it is whole.
fn may_end(j: &Journal, lane: &[Rec], reading: &LaneReading) -> bool
    ensures { result ≡ (if may_cut j.now.end then ((length (as_reading reading.now).unstarted == 0) || list_any (λ i. is_assert i.body)
        (lane_items lane.now)) else is_whole_reading j.now.kernel (as_reading reading.now)) }
{
    if may_cut(j.end) {
        has_started(reading) || asserts(lane)
    } else {
        whole(j.kernel, reading)
    }
}

/// Whether all objects have started.
fn has_started(reading: &LaneReading) -> bool
    ensures { result ≡ (length (as_reading reading.now).unstarted == 0) }
{
    reading.unstarted.is_empty()
}

fn whole(kernel: u8, reading: &LaneReading) -> bool
    ensures { result ≡ is_whole_reading kernel (as_reading reading.now) }
{
    has_started(reading) && reading.running.is_empty() && is_over(kernel, reading.place)
}

fn is_over(kernel: u8, place: Upcoming) -> bool
    ensures { result ≡ over kernel (as_place place.entry) }
{
    match place {
        Upcoming::Over => true,
        Upcoming::Inside => kernel == QK,
        _ => false,
    }
}

fn has_kernel_lane(kernel: u8) -> bool
    ensures { result ≡ ((kernel == sim) || (kernel == qk) || (kernel == qv)) }
{
    kernel == SIM || kernel == QK || kernel == QV
}

impl<'a> Rules<'a> {
    /// The rules of a journal.
    #[tactic(auto, unfolding(qp_model::specs::Lawful::setting_of, qp_model::specs::Lawful::source_lanes))]
    pub fn of(alloc: Global, sys: &'a System, j: &Journal) -> Result<Self, AllocError>
        ensures { IfOk result (λ r. as_setting r ≡ setting_of sys.now j.now) }
    {
        Ok(Rules {
            sys,
            kernel: j.kernel,
            stimuli: stimulated(alloc, source_lanes(sys, j))?,
        })
    }
}

/// Whether lane 0 reads as a kernel lane, in which a `spill` stands only where it cuts.
pub fn is_kernel_lane(alloc: Global, sys: &System, j: &Journal) -> Result<bool, AllocError>
    ensures { IfOk result (λ b. b ≡ reading_holds j.now (lane_items (lane_of j.now 0))
        (count_by (λ i. is_settle i.body) (all_items j.now.lanes)) (lane_read (setting_of sys.now j.now) (lane_items (lane_of j.now 0)))) }
{
    let rules = Rules::of(alloc, sys, j)?;
    let lane = lane_at(j, 0);
    match read(alloc, &rules, lane)? {
        Some(reading) => Ok(
            has_kernel_lane(j.kernel)
                && settles_suffice(j, reading.idle)
                && spills_cut(j.end, lane)
                && may_end(j, lane, &reading),
        ),
        None => Ok(false),
    }
}
