//! Lanes of a journal, by what they are for.

ghost use Rattle.std.specs.Prelude.{◌≡◌, ◌+◌, ◌==◌, ◌<◌, ◌≤◌, ◌^◌, ◌||◌, not, drop, length, IfSome};
ghost use Rattle.std.specs.List.{list_any, position};
ghost use Rattle.qp_model.specs.Ends.{is_assert, spills_cut, spills_in};
ghost use Rattle.qp_model.specs.History.{lane_items};
ghost use Rattle.qp_model.specs.Home.{lane_at as lane_of, home_of};
ghost use Rattle.qp_model.specs.Kernels.{port};
ghost use Rattle.qp_model.specs.Lawful.{lanes_before as before};

use crate::record_tests::{is_assert, is_spill};
use qp_model::ends::may_cut;
use qp_model::kernels::PORT;
use qp_model::{Journal, Lane, ObjectDef, Rec, Stimuli, System};

/// The records of a lane; one that isn't there is empty.
pub fn lane_at(j: &Journal, n: usize) -> &[Rec]
    ensures { result.now ≡ lane_of j.now n }
{
    match j.lanes.items.get(n) {
        Some(lane) => &lane.items,
        None => &[],
    }
}

/// How many lanes stand before those of the sources.
pub fn lanes_before(sys: &System, j: &Journal) -> usize
    ensures value { result ≡ before sys.now j.now }
    ensures small { result ≤ 2 ^ 63 }
{
    if j.kernel == PORT {
        sys.objects.items.len() + 1
    } else {
        1
    }
}

/// The lanes of the sources.
pub fn source_lanes<'a>(sys: &System, j: &'a Journal) -> &'a [Lane]
    ensures { result.now ≡ drop (before sys.now j.now) j.now.lanes }
{
    let lanes = &j.lanes.items;
    let before = lanes_before(sys, j).min(lanes.len());
    &lanes[before..]
}

/// The lane in which an object works.
#[tactic(auto, unfolding(qp_model::specs::Home::home_of))]
pub fn home_lane(sys: &System, j: &Journal, o: u8) -> usize
    ensures { result ≡ home_of sys.now j.now o }
{
    if j.kernel != PORT {
        return 0;
    }
    match place_of(&sys.objects.items, o) {
        Some(i) => i + 1,
        None => 0,
    }
}

fn place_of(objects: &[ObjectDef], o: u8) -> Option<usize>
    ensures place { result ≡ position (λ d. d.priority == o) objects.now }
    ensures inside { IfSome result (λ i. i < length objects.now) }
{
    objects.iter().position(|d| d.priority == o)
}

/// Whether there are as many lanes as the kernel, the objects and the sources have.
pub fn count_stands(sys: &System, stim: &Stimuli, j: &Journal) -> bool
    ensures { result ≡ (length j.now.lanes == before sys.now j.now + length stim.now) }
{
    j.lanes.items.len() == lanes_before(sys, j) + stim.sources.len()
}

/// Whether lane 0 is empty where no kernel has it.
pub fn lane_zero_stands(j: &Journal) -> bool
    ensures { result ≡ (not (j.now.kernel == port) || (length (lane_of j.now 0) == 0)) }
{
    j.kernel != PORT || lane_at(j, 0).is_empty()
}

/// Whether an assertion stands in the lane.
pub fn asserts(lane: &[Rec]) -> bool
    ensures { result ≡ list_any (λ i. is_assert i.body) (lane_items lane.now) }
{
    lane.iter().any(|r| is_assert(r))
}

/// Whether a `spill` stands in the lane.
pub fn spills_in(lane: &[Rec]) -> bool
    ensures { result ≡ spills_in (lane_items lane.now) }
{
    lane.iter().any(|r| is_spill(r))
}

/// Whether a `spill` stands in the lane only as its last record, and only where the run ended so that lists may be cut.
pub fn spills_cut(end: u8, lane: &[Rec]) -> bool
    ensures { result ≡ spills_cut end (lane_items lane.now) }
{
    match lane.split_last() {
        Some((last, before)) => !spills_in(before) && (!is_spill(last) || may_cut(end)),
        None => true,
    }
}
