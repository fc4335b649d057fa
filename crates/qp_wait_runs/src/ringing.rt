//! Lanes whose posts ring, and back.

ghost use Rattle.std.specs.Prelude.{◌≡◌, ◌++◌, ◌∷◌, [], IfOk, OnOk, map};
ghost use Rattle.std.specs.List.{AllByRecursion};
ghost use Rattle.qp_port_runs.specs.Handed.{lane_view};
ghost use Rattle.qp_wait.specs.Handed.{bell_view};
ghost use Rattle.qp_wait.specs.Handed.{AreBellsOf, IsBellRootOf};
ghost use Rattle.qp_wait_runs.specs.Places.{AddsFor, ParkInPlaces, object_in_place};

use qp_base::Memory;
use qp_model::{ObjectDef, System};
use qp_port_runs::SharedLane;
use qp_wait::{BellLane, BellRoot, Bells};
use std::alloc::Global;

/// The object whose lane stands at this place; 0 for the first lane, and for those of sources.
fn object_at(objects: &[ObjectDef], place: usize) -> u8
    ensures { result ≡ object_in_place objects.now place }
{
    if place == 0 {
        return 0;
    }
    match objects.get(place - 1) {
        Some(d) => d.priority,
        None => 0,
    }
}

/// Adds a lane that parks for this object, 0 for none.
fn add<'a>(
    alloc: Global,
    bells: &'a Bells,
    root: &mut BellRoot,
    lane: SharedLane<'a>,
    me: u8,
    ringing: &mut Vec<BellLane<'a>>,
) -> Result<(), Memory>
    requires root { IsBellRootOf bells.now root.old }
    requires fresh { (lane_view lane).told ≡ [] }
    requires system { AreBellsOf (lane_view lane).sys bells.now }
    ensures root { IsBellRootOf bells.now root.new }
    ensures lane { OnOk result (map bell_view ringing.new.items ≡ map bell_view ringing.old.items ++ lane_view lane.entry ∷ []) }
    ensures parks { OnOk result (AddsFor me ringing.old.items ringing.new.items) }
{
    let Ok(one) = bells.bell(alloc, root, lane, me) else {
        return Err(Memory);
    };
    let Ok(()) = ringing.push(one) else {
        return Err(Memory);
    };
    Ok(())
}

/// Each of these lanes, whose posts ring: the first, then those of the objects, by ascending priority, which get the parkers, and
/// those of the sources.
pub(crate) fn all_ringing<'a>(
    alloc: Global,
    bells: &'a Bells,
    root: &mut BellRoot,
    sys: &System,
    lanes: Vec<SharedLane<'a>>,
) -> Result<Vec<BellLane<'a>>, Memory>
    requires root { IsBellRootOf bells.now root.old }
    requires bells { AreBellsOf sys.now bells.now }
    requires systems { AllByRecursion (λ l. (lane_view l).sys ≡ sys.now) lanes.items }
    requires fresh { AllByRecursion (λ l. (lane_view l).told ≡ []) lanes.items }
    ensures root { IsBellRootOf bells.now root.new }
    ensures lanes { IfOk result (λ ringing. map bell_view ringing.items ≡ map lane_view lanes.entry.items) }
    ensures parks { IfOk result (λ ringing. ParkInPlaces sys.now.objects 0 ringing.items) }
{
    let mut ringing = Vec::new(alloc);
    for lane in lanes {
        let me = object_at(&sys.objects.items, ringing.len());
        add(alloc, bells, root, lane, me, &mut ringing)?;
    }
    Ok(ringing)
}

/// The lanes of the running table again.
pub(crate) fn all_done<'a>(
    alloc: Global,
    ringing: Vec<BellLane<'a>>,
) -> Result<Vec<SharedLane<'a>>, Memory>
    ensures { IfOk result (λ lanes. map lane_view lanes.items ≡ map bell_view ringing.entry.items) }
{
    let mut lanes = Vec::new(alloc);
    for one in ringing {
        let Ok(()) = lanes.push(one.done()) else {
            return Err(Memory);
        };
    }
    Ok(lanes)
}
