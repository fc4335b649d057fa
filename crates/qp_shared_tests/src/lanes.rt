//! Lanes of tables, made and sealed.

ghost use Rattle.std.specs.Prelude.{◌≡◌, [], ◌∷◌, IfSome};
ghost use Rattle.qp_shared.specs.Lane.{lane_view};
ghost use Rattle.qp_shared.specs.Starting.{AreFirst, IsRootOf, serves_all, serves_one};
ghost use Rattle.qp_shared_tests.specs.Lanes.{IsTableLane};

use qp_model::System;
use qp_shared::{Root, Sealed, Shared, SharedLane};
use std::alloc::Global;

/// The root becomes two lanes, of which the first serves all objects.
pub(crate) fn pair<'a>(
    shared: &'a Shared<'_>,
    root: Root,
) -> Option<(SharedLane<'a>, SharedLane<'a>)>
    requires { IsRootOf shared.now root }
    ensures { IfSome result (λ p. AreFirst shared.now 2 (serves_all shared.now.sys.now) (lane_view p.0 ∷ lane_view p.1 ∷ [])) }
{
    let Ok(mut lanes) = shared.lanes(root, 2) else {
        return None;
    };
    let Some(second) = lanes.pop() else {
        unreachable!()
    };
    let Some(first) = lanes.pop() else {
        unreachable!()
    };
    Some((first, second))
}

/// The three lanes of two objects under `port`, or those of one and a source.
pub(crate) fn triple<'a>(
    shared: &'a Shared<'_>,
    root: Root,
    sys: &System,
) -> Option<(SharedLane<'a>, SharedLane<'a>, SharedLane<'a>)>
    requires root { IsRootOf shared.now root }
    requires its { shared.now.sys.now ≡ sys.now }
    ensures { IfSome result (λ p. AreFirst shared.now 3 (serves_one shared.now.sys.now) (lane_view p.0 ∷ lane_view p.1 ∷ lane_view p.2 ∷ [])) }
{
    if sys.objects.items.len() > 2 {
        return None;
    }
    let Ok(mut lanes) = shared.port_lanes(root, 3) else {
        return None;
    };
    let Some(last) = lanes.pop() else {
        unreachable!()
    };
    let Some(second) = lanes.pop() else {
        unreachable!()
    };
    let Some(first) = lanes.pop() else {
        unreachable!()
    };
    Some((first, second, last))
}

/// Both lanes of a table end, in the order of their numbers.
pub(crate) fn seal_pair(
    alloc: Global,
    shared: &Shared<'_>,
    first: SharedLane<'_>,
    second: SharedLane<'_>,
    kernel: u8,
) -> Option<Sealed>
    requires first { IsTableLane shared.now 2 0 (lane_view first) }
    requires second { IsTableLane shared.now 2 1 (lane_view second) }
{
    let Ok(lanes) = Vec::from_array(alloc, [first, second]) else {
        return None;
    };
    shared.finish(lanes, kernel, 100_000).ok()
}

/// The three lanes of a table end, in another order than that of their numbers.
pub(crate) fn seal_triple(
    alloc: Global,
    shared: &Shared<'_>,
    first: SharedLane<'_>,
    second: SharedLane<'_>,
    last: SharedLane<'_>,
    kernel: u8,
) -> Option<Sealed>
    requires first { IsTableLane shared.now 3 0 (lane_view first) }
    requires second { IsTableLane shared.now 3 1 (lane_view second) }
    requires last { IsTableLane shared.now 3 2 (lane_view last) }
{
    let Ok(lanes) = Vec::from_array(alloc, [last, first, second]) else {
        return None;
    };
    shared.finish(lanes, kernel, 100_000).ok()
}
