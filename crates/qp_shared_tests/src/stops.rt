//! Two seats of one table hand in codes, find the one that stands, and end.

ghost use Rattle.std.specs.Prelude.{◌≡◌, ◌+◌, ◌<◌, ◌≤◌};
ghost use Rattle.qp_model.specs.Sound.{IsSound};
ghost use Rattle.qp_side.specs.Seat.{rights};

use crate::seats::first_seat;
use qp_model::System;
use qp_side::{Side, SideRoot, SideSeat};
use std::alloc::Global;

/// A seat hands in a code.
fn stop(seat: &mut SideSeat<'_>, code: u8)
    requires some { 0 < code }
    requires most { code ≤ 7 }
    ensures same { seat.new.seat.table_id ≡ seat.old.seat.table_id }
    ensures rights { rights seat.new.seat.me.0 ≡ rights seat.old.seat.me.0 }
{
    seat.stop(code);
}

/// The code that a seat finds.
fn stopped(seat: &mut SideSeat<'_>) -> Option<u8>
    ensures same { seat.new.seat.table_id ≡ seat.old.seat.table_id }
    ensures rights { rights seat.new.seat.me.0 ≡ rights seat.old.seat.me.0 }
{
    seat.stopped()
}

/// The root and its two seats end, the later one first. None where memory is refused.
fn end(
    alloc: Global,
    side: &Side,
    root: SideRoot,
    first: SideSeat<'_>,
    second: SideSeat<'_>,
) -> Option<()>
    requires root { root.seat.table_id ≡ side.now.words.shared.table_id }
    requires first { first.seat.table_id ≡ side.now.words.shared.table_id }
    requires second { second.seat.table_id ≡ side.now.words.shared.table_id }
    requires all { rights root.seat.me.0 + rights first.seat.me.0 + rights second.seat.me.0 ≡ 49 }
{
    let Ok(seats) = Vec::from_array(alloc, [second, first]) else {
        return None;
    };
    side.finish(root, seats);
    Some(())
}

/// What the first seat finds before any code was handed in, and what both find once the second handed in 6 and then the first 1.
pub(crate) fn stop_and_end(
    alloc: Global,
    sys: &System,
) -> Option<(Option<u8>, Option<u8>, Option<u8>)>
    requires sound { IsSound sys.now }
{
    let Ok((side, root)) = Side::new(alloc, sys) else {
        return None;
    };
    let mut root = root;
    let mut first = first_seat(&side, &mut root, sys)?;
    let mut second = side.seat(&mut root, 0);
    let before = stopped(&mut first);
    stop(&mut second, 6);
    stop(&mut first, 1);
    let (its, others) = (stopped(&mut first), stopped(&mut second));
    end(alloc, &side, root, first, second)?;
    Some((before, its, others))
}
