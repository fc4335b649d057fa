//! What rings, and what is counted.

ghost use Rattle.std.specs.Prelude.{◌≡◌, ◌+◌, ◌<◌, true};
ghost use Rattle.qp_wait_bells.specs.Tallies.{with_added};
ghost use Rattle.qp_wait_rings.specs.Cords.{SettlesClaim, has_cord};

use crate::cord::Cord;
use crate::cords::ring;
use atomic_table::Seat;
use qp_calls::Claim;
use qp_wait_bells::{Tallies, Tally, add, take_one};

/// A claim is added to the count.
pub(crate) fn open_one(count: &Tallies, seat: &mut Seat<(), Tally>, opened: &mut u64)
    requires own { seat.old.table_id ≡ count.now.shared.table_id }
    requires some { 0 < count.now.shared.table_id.words }
    requires few { opened.old < 1000000 }
    ensures own { seat.new.table_id ≡ seat.old.table_id }
    ensures added { seat.new.me.0 ≡ with_added 1 seat.old.me.0 }
    ensures opened { opened.new ≡ opened.old + 1 }
{
    add(count, seat, 1);
    *opened += 1;
}

/// What was posted on the queue of object `a` rings there; a claim that was refused is taken off the count again.
pub(crate) fn settle(
    count: &Tallies,
    seat: &mut Seat<(), Tally>,
    cords: &mut [Cord],
    refused: &mut u64,
    a: u8,
    claim: &Claim,
)
    requires own { seat.old.table_id ≡ count.now.shared.table_id }
    requires some { 0 < count.now.shared.table_id.words }
    requires there { has_cord a cords.old ≡ true }
    requires few { refused.old < 1000000 }
    ensures own { seat.new.table_id ≡ seat.old.table_id }
    ensures settles { SettlesClaim a cords.old cords.new refused.old refused.new seat.old.me.0 seat.new.me.0 claim.now }
{
    match claim {
        Claim::Done => ring(cords, a),
        Claim::Short { .. } => {
            take_one(count, seat);
            *refused += 1;
        }
    }
}
