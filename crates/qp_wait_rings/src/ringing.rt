//! A lane whose posts ring.

ghost use Rattle.std.specs.Prelude.{◌≡◌, ◌<◌};
ghost use Rattle.qp_shared.specs.Lane.{lane_view};
ghost use Rattle.qp_wait_rings.specs.Rung.{HasRung, HasRung-prop};

use crate::cord::Cord;
use atomic_table::Seat;
use qp_shared::SharedLane;
use qp_wait_bells::{Tallies, Tally};

/// A lane with a seat on the count, and a cord for each object. What it added to the count are its claims (`opened`), and what it
/// took off again are those that were refused (`refused`). `found` is the
/// object whose queue its last look, or take, found empty; none where that found an entry, and behind a park.
#[derive(Drop)]
pub struct RingingLane<'a> {
    pub lane: SharedLane<'a>,
    pub count: &'a Tallies,
    pub seat: Seat<(), Tally>,
    pub cords: Vec<Cord>,
    pub opened: u64,
    pub refused: u64,
    pub(crate) found: Option<u8>,
    ghost own: { seat.table_id ≡ count.now.shared.table_id },
    ghost some: { 0 < count.now.shared.table_id.words },
    ghost added: { seat.me.0.added ≡ opened },
    ghost taken: { seat.me.0.taken ≡ refused },
    ghost rung: { HasRung opened refused cords.items (lane_view lane) } by { HasRung-prop opened refused cords.items (lane_view lane) },
}
