//! A settle: the queues are looked at.

ghost use Rattle.std.specs.Prelude.{◌≡◌};
ghost use Rattle.qp_calls_stimulus.specs.Settling.{SettlesTo};

use qp_calls::{Counts, Ops, RoomFault};
use qp_model::{Rec, System};

/// What a settle saw.
#[derive(Drop)]
pub enum Sight {
    /// Each queue was empty.
    Empty,
    /// The queue of this object was looked at last, and had an entry.
    Entry { object: u8, now: Counts },
}

/// Settles: looks at the queues of the objects in turn, up to the first with an entry.
pub fn settle<O: Ops>(ops: &mut O, sys: &System) -> Result<Sight, RoomFault>
    requires of { (O.lane ops.old).sys ≡ sys.now }
    requires none { (O.lane ops.old).by ≡ 0 }
    ensures { SettlesTo sys.now (O.lane ops.old) (O.lane ops.new) result }
{
    ops.room()?;
    ops.note(Rec::settle());
    for d in sys.objects.items.iter() {
        ops.room()?;
        let c = ops.seen(d.priority);
        if u64::from(c.m) < u64::from(c.f) + u64::from(c.l) {
            return Ok(Sight::Entry {
                object: d.priority,
                now: c,
            });
        }
    }
    Ok(Sight::Empty)
}
