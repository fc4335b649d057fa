//! A source passes its `settle`, where all queues are empty.

ghost use Rattle.std.specs.Prelude.{◌≡◌, ◌<◌, true};
ghost use Rattle.qp_model.specs.Sound.{IsSound};
ghost use Rattle.qp_port_lanes.specs.CursorAt.{IsCursorAt, at_settle_in};
ghost use Rattle.qp_port_lanes.specs.Passing.{Glimpses, Opens, CursorPasses, PassesUnset};
ghost use Rattle.qp_port_lanes.specs.SourceTurning.{IsSameSource};

use crate::cursor::Cursor;
use qp_calls::{Counts, Halted, Ops, halt};
use qp_calls_stimulus::{Sight, settle};
use qp_kernel_turns::{Halt, ready};
use qp_model::{Rec, System};
use qp_port_phases::Passed;

/// Looks at the queues of the objects in turn, and adds nothing: the first with an entry.
fn look<O: Ops>(ops: &mut O, sys: &System) -> Option<(u8, Counts)>
    requires { (O.lane ops.old).sys ≡ sys.now }
    ensures { Glimpses sys.now (O.lane ops.old) (O.lane ops.new) result }
{
    for d in sys.objects.items.iter() {
        let c = ops.counts(d.priority);
        if u64::from(c.m) < u64::from(c.f) + u64::from(c.l) {
            return Some((d.priority, c));
        }
    }
    None
}

/// Begins the `settle` that is next, unless one is under way.
fn open<O: Ops>(ops: &mut O, sys: &System, source: &mut Cursor<'_>)
    requires knows { IsCursorAt sys.now source.old (O.lane ops.old) }
    requires stands { at_settle_in source.old ≡ true }
    requires spare { 0 < (O.lane ops.old).spare }
    ensures { Opens sys.now source.old source.new (O.lane ops.old) (O.lane ops.new) }
{
    let _ = sys;
    if source.settling {
        return;
    }
    let place = source.begun + 1;
    ops.note(Rec::stim(place, 0));
    source.begun = place;
    source.settling = true;
}

/// Passes the `settle` at which the source stands, where each queue is empty, and shows so to the lane of the source too. The first
/// look adds nothing, and where it shows an entry nothing is added; so no two tries of a lane end alike.
pub fn pass_settle<O: Ops>(ops: &mut O, sys: &System, source: &mut Cursor<'_>) -> Passed
    requires sound { IsSound sys.now }
    requires knows { IsCursorAt sys.now source.old (O.lane ops.old) }
    requires stands { at_settle_in source.old ≡ true }
    ensures passes { CursorPasses sys.now source.old source.new (O.lane ops.old) (O.lane ops.new) result }
    ensures same { IsSameSource source.old source.new }
    ensures unset { PassesUnset (O.lane ops.old) result }
{
    if let Some((p, now)) = look(ops, sys) {
        return Passed::Found { p, now };
    }
    match ready(ops) {
        Ok(()) => {}
        Err(Halt::Stopped) => return Passed::Stopped,
        Err(Halt::Memory) => return Passed::Memory,
    }
    open(ops, sys, source);
    match settle(ops, sys) {
        Ok(Sight::Empty) => {
            source.settling = false;
            Passed::Yes
        }
        Ok(Sight::Entry { object, now }) => Passed::Found { p: object, now },
        Err(fault) => match halt(ops, fault) {
            Halted::Full => Passed::Stopped,
            Halted::Memory => Passed::Memory,
        },
    }
}
