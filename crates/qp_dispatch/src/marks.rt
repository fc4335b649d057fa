//! The marks of `locked`, and notes.

ghost use Rattle.std.specs.Prelude.{◌≡◌, IsTrue, IfOk, IfErr, None, [], ◌∷◌};
ghost use Rattle.qp_chart.specs.Task as task;
ghost use Rattle.qp_model.specs.Record.{body_of};
ghost use Rattle.qp_model.specs.Acts.{Moment};
ghost use Rattle.qp_calls.specs.LaneView.{Grows, ceiling_in};
ghost use Rattle.qp_calls.specs.Notes.{needs_spare_alone, told_note};
ghost use Rattle.qp_calls.specs.Groups.{Refused};
ghost use Rattle.qp_dispatch.specs.Parts.{Parts};

use crate::lasting::Lasting;
use crate::part::Part;
use qp_calls::{Ops, RoomFault};
use qp_model::Rec;

/// Adds a note of the object set by `by`.
pub(crate) fn note<O: Ops>(ops: &mut O, r: Rec) -> Result<(), RoomFault>
    requires mine { (O.lane ops.old).by ≡ r.of }
    requires note { IsTrue (needs_spare_alone (body_of r)) }
    ensures ok { IfOk result (λ _. Grows (told_note r (O.lane ops.old)) (O.lane ops.old) (O.lane ops.new)) }
    ensures err { IfErr result (λ fault. Refused fault (O.lane ops.old) (O.lane ops.new)) }
{
    ops.room()?;
    ops.note(r);
    Ok(())
}

/// Begins `locked`: the ceiling is raised.
pub(crate) fn raise<O: Ops>(
    ops: &mut O,
    me: u8,
    lasting: &mut Lasting,
    to: u8,
    ceiling: &mut u8,
) -> Part
    requires mine { (O.lane ops.old).by ≡ me }
    requires ceiling { ceiling.old ≡ ceiling_in 0 (O.lane ops.old).told }
    ensures { (at : Moment) → Parts me at (task.Raise to ∷ []) ceiling.old ceiling.new
        lasting.old None lasting.new None (O.lane ops.old) (O.lane ops.new) result }
{
    let former = *ceiling;
    let raised = former.max(to);
    match note(ops, Rec::lock(me, raised)) {
        Err(fault) => Part::Cut(fault),
        Ok(()) => {
            lasting.former = former;
            *ceiling = raised;
            Part::On
        }
    }
}

/// Ends `locked`: the former ceiling is restored.
pub(crate) fn restore<O: Ops>(ops: &mut O, me: u8, lasting: &Lasting, ceiling: &mut u8) -> Part
    requires mine { (O.lane ops.old).by ≡ me }
    ensures { (at : Moment) → Parts me at (task.Restore ∷ []) ceiling.old ceiling.new
        lasting.now None lasting.now None (O.lane ops.old) (O.lane ops.new) result }
{
    match note(ops, Rec::unlock(me, lasting.former)) {
        Err(fault) => Part::Cut(fault),
        Ok(()) => {
            *ceiling = lasting.former;
            Part::Point
        }
    }
}
