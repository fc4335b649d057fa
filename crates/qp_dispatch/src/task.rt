//! One task of an agenda.

ghost use Rattle.std.specs.Prelude.{◌≡◌, ◌<◌, IsTrue, None, Some, [], ◌∷◌};
ghost use Rattle.qp_chart.specs.Task as task;
ghost use Rattle.qp_model.specs.declared.bodies.Body.{Body};
ghost use Rattle.qp_model.specs.Acts.{Moment};
ghost use Rattle.qp_model.specs.Record.{item_of};
ghost use Rattle.qp_model.specs.StepNotes.{note_of};
ghost use Rattle.qp_calls.specs.LaneView.{ceiling_in};
ghost use Rattle.qp_calls.specs.Deferring.{StandAll};
ghost use Rattle.qp_chart_compiled.specs.AsTask.{as_task};
ghost use Rattle.qp_dispatch.specs.CallsDone.{StandsIn};
ghost use Rattle.qp_dispatch.specs.Lasts.{moment_of_work};
ghost use Rattle.qp_dispatch.specs.Parts.{NotesTask, Parts};
ghost use Rattle.qp_dispatch.specs.SoundFor.{MayAct, MayTask};

use crate::act::{Acted, act};
use crate::lasting::Lasting;
use crate::marks::{note, raise, restore};
use crate::part::{Part, Under};
use crate::publication::publish;
use crate::work::Work;
use qp_base::Steps;
use qp_calls::Ops;
use qp_chart::Plain;
use qp_chart_compiled::Task;
use qp_model::{Rec, System};
use std::sync::ledger::Ledger;

/// Adds the note that a task is.
fn noted<O: Ops>(ops: &mut O, me: u8, r: Rec) -> Part
    requires mine { (O.lane ops.old).by ≡ me }
    requires note { (t : task.Task) × (b : Body) × (note_of t ≡ Some b) × (item_of r ≡ record { of = me; body = b }) }
    ensures { NotesTask me r (O.lane ops.old) (O.lane ops.new) result }
{
    match note(ops, r) {
        Ok(()) => Part::On,
        Err(fault) => Part::Cut(fault),
    }
}

/// Does an action.
fn action<O: Ops, L: Ledger>(
    ops: &mut O,
    sys: &System,
    me: u8,
    lasting: &mut Lasting,
    under: &mut Option<Under>,
    work: &Work,
    plain: &Plain,
    ceiling: &mut u8,
    steps: &mut Steps<L>,
) -> Part
    requires of { (O.lane ops.old).sys ≡ sys.now }
    requires mine { (O.lane ops.old).by ≡ me }
    requires serves { IsTrue ((O.lane ops.old).serves me) }
    requires may { MayAct sys.now me work.now.entry plain.now }
    requires none { under.old ≡ None }
    requires stands { StandsIn work.now.entry (O.lane ops.old) }
    requires kept { StandAll lasting.old.list.entries.items (O.lane ops.old) }
    requires ceiling { ceiling.old ≡ ceiling_in 0 (O.lane ops.old).told }
    ensures { Parts me (moment_of_work work.now) (task.Do plain.now ∷ []) ceiling.old ceiling.new
        lasting.old None lasting.new under.new (O.lane ops.old) (O.lane ops.new) result }
{
    match plain {
        Plain::Publish { sig, pars, reserve } => publish(
            ops, sys, me, lasting, under, work, *sig, pars, *reserve, ceiling, steps,
        ),
        _ => match act(ops, sys, me, lasting, work, plain, steps) {
            Acted::Done => Part::Point,
            Acted::Asserted(code) => Part::Asserted(code),
            Acted::Cut(fault) => Part::Cut(fault),
        },
    }
}

/// Does a task.
pub(crate) fn perform<O: Ops, L: Ledger>(
    ops: &mut O,
    sys: &System,
    me: u8,
    lasting: &mut Lasting,
    under: &mut Option<Under>,
    work: &Work,
    task: Task<'_>,
    ceiling: &mut u8,
    steps: &mut Steps<L>,
) -> Part
    requires of { (O.lane ops.old).sys ≡ sys.now }
    requires mine { (O.lane ops.old).by ≡ me }
    requires serves { IsTrue ((O.lane ops.old).serves me) }
    requires may { MayTask sys.now me work.now.entry (as_task task) }
    requires none { under.old ≡ None }
    requires stands { StandsIn work.now.entry (O.lane ops.old) }
    requires kept { StandAll lasting.old.list.entries.items (O.lane ops.old) }
    requires ceiling { ceiling.old ≡ ceiling_in 0 (O.lane ops.old).told }
    ensures { Parts me (moment_of_work work.now) (as_task task.entry ∷ []) ceiling.old ceiling.new
        lasting.old None lasting.new under.new (O.lane ops.old) (O.lane ops.new) result }
{
    match task {
        Task::Do(plain) => action(ops, sys, me, lasting, under, work, plain, ceiling, steps),
        Task::Raise { ceiling: to } => raise(ops, me, lasting, to, ceiling),
        Task::Restore => restore(ops, me, lasting, ceiling),
        Task::Begin => noted(ops, me, Rec::begin(me)),
        Task::Run { state, place } => noted(ops, me, Rec::run(me, state, place)),
        Task::Unhandled => noted(ops, me, Rec::none(me)),
        Task::Exit { state } => noted(ops, me, Rec::exit(me, state)),
        Task::Enter { state } => noted(ops, me, Rec::enter(me, state)),
        Task::Init { state } => noted(ops, me, Rec::init(me, state)),
        Task::Done => noted(ops, me, Rec::done(me)),
    }
}
