//! One action of an agenda.

ghost use Rattle.std.specs.Prelude.{◌≡◌, IsTrue, IfOk, IfErr, [], ◌∷◌, false};
ghost use Rattle.std.specs.Int.{w64, cast_unsigned};
ghost use Rattle.qp_model.specs.Told.{plain};
ghost use Rattle.qp_model.specs.declared.bodies.Body.TheVariants.{Say};
ghost use Rattle.qp_calls.specs.LaneView.{Grows};
ghost use Rattle.qp_calls.specs.Groups.{Refused};
ghost use Rattle.qp_calls.specs.Deferring.{StandAll};
ghost use Rattle.qp_dispatch.specs.CallsDone.{StandsIn};
ghost use Rattle.qp_dispatch.specs.Lasts.{moment_of_work};
ghost use Rattle.qp_dispatch.specs.SoundFor.{MayAct};
ghost use Rattle.qp_dispatch.specs.Acting.{ActsTo, OkTakes, is_publication};

use crate::calling::call;
use crate::lasting::{Lasting, set};
use crate::values::surroundings;
use crate::work::Work;
use qp_base::Steps;
use qp_calls::{Did, Ops, RoomFault};
use qp_chart::{Plain, eval};
use qp_model::{Rec, System};
use std::sync::ledger::Ledger;

/// What became of an action.
#[derive(Drop)]
pub(crate) enum Acted {
    /// It was done.
    Done,
    /// It ended in this assertion.
    Asserted(u8),
    /// There was no room, or no memory, for its records.
    Cut(RoomFault),
}

/// What an answer makes of the object: `ok` takes a value.
fn settle(lasting: &mut Lasting, answer: Result<Did, RoomFault>) -> Acted
    ensures { OkTakes lasting.old lasting.new answer result }
{
    match answer {
        Ok(Did::Value(n)) => {
            lasting.ok = i64::from(n);
            Acted::Done
        }
        Ok(Did::Assert { code }) => Acted::Asserted(code),
        Err(fault) => Acted::Cut(fault),
    }
}

/// Adds a note with a value.
fn say<O: Ops>(ops: &mut O, me: u8, value: i64) -> Result<(), RoomFault>
    requires mine { (O.lane ops.old).by ≡ me }
    ensures ok { IfOk result (λ _. Grows (plain (Say (cast_unsigned w64 value)) ∷ []) (O.lane ops.old) (O.lane ops.new)) }
    ensures err { IfErr result (λ fault. Refused fault (O.lane ops.old) (O.lane ops.new)) }
{
    ops.room()?;
    ops.note(Rec::say(me, value));
    Ok(())
}

/// Does one action other than a publication.
pub(crate) fn act<O: Ops, L: Ledger>(
    ops: &mut O,
    sys: &System,
    me: u8,
    lasting: &mut Lasting,
    work: &Work,
    plain: &Plain,
    steps: &mut Steps<L>,
) -> Acted
    requires of { (O.lane ops.old).sys ≡ sys.now }
    requires mine { (O.lane ops.old).by ≡ me }
    requires serves { IsTrue ((O.lane ops.old).serves me) }
    requires may { MayAct sys.now me work.now.entry plain.now }
    requires single { is_publication plain.now ≡ false }
    requires stands { StandsIn work.now.entry (O.lane ops.old) }
    requires kept { StandAll lasting.old.list.entries.items (O.lane ops.old) }
    ensures { ActsTo me (moment_of_work work.now) plain.now lasting.old lasting.new (O.lane ops.old) (O.lane ops.new) result }
{
    match plain {
        Plain::Set { var, value } => {
            let x = eval(value, &surroundings(me, lasting, work));
            set(&mut lasting.vars, *var, x);
            Acted::Done
        }
        Plain::Say(value) => {
            let x = eval(value, &surroundings(me, lasting, work));
            match say(ops, me, x) {
                Ok(()) => Acted::Done,
                Err(fault) => Acted::Cut(fault),
            }
        }
        _ => {
            let answer = call(ops, sys, me, lasting, work, plain, steps);
            settle(lasting, answer)
        }
    }
}
