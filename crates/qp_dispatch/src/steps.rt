//! Steps: from an entry that was taken to its release.

ghost use Rattle.std.specs.Prelude.{◌≡◌, Some, None, false};
ghost use Rattle.qp_model.specs.Step.{whole_step};
ghost use Rattle.qp_model.specs.Sound.{IsSound};
ghost use Rattle.qp_calls.specs.Notes.{spills_told};
ghost use Rattle.qp_calls.specs.Clauses.{IsFault, EntryStands, event_of};
ghost use Rattle.qp_model.specs.Parts.{params_of};
ghost use Rattle.qp_calls.specs.declared.tokens.HeldEntry.TheVariants as token;
ghost use Rattle.qp_chart_compiled.specs.Compiled.{IsCompiled};
ghost use Rattle.qp_dispatch.specs.Lasts.{actor_of, config_of};
ghost use Rattle.qp_dispatch.specs.Parts.{left_by};
ghost use Rattle.qp_dispatch.specs.Runs.{object_setting, tasks_in};
ghost use Rattle.qp_dispatch.specs.CallsDone.{StandsIn};
ghost use Rattle.qp_dispatch.specs.Resume.{StepHalts, IsGoing, IsLaneOf, CanTakeSteps, IsTaken, IsUnderWay, StepReleases, Resumes, event_in_hand};
ghost use Rattle.qp_dispatch.specs.declared.steps.Position.TheVariants as standing;

use crate::lasting::Lasting;
use crate::runs::{Home, Left, Ran, run};
use crate::values::surroundings;
use crate::work::Work;
use arrayvec::ArrayVec;
use qp_base::{Ev, Steps};
use qp_calls::{Halted, HeldEntry, Hold, Ops, RoomFault, end_step, halt};
use qp_model::System;
use std::sync::ledger::Ledger;

/// What became of a start, or of a step that went on.
#[derive(Drop)]
pub enum Step {
    /// It stands at a scheduling point.
    Point,
    /// It has run to completion.
    Done,
    /// An assertion ended it, or its lane is full. The lane has stopped.
    Stopped,
    /// Memory was refused. The lane has stopped.
    Memory,
}

/// A step under way: what it works on, what is left of it, and the leaf after it.
#[derive(Drop)]
pub(crate) struct Going {
    pub(crate) work: Work,
    pub(crate) left: Left,
    pub(crate) leaf: u8,
}

/// Where an object stands between its start and its end.
#[derive(Drop)]
pub(crate) enum Position {
    Between,
    /// An entry was taken up, and nothing done yet.
    Taken(HeldEntry),
    Within(Going),
}

/// How many parameters an event of the signal has.
fn params(sys: &System, sig: u16) -> usize
    ensures { result ≡ params_of sys.now sig }
{
    match sys.signals.items.get(usize::from(sig).saturating_sub(4)) {
        Some(signal) => usize::from(signal.params),
        None => 0,
    }
}

/// The event of a reference.
fn read_block<O: Ops>(ops: &mut O, sys: &System, h: &Hold) -> Ev
    requires of { (O.lane ops.old).sys ≡ sys.now }
    requires sound { IsSound sys.now }
    requires stands { EntryStands (token.Pool h.now) (O.lane ops.old) }
    ensures event { event_of result ≡ event_in_hand (token.Pool h.now) (O.lane ops.old) }
    ensures stays { O.lane ops.new ≡ O.lane ops.old }
{
    let sig = ops.sig(h);
    let count = params(sys, sig);
    let mut pars = ArrayVec::new();
    for j in 0..count {
        pars.push(ops.par(h, j));
    }
    Ev { sig, pars }
}

/// The event of an entry.
fn read<O: Ops>(ops: &mut O, sys: &System, e: &HeldEntry) -> Ev
    requires of { (O.lane ops.old).sys ≡ sys.now }
    requires sound { IsSound sys.now }
    requires stands { EntryStands e.now (O.lane ops.old) }
    ensures event { event_of result ≡ event_in_hand e.now (O.lane ops.old) }
    ensures stays { O.lane ops.new ≡ O.lane ops.old }
{
    match e {
        HeldEntry::Static(sig) => Ev {
            sig: *sig,
            pars: ArrayVec::new(),
        },
        HeldEntry::Pool(h) => read_block(ops, sys, h),
    }
}

/// Takes up a step: its event is read, and its agenda chosen.
fn take_up<O: Ops>(ops: &mut O, home: &Home<'_>, lasting: &Lasting, e: HeldEntry) -> Going
    requires of { (O.lane ops.old).sys ≡ home.now.sys.now }
    requires ready { CanTakeSteps home.now.sys.now home.now.me home.now.chart.now }
    requires compiled { IsCompiled home.now.chart.now home.now.compiled.now }
    requires taken { IsTaken lasting.now e (O.lane ops.old) }
    ensures going { IsGoing (object_setting home.now) lasting.now result (O.lane ops.old) }
    ensures left { left_by result.left.under (tasks_in (object_setting home.now) result.left) result.leaf
        ≡ whole_step (actor_of home.now.me home.now.chart.now lasting.now) (config_of lasting.now) (event_in_hand e (O.lane ops.old)) }
    ensures event { event_of result.work.ev ≡ event_in_hand e (O.lane ops.old) }
    ensures entry { result.work.entry ≡ Some e }
    ensures none { result.left.under ≡ None }
    ensures stays { O.lane ops.new ≡ O.lane ops.old }
{
    let ev = read(ops, home.sys, &e);
    let work = Work { ev, entry: Some(e) };
    let sig = work.ev.sig;
    let (agenda, leaf) = home.compiled.step(
        home.chart,
        lasting.leaf,
        &surroundings(home.me, lasting, &work),
        sig,
    );
    Going {
        work,
        left: Left {
            agenda,
            under: None,
        },
        leaf,
    }
}

/// Stops the lane where it has no room, or memory was refused.
pub(crate) fn give_up<O: Ops>(ops: &mut O, fault: RoomFault) -> Step
    requires fault { IsFault (O.lane ops.old) fault }
    requires spills { spills_told (O.lane ops.old).told ≡ false }
    ensures { StepHalts (O.lane ops.old) (O.lane ops.new) result }
{
    match halt(ops, fault) {
        Halted::Full => Step::Stopped,
        Halted::Memory => Step::Memory,
    }
}

/// Goes on with a step: up to its next scheduling point, or to its end with the release of its entry.
fn go<O: Ops, L: Ledger>(
    ops: &mut O,
    home: &Home<'_>,
    lasting: &mut Lasting,
    stage: &mut Position,
    going: Going,
    ceiling: &mut u8,
    steps: &mut Steps<L>,
) -> Step
    requires lane { IsLaneOf (object_setting home.now) ceiling.old (O.lane ops.old) }
    requires ready { CanTakeSteps home.now.sys.now home.now.me home.now.chart.now }
    requires going { IsGoing (object_setting home.now) lasting.old going (O.lane ops.old) }
    requires between { stage.old ≡ standing.Between }
    ensures { Resumes (object_setting home.now) ceiling.old ceiling.new lasting.old (standing.Within going) lasting.new stage.new
        (O.lane ops.old) (O.lane ops.new) result }
{
    let Going {
        work,
        mut left,
        leaf,
    } = going;
    match run(ops, home, lasting, &mut left, &work, true, ceiling, steps) {
        Ran::Point => {
            *stage = Position::Within(Going { work, left, leaf });
            Step::Point
        }
        Ran::Over => match finish(ops, work) {
            Ok(()) => {
                lasting.leaf = leaf;
                Step::Done
            }
            Err(fault) => give_up(ops, fault),
        },
        Ran::Asserted(code) => {
            *stage = Position::Within(Going { work, left, leaf });
            ops.stop(code);
            Step::Stopped
        }
        Ran::Cut(fault) => {
            *stage = Position::Within(Going { work, left, leaf });
            give_up(ops, fault)
        }
    }
}

/// Releases the entry of a step.
fn finish<O: Ops>(ops: &mut O, work: Work) -> Result<(), RoomFault>
    requires { StandsIn work.entry (O.lane ops.old) }
    ensures { StepReleases work.entry (O.lane ops.old) (O.lane ops.new) result }
{
    match work.entry {
        None => Ok(()),
        Some(e) => {
            end_step(ops, e)?;
            Ok(())
        }
    }
}

/// Goes on with the step under way.
pub(crate) fn step_on<O: Ops, L: Ledger>(
    ops: &mut O,
    home: &Home<'_>,
    lasting: &mut Lasting,
    stage: &mut Position,
    ceiling: &mut u8,
    steps: &mut Steps<L>,
) -> Step
    requires lane { IsLaneOf (object_setting home.now) ceiling.old (O.lane ops.old) }
    requires ready { CanTakeSteps home.now.sys.now home.now.me home.now.chart.now }
    requires compiled { IsCompiled home.now.chart.now home.now.compiled.now }
    requires under_way { IsUnderWay (object_setting home.now) lasting.old stage.old (O.lane ops.old) }
    ensures { Resumes (object_setting home.now) ceiling.old ceiling.new lasting.old stage.old lasting.new stage.new
        (O.lane ops.old) (O.lane ops.new) result }
{
    match std::mem::replace(stage, Position::Between) {
        Position::Between => Step::Memory,
        Position::Taken(e) => {
            let going = take_up(ops, home, lasting, e);
            go(ops, home, lasting, stage, going, ceiling, steps)
        }
        Position::Within(going) => go(ops, home, lasting, stage, going, ceiling, steps),
    }
}
