//! What records and pieces make of the states of a course, one after another.

ghost use Rattle.std.specs.Prelude.{◌≡◌, ◌||◌, [], map, true, Some, None, IfOk, MatchOption};
ghost use Rattle.std.specs.Option.{option_map, option_copied};
ghost use Rattle.qp_model.specs.Able.{chart_able};
ghost use Rattle.qp_model.specs.Pieces.{ends_at_point};
ghost use Rattle.qp_model.specs.Course.{first_config};
ghost use Rattle.qp_check_calls.specs.AsPiece.{as_piece, as_cut};
ghost use Rattle.qp_check_course.specs.Machine.{start_state, state_next, state_after, is_course_end, expects_point};
ghost use Rattle.qp_check_course.specs.Passing.{pass, run_told, may_end_told};
ghost use Rattle.qp_check_course.specs.Decided.{may_be_cut};
ghost use Rattle.qp_check_course.specs.Followable.{with_eight};
ghost use Rattle.qp_check_course.specs.Runs.{IsAble, CanRun, Leads, is_point};
ghost use Rattle.qp_check_course.specs.AsState.{as_actor, as_state, own_config};

use crate::agenda::start_plan;
use crate::settle::settle;
use crate::states::{Actor, Left, Own, State, Way, discard};
use qp_check_calls::{Cut, Kept, Piece, Told};
use qp_model::ObjectDef;
use std::alloc::{AllocError, Global};
use std::collections::VecDeque;

/// What an object has before its course.
fn first_own(alloc: Global, d: &ObjectDef) -> Result<Own, AllocError>
    ensures { IfOk result (λ own. own_config own [] ≡ first_config d.now) }
{
    let vars = d.vars.items.as_slice().to_vec(alloc)?;
    Ok(Own {
        leaf: 0,
        vars,
        ok: 0,
        former: 0,
    })
}

/// An object's course begins.
pub(crate) fn begin<'a>(
    alloc: Global,
    who: &Actor<'a>,
    d: &ObjectDef,
) -> Result<State<'a>, AllocError>
    requires { chart_able with_eight who.now.chart.now ≡ true }
    ensures { IfOk result (λ s. as_state s ≡ start_state (as_actor who.now) (first_config d.now)) }
{
    let plan = start_plan(alloc, who.chart)?;
    let own = first_own(alloc, d)?;
    let left = Left {
        tasks: VecDeque::from(plan.tasks),
        leaf: plan.leaf,
    };
    Ok(settle(who, Way::Starting, left, own, Kept::none(alloc)))
}

impl<'a> State<'a> {
    /// The course may end here.
    fn is_end(&self) -> bool
        ensures { result ≡ is_course_end (as_state self.now) }
    {
        matches!(self, State::Between { .. } | State::Asserted)
    }

    /// A point is to come.
    fn expects_point(&self) -> bool
        ensures { result ≡ expects_point (as_state self.now) }
    {
        matches!(self, State::AtPoint { .. } | State::AtPost { .. })
    }

    /// The state in which another piece than a point is expected.
    pub(crate) fn passed(self, who: &Actor<'a>) -> Self
        requires able { IsAble who.now.sys.now (as_actor who.now) }
        requires can { CanRun who.now.sys.now (as_actor who.now) (as_state self) }
        ensures is { as_state result ≡ pass (as_actor who.now) (as_state self.entry) }
        ensures can { CanRun who.now.sys.now (as_actor who.now) (as_state result) }
    {
        let mut state = self;
        'points: loop {
            match state.point(who) {
                Ok(later) => state = later,
                Err(same) => return same,
            }
        }
    }

    /// The state behind a piece, where it may come.
    #[tactic(auto, unfolding(crate::specs::Machine::state_next))]
    fn next(self, alloc: Global, who: &Actor<'a>, piece: &Piece) -> Result<Option<Self>, AllocError>
        requires able { IsAble who.now.sys.now (as_actor who.now) }
        requires can { CanRun who.now.sys.now (as_actor who.now) (as_state self) }
        ensures { IfOk result (λ later. option_map as_state later ≡ state_next who.now.sys.now (as_actor who.now) (as_state self.entry)
            (as_piece piece.now)) }
    {
        match piece {
            Piece::Tell(told) => self.tell(alloc, who, told),
            Piece::Point => Ok(self.point(who).ok()),
        }
    }

    /// The course ends in this state, if it may: nothing is left of the state.
    fn ends(self) -> bool
        ensures { result ≡ is_course_end (as_state self.entry) }
    {
        let may = self.is_end();
        discard(self);
        may
    }

    /// A list may stop here, where `at_point` tells whether it stops at a point anyway.
    fn may_stop(&self, at_point: bool) -> bool
        ensures { result ≡ (at_point || (is_course_end (as_state self.now) || expects_point (as_state self.now))) }
    {
        at_point || self.is_end() || self.expects_point()
    }

    /// A list without its points may be cut so in this state.
    #[tactic(auto, unfolding(crate::specs::Passing::may_end_told))]
    pub(crate) fn may_end_told(self, who: &Actor<'a>, cut: Cut, nothing: bool) -> bool
        requires able { IsAble who.now.sys.now (as_actor who.now) }
        requires can { CanRun who.now.sys.now (as_actor who.now) (as_state self) }
        ensures { result ≡ may_end_told (as_actor who.now) (as_cut cut) nothing (as_state self.entry) }
    {
        let stops = self.may_stop(nothing);
        let ends = self.passed(who).ends();
        match cut {
            Cut::Whole => ends,
            Cut::Stopped => stops,
            Cut::Anywhere => true,
        }
    }

    /// A list may be cut so in this state.
    pub(crate) fn may_end(self, cut: Cut, at_point: bool) -> bool
        ensures { result ≡ may_be_cut (as_cut cut) at_point (as_state self.entry) }
    {
        let stops = self.may_stop(at_point);
        let ends = self.ends();
        match cut {
            Cut::Whole => ends,
            Cut::Stopped => stops,
            Cut::Anywhere => true,
        }
    }
}

/// The state behind some records, with the points between them.
pub(crate) fn run_told<'a>(
    alloc: Global,
    who: &Actor<'a>,
    first: State<'a>,
    records: &[Told],
) -> Result<Option<State<'a>>, AllocError>
    requires able { IsAble who.now.sys.now (as_actor who.now) }
    requires can { CanRun who.now.sys.now (as_actor who.now) (as_state first) }
    ensures { IfOk result (λ last. Leads who.now.sys.now (as_actor who.now) (run_told who.now.sys.now (as_actor who.now)
        (as_state first.entry) records.now) (option_map as_state last)) }
{
    let mut state = first;
    for told in records {
        let here = state.passed(who);
        let next = here.tell(alloc, who, told)?;
        match next {
            Some(later) => state = later,
            None => return Ok(None),
        }
    }
    Ok(Some(state))
}

/// The state behind some pieces.
pub(crate) fn run<'a>(
    alloc: Global,
    who: &Actor<'a>,
    first: State<'a>,
    pieces: &[Piece],
) -> Result<Option<State<'a>>, AllocError>
    requires able { IsAble who.now.sys.now (as_actor who.now) }
    requires can { CanRun who.now.sys.now (as_actor who.now) (as_state first) }
    ensures { IfOk result (λ last. option_map as_state last ≡ state_after who.now.sys.now (as_actor who.now) (as_state first.entry)
        (map as_piece pieces.now)) }
{
    let mut state = first;
    for piece in pieces {
        let next = state.next(alloc, who, piece)?;
        match next {
            Some(later) => state = later,
            None => return Ok(None),
        }
    }
    Ok(Some(state))
}

/// A point, or nothing.
fn is_point(piece: Option<&Piece>) -> bool
    ensures { result ≡ is_point (option_copied piece.entry) }
{
    match piece {
        Some(Piece::Tell(_)) => false,
        Some(Piece::Point) | None => true,
    }
}

/// Whether the last piece is a point; so it counts also where nothing stands.
pub(crate) fn ends_at_point(pieces: &[Piece]) -> bool
    ensures { result ≡ ends_at_point (map as_piece pieces.now) }
{
    is_point(pieces.last())
}
