//! Whether an object's records follow its chart.

ghost use Rattle.std.specs.Prelude.{◌≡◌, map, List, Some, None, IfOk, MatchOption};
ghost use Rattle.std.specs.Option.{option_copied};
ghost use Rattle.qp_model.specs.Pieces.{records_in, ends_at_point};
ghost use Rattle.qp_model.specs.Pieces as pieces;
ghost use Rattle.qp_model.specs.Course.{FollowsTo, chart_at, first_config};
ghost use Rattle.qp_check_calls.specs.AsPiece.{as_piece, as_cut};
ghost use Rattle.qp_check_calls.specs.Decides.{Decides};
ghost use Rattle.qp_check_course.specs.Machine.{start_state, state_after};
ghost use Rattle.qp_model.specs.ObjectShape.{asserts_none};
ghost use Rattle.qp_check_course.specs.Passing.{asserts_where_cut, is_none_told, told_well, run_told};
ghost use Rattle.qp_check_course.specs.Decided.{ends_well};
ghost use Rattle.qp_check_course.specs.Followable.{IsFollowable};
ghost use Rattle.qp_check_course.specs.Runs.{IsAble, IsActorOf, piece_asserts};
ghost use Rattle.qp_check_course.specs.AsState.{as_actor};

use crate::runs::{begin, ends_at_point, run, run_told};
use crate::states::Actor;
use qp_chart::Chart;
use qp_check_calls::{Cut, Piece, Told};
use qp_model::{ObjectDef, System, is_asserted};
use std::alloc::{AllocError, Global};

/// The chart of a system with this number, from 1.
pub fn chart_at(sys: &System, n: u8) -> Option<&Chart>
    ensures { option_copied result ≡ chart_at sys.now n }
{
    sys.charts.items.get(usize::from(n).saturating_sub(1))
}

/// The capacity of an object's deferred list.
fn room_of(d: &ObjectDef) -> u8
    ensures { result ≡ d.now.defer }
{
    d.defer
}

/// The object with its chart, if it is there.
pub(crate) fn actor_of<'a>(sys: &'a System, d: &ObjectDef) -> Option<Actor<'a>>
    ensures { MatchOption result (chart_at sys.now d.now.chart ≡ None) (λ who. IsActorOf sys.now d.now who.sys.now who.chart.now
        (as_actor who)) }
{
    let room = room_of(d);
    match chart_at(sys, d.chart) {
        Some(chart) => Some(Actor {
            sys,
            chart,
            o: d.priority,
            room,
        }),
        None => None,
    }
}

/// Whether the records are read to the last one, and the list may be cut there.
fn reads_told(
    alloc: Global,
    who: &Actor<'_>,
    d: &ObjectDef,
    cut: Cut,
    told: &[Told],
) -> Result<bool, AllocError>
    requires { IsAble who.now.sys.now (as_actor who.now) }
    ensures { IfOk result (λ b. b ≡ told_well (as_actor who.now) (as_cut cut) (is_none_told told.now)
        (run_told who.now.sys.now (as_actor who.now) (start_state (as_actor who.now) (first_config d.now)) told.now)) }
{
    let first = begin(alloc, who, d)?;
    let read = run_told(alloc, who, first, told)?;
    match read {
        Some(last) => Ok(last.may_end_told(who, cut, told.is_empty())),
        None => Ok(false),
    }
}

/// The same of pieces.
fn reads_pieces(
    alloc: Global,
    who: &Actor<'_>,
    d: &ObjectDef,
    cut: Cut,
    pieces: &[Piece],
) -> Result<bool, AllocError>
    requires { IsAble who.now.sys.now (as_actor who.now) }
    ensures { IfOk result (λ b. b ≡ ends_well (as_cut cut) (ends_at_point (map as_piece pieces.now))
        (state_after who.now.sys.now (as_actor who.now) (start_state (as_actor who.now) (first_config d.now)) (map as_piece pieces.now))) }
{
    let first = begin(alloc, who, d)?;
    let read = run(alloc, who, first, pieces)?;
    match read {
        Some(last) => Ok(last.may_end(cut, ends_at_point(pieces))),
        None => Ok(false),
    }
}

fn asserts_none(told: &[Told]) -> bool
    ensures { result ≡ asserts_none told.now }
{
    told.iter().all(|t| !is_asserted(&t.body))
}

fn piece_asserts(piece: &Piece) -> bool
    ensures { result ≡ piece_asserts piece.now }
{
    match piece {
        Piece::Tell(t) => is_asserted(&t.body),
        Piece::Point => false,
    }
}

fn pieces_assert_none(pieces: &[Piece]) -> bool
    ensures { result ≡ asserts_none (records_in (map as_piece pieces.now)) }
{
    pieces.iter().all(|piece| !piece_asserts(piece))
}

/// Whether an assertion is among the records only where the list may be cut.
fn asserts_where_cut(cut: Cut, told: &[Told]) -> bool
    ensures { result ≡ asserts_where_cut (as_cut cut) told.now }
{
    match cut {
        Cut::Whole => asserts_none(told),
        Cut::Stopped | Cut::Anywhere => true,
    }
}

/// The same of pieces.
fn pieces_assert_where_cut(cut: Cut, pieces: &[Piece]) -> bool
    ensures { result ≡ asserts_where_cut (as_cut cut) (records_in (map as_piece pieces.now)) }
{
    match cut {
        Cut::Whole => pieces_assert_none(pieces),
        Cut::Stopped | Cut::Anywhere => true,
    }
}

/// Whether an object's records follow its chart, with some points between them.
pub fn follows(
    alloc: Global,
    sys: &System,
    d: &ObjectDef,
    cut: Cut,
    told: &[Told],
) -> Result<bool, AllocError>
    requires { IsFollowable sys.now d.now }
    ensures { IfOk result (λ b. Decides b ((ps : List pieces.Piece) × (records_in ps ≡ told.now) × FollowsTo sys.now d.now (as_cut cut) ps)) }
{
    if !asserts_where_cut(cut, told) {
        return Ok(false);
    }
    match actor_of(sys, d) {
        Some(who) => reads_told(alloc, &who, d, cut, told),
        None => Ok(false),
    }
}

/// Whether an object's records and the points between them follow its chart.
pub fn follows_with_points(
    alloc: Global,
    sys: &System,
    d: &ObjectDef,
    cut: Cut,
    pieces: &[Piece],
) -> Result<bool, AllocError>
    requires { IsFollowable sys.now d.now }
    ensures { IfOk result (λ b. Decides b (FollowsTo sys.now d.now (as_cut cut) (map as_piece pieces.now))) }
{
    if !pieces_assert_where_cut(cut, pieces) {
        return Ok(false);
    }
    match actor_of(sys, d) {
        Some(who) => reads_pieces(alloc, &who, d, cut, pieces),
        None => Ok(false),
    }
}
