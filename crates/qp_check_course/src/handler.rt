//! Which row of which state handles an event.

ghost use Rattle.std.specs.Prelude.{◌≡◌, ◌==◌, ◌&&◌, None};
ghost use Rattle.std.specs.Option.{option_copied};
ghost use Rattle.qp_chart.specs.StateTree.{state_at};
ghost use Rattle.qp_chart.specs.Expr.{names_in};
ghost use Rattle.qp_chart.specs.Handler.{passes, first_row, rows_of, handler_at, handler};
ghost use Rattle.qp_check_course.specs.AsHandler.{as_row_place};

use qp_chart::{Bound, Chart, Env, Row, eval};
use qp_chart_tree::{parent_of, rows_of};
use std::marker::Model;

/// A row of a state, with its place there, from 1.
#[derive(Drop)]
pub(crate) struct Handler<'a> {
    pub state: u8,
    pub place: usize,
    pub row: &'a Row,
}

impl<'a> Model for Handler<'a> {
    ghost use Rattle.std.specs.Coded.{codes};
    ghost use Rattle.qp_chart.specs.Handler as handler;
    ghost use Rattle.qp_chart.specs.contracts.expression.Bound as bound;

    ghost Value = { handler.Handler };

    ghost coded = { Prim.hlevel (codes, bound.the_row.coded) };

    ghost view = { λ h. record { state = h.state; place = h.place; row = h.row.now } };
}

/// Whether a guard isn't 0; a row without one is open.
#[tactic(auto, unfolding(qp_chart::specs::Handler::passes))]
fn passes(env: &Env<'_>, guard: Option<&Bound>) -> bool
    ensures { result ≡ passes (names_in env.now) (option_copied guard.entry) }
{
    match guard {
        Some(guard) => eval(guard, env) != 0,
        None => true,
    }
}

/// Whether a row is for a signal, and its guard passes.
fn is_open(env: &Env<'_>, sig: u64, row: &Row) -> bool
    ensures { result ≡ ((row.now.on == sig) && passes (names_in env.now) row.now.when) }
{
    u64::from(row.on()) == sig && passes(env, row.when())
}

/// The first row for a signal whose guard passes, with its place.
fn first_row<'a>(env: &Env<'_>, sig: u64, rows: &'a [Row]) -> Option<(usize, &'a Row)>
    ensures { as_row_place result ≡ first_row (names_in env.now) sig 1 rows.now }
{
    for (i, row) in rows.iter().enumerate() {
        if is_open(env, sig, row) {
            return Some((i + 1, row));
        }
    }
    None
}

/// The first row of a state for a signal whose guard passes.
fn row_of<'a>(chart: &'a Chart, env: &Env<'_>, sig: u64, s: u8) -> Option<Handler<'a>>
    ensures { result ≡ handler_at s (first_row (names_in env.now) sig 1 (rows_of (state_at chart.now s))) None }
{
    match first_row(env, sig, rows_of(chart, s)) {
        Some((place, row)) => Some(Handler {
            state: s,
            place,
            row,
        }),
        None => None,
    }
}

/// What handles a signal where the leaf is the current state.
pub(crate) fn handler_of<'a>(
    chart: &'a Chart,
    env: &Env<'_>,
    sig: u64,
    leaf: u8,
) -> Option<Handler<'a>>
    ensures { result ≡ handler chart.now (names_in env.now) sig leaf }
{
    let mut at = Some(leaf);
    for _ in chart.state() {
        match at {
            Some(s) => {
                let found = row_of(chart, env, sig, s);
                if found.is_some() {
                    return found;
                }
                at = parent_of(chart, s);
            }
            None => return None,
        }
    }
    None
}
