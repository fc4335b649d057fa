//! Which row handles an event.

ghost use Rattle.std.specs.Prelude.{◌≡◌};
ghost use Rattle.std.specs.Option.{option_copied};
ghost use Rattle.qp_chart.specs.Expr.{names_in};
ghost use Rattle.qp_chart.specs.Handler.{passes};
ghost use Rattle.qp_chart_compiled.specs.Codes.{row_at};
ghost use Rattle.qp_chart_compiled.specs.Rows.{is_open, is_open_at, first_open};

use crate::agenda::Plan;
use crate::choice::Choice;
use crate::lists::row_at;
use qp_chart::{Bound, Chart, Env, Row, eval};

/// Whether a guard isn't 0; a row without one is open.
#[tactic(auto, unfolding(qp_chart::specs::Handler::passes))]
fn passes(env: &Env<'_>, guard: Option<&Bound>) -> bool
    ensures { result ≡ passes (names_in env.now) (option_copied guard.entry) }
{
    match guard {
        Some(guard) => eval(guard, env) != 0,
        None => true,
    }
}

/// Whether a row is for a signal, and its guard passes.
fn is_open(env: &Env<'_>, sig: u16, row: &Row) -> bool
    ensures { result ≡ is_open (names_in env.now) sig row.now }
{
    row.on() == sig && passes(env, row.when())
}

/// Whether the row of a choice is open.
fn is_open_at(chart: &Chart, env: &Env<'_>, sig: u16, choice: &Choice) -> bool
    ensures { result ≡ is_open_at (names_in env.now) sig (row_at chart.now choice.now.state choice.now.place) }
{
    match row_at(chart, choice.state, choice.place) {
        Some(row) => is_open(env, sig, row),
        None => false,
    }
}

/// What is done by the first choice whose row is open.
pub(crate) fn first_open(chart: &Chart, env: &Env<'_>, sig: u16, choices: &[Choice]) -> Option<Plan>
    ensures { result ≡ first_open chart.now (names_in env.now) sig choices.now }
{
    for choice in choices {
        if is_open_at(chart, env, sig, choice) {
            return Some(choice.plan);
        }
    }
    None
}
