//! The arguments of an action, with their values.

ghost use Rattle.std.specs.Prelude.{◌≡◌, ◌+◌, ◌<◌, ◌≤◌, ℕ, length, nat_lt};
ghost use Rattle.qp_chart.specs.Expr.{names_in, value_of};
ghost use Rattle.qp_model.specs.Calls.{bits_of, values_of, object_of};
ghost use Rattle.qp_model.specs.Parts.{timer_number};
ghost use Rattle.qp_calls.specs.Clauses.{event_of};
ghost use Rattle.qp_dispatch.specs.Lasts.{names_at};

use crate::lasting::Lasting;
use crate::work::Work;
use arrayvec::ArrayVec;
use qp_base::Ev;
use qp_chart::{Bound, Env, Target, eval};
use qp_model::System;

/// The 64 bits of an expression's value.
pub(crate) fn bits(e: &Bound, env: &Env<'_>) -> u64
    ensures { result ≡ bits_of (value_of (names_in env.now) e.now) }
{
    eval(e, env).cast_unsigned()
}

/// An event of these parameters, evaluated from left to right.
#[tactic(auto, unfolding(qp_model::specs::Calls::values_of))]
pub(crate) fn event(sig: u16, exprs: &[Bound], env: &Env<'_>) -> Ev
    requires { length exprs.now ≤ 8 }
    ensures { event_of result ≡ record { sig = sig; pars = values_of (names_in env.now) exprs.now } }
{
    let mut pars = ArrayVec::new();
    for e in exprs {
        pars.push(bits(e, env));
    }
    Ev { sig, pars }
}

/// The priority of the object that a post names.
pub(crate) fn receiver(me: u8, to: &Target) -> u8
    ensures { result ≡ object_of me to.now }
{
    match to {
        Target::Me => me,
        Target::Object(o) => *o,
    }
}

/// The number of the object's timer at this place of its chart.
#[tactic(auto, unfolding(qp_model::specs::Parts::timer_number))]
pub(crate) fn timer(sys: &System, me: u8, place: u8) -> u8
    requires { timer_number sys.now.timers me place < 256 }
    ensures { result ≡ timer_number sys.now.timers me place }
{
    let before = sys.timers.items.iter().filter(|t| t.object < me).count();
    before as u8 + place
}

/// What the names of an action's expressions stand for.
pub(crate) fn surroundings<'a>(me: u8, lasting: &'a Lasting, work: &'a Work) -> Env<'a>
    ensures { names_in result ≡ names_at me lasting.now work.now }
{
    Env {
        vars: lasting.vars.items.as_slice(),
        pars: work.ev.pars.as_slice(),
        ok: lasting.ok,
        me,
    }
}
