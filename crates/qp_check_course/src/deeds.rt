//! What an action of a chart does, with its values.

ghost use Rattle.std.specs.Prelude.{◌≡◌, ◌≤◌, length};
ghost use Rattle.qp_chart.specs.Expr.{names_in, value_of};
ghost use Rattle.qp_model.specs.Calls.{bits_of, values_of, object_of, deed_of};
ghost use Rattle.qp_check_course.specs.AsDeed.{as_deed};
ghost use Rattle.qp_check_course.specs.Few.{MakesFew};

use arrayvec::ArrayVec;
use qp_chart::{Bound, Env, Plain, Target, eval};
use qp_check_calls::Call;
use qp_model::Params;

/// It sets a variable, says a value, or calls.
#[derive(Drop)]
pub(crate) enum Deed {
    Sets { var: u8, value: i64 },
    Says { value: u64 },
    Calls(Call),
}

/// The 64 bits of an expression's value.
fn bits(e: &Bound, env: &Env<'_>) -> u64
    ensures { result ≡ bits_of (value_of (names_in env.now) e.now) }
{
    eval(e, env).cast_unsigned()
}

/// The parameters of an event.
#[tactic(auto, unfolding(qp_model::specs::Calls::values_of))]
fn params(exprs: &[Bound], env: &Env<'_>) -> Params
    requires { length exprs.now ≤ 8 }
    ensures { result ≡ values_of (names_in env.now) exprs.now }
{
    let mut items = ArrayVec::new();
    for e in exprs {
        items.push(bits(e, env));
    }
    Params { items }
}

/// The priority of the object that a post names.
fn receiver(me: u8, to: &Target) -> u8
    ensures { result ≡ object_of me to.now }
{
    match to {
        Target::Me => me,
        Target::Object(o) => *o,
    }
}

/// What an action does. Its event has at most eight parameters.
#[tactic(auto, unfolding(qp_model::specs::Calls::deed_of))]
pub(crate) fn deed_of(plain: &Plain, env: &Env<'_>) -> Deed
    requires { MakesFew plain.now }
    ensures { as_deed result ≡ deed_of (names_in env.now) plain.now }
{
    match plain {
        Plain::Set { var, value: e } => Deed::Sets {
            var: *var,
            value: eval(e, env),
        },
        Plain::Say(e) => Deed::Says {
            value: bits(e, env),
        },
        Plain::Post {
            to,
            sig,
            pars,
            margin,
            reserve,
        } => Deed::Calls(Call::Post {
            to: receiver(env.me, to),
            sig: *sig,
            pars: params(pars.items.as_slice(), env),
            margin: *margin,
            reserve: *reserve,
        }),
        Plain::Lifo { sig, pars, reserve } => Deed::Calls(Call::Lifo {
            sig: *sig,
            pars: params(pars.items.as_slice(), env),
            reserve: *reserve,
        }),
        Plain::Forward { to, margin } => Deed::Calls(Call::Forward {
            to: receiver(env.me, to),
            margin: *margin,
        }),
        Plain::Publish { sig, pars, reserve } => Deed::Calls(Call::Publish {
            sig: *sig,
            pars: params(pars.items.as_slice(), env),
            reserve: *reserve,
        }),
        Plain::Defer => Deed::Calls(Call::Defer),
        Plain::Recall => Deed::Calls(Call::Recall),
        Plain::Flush => Deed::Calls(Call::Flush),
        Plain::Subscribe(sig) => Deed::Calls(Call::Subscribe { sig: *sig }),
        Plain::Unsubscribe(sig) => Deed::Calls(Call::Unsubscribe { sig: *sig }),
        Plain::Arm {
            timer,
            ticks,
            interval,
        } => Deed::Calls(Call::Arm {
            timer: *timer,
            ticks: bits(ticks, env),
            interval: bits(interval, env),
        }),
        Plain::Rearm { timer, ticks } => Deed::Calls(Call::Rearm {
            timer: *timer,
            ticks: bits(ticks, env),
        }),
        Plain::Disarm { timer } => Deed::Calls(Call::Disarm { timer: *timer }),
    }
}
