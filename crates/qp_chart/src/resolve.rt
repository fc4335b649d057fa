//! Actions with their names resolved.
#![tactic(auto, unfolding(qp_chart_names::specs::ActionFaults::order_known, qp_chart_names::specs::ActionFaults::order_in_range, qp_chart_names::specs::ActionFaults::order_fits, crate::specs::ActionOf::IsPlainOf))]

ghost use Rattle.std.specs.Prelude.{◌≡◌, All, Some, None, map, true, IfOk, IfErr};
ghost use Rattle.std.specs.Option.{is_some};
ghost use Rattle.qp_chart_names.specs.Pairs.{Corresponds};
ghost use Rattle.qp_chart_text.specs.Terms.{Set, Say, Post, Lifo, Publish, Arm, Rearm, term_of, event_of_tree, order_of, command_of, address_of};
ghost use Rattle.qp_chart_names.specs.RawNumbers.{signal_number, timer_by_name, variable_number};
ghost use Rattle.qp_chart_names.specs.ActionFaults.{IsAllowed, IsTermSound, command_known, command_in_range, command_fits, is_event_known, event_fits, receiver_known, is_byte, params_in};
ghost use Rattle.qp_chart.specs.ActionOf.{IsBoundOf, IsTargetOf, IsEventOf, IsByteOf, IsPlainOf, IsActOf};
ghost use Rattle.qp_chart_names.specs.Faults.{IsChartFault};

use crate::actions::{Act, Plain, Plains, Target};
use crate::binding::{BindFault, bind};
use crate::expression::{Bound, BoundExprs};
use qp_chart_names::{ChartFault, Scope};
use qp_chart_text::{Action, EventTree, Expr, Name, PlainAction, Receiver};
use std::alloc::Global;

/// An expression whose names are declared.
pub(crate) fn bound(
    alloc: Global,
    scope: &Scope<'_>,
    params: u8,
    e: &Expr,
) -> Result<Bound, ChartFault>
    requires { IsTermSound scope.now.chart.now params (term_of e.now) }
    ensures ok { IfOk result (IsBoundOf scope.now.chart.now params (term_of e.now)) }
    ensures memory { IfErr result (IsChartFault None) }
{
    match bind(alloc, e, scope.tables.vars.as_slice(), params) {
        Ok(bound) => Ok(bound),
        Err(BindFault::Memory) => Err(ChartFault::Memory),
        Err(BindFault::NoName) => unreachable!(),
        Err(BindFault::NoParameter) => unreachable!(),
    }
}

/// The parameters of an event.
fn bounds(
    alloc: Global,
    scope: &Scope<'_>,
    params: u8,
    exprs: &[Expr],
) -> Result<BoundExprs, ChartFault>
    requires { All (λ e. IsTermSound scope.now.chart.now params (term_of e)) exprs.now }
    ensures ok { IfOk result (λ pars. Corresponds (IsBoundOf scope.now.chart.now params) (map term_of exprs.now) pars) }
    ensures memory { IfErr result (IsChartFault None) }
{
    let mut items = Vec::new(alloc);
    for e in exprs {
        let item = bound(alloc, scope, params, e)?;
        items.push(item)?;
    }
    Ok(BoundExprs { items })
}

fn declared_signal(scope: &Scope<'_>, name: &Name) -> u16
    requires { is_some (signal_number scope.now.names.now name.now) ≡ true }
    ensures { signal_number scope.now.names.now name.now ≡ Some result }
{
    match scope.signal_number(name) {
        Some(number) => number,
        None => unreachable!(),
    }
}

fn declared_timer(scope: &Scope<'_>, name: &Name) -> u8
    requires { is_some (timer_by_name scope.now.chart.now name.now) ≡ true }
    ensures { timer_by_name scope.now.chart.now name.now ≡ Some result }
{
    match scope.timer_number(name) {
        Some(number) => number,
        None => unreachable!(),
    }
}

fn declared_variable(scope: &Scope<'_>, name: &Name) -> u8
    requires { is_some (variable_number scope.now.chart.now name.now) ≡ true }
    ensures { variable_number scope.now.chart.now name.now ≡ Some result }
{
    match scope.variable_number(name) {
        Some(number) => number,
        None => unreachable!(),
    }
}

fn target(scope: &Scope<'_>, to: &Receiver) -> Target
    requires { receiver_known scope.now.names.now (address_of to.now) ≡ true }
    ensures { IsTargetOf scope.now.names.now (address_of to.now) result }
{
    match to {
        Receiver::Me => Target::Me,
        Receiver::Object(name) => match scope.object_named(name) {
            Some(object) => Target::Object(object.priority),
            None => unreachable!(),
        },
    }
}

/// A margin or a reserve.
fn byte(number: Option<i64>) -> Option<u8>
    requires { is_byte number ≡ true }
    ensures { IsByteOf number result }
{
    match number {
        Some(number) => Some(number as u8),
        None => None,
    }
}

/// The signal of an event, and its parameters.
fn event(
    alloc: Global,
    scope: &Scope<'_>,
    params: u8,
    event: &EventTree,
) -> Result<(u16, BoundExprs), ChartFault>
    requires known { is_event_known scope.now.names.now scope.now.chart.now (event_of_tree event.now) ≡ true }
    requires fits { event_fits scope.now.names.now params (event_of_tree event.now) ≡ true }
    ensures ok { IfOk result (λ e. IsEventOf scope.now.names.now scope.now.chart.now params (event_of_tree event.now) e.0 e.1) }
    ensures memory { IfErr result (IsChartFault None) }
{
    let signal = declared_signal(scope, &event.signal);
    let pars = bounds(alloc, scope, params, event.pars.as_slice())?;
    Ok((signal, pars))
}

/// An assignment.
fn resolved_set(
    alloc: Global,
    scope: &Scope<'_>,
    inside: Option<u8>,
    var: &Name,
    value: &Expr,
) -> Result<Plain, ChartFault>
    requires { IsAllowed scope.now.names.now scope.now.chart.now inside (Set var.now (term_of value.now)) }
    ensures ok { IfOk result (IsPlainOf scope.now.names.now scope.now.chart.now (params_in inside) (Set var.now (term_of value.now))) }
    ensures memory { IfErr result (IsChartFault None) }
{
    let var = declared_variable(scope, var);
    let value = bound(alloc, scope, inside.unwrap_or(0), value)?;
    Ok(Plain::Set { var, value })
}

/// A value that is said.
fn resolved_say(
    alloc: Global,
    scope: &Scope<'_>,
    inside: Option<u8>,
    value: &Expr,
) -> Result<Plain, ChartFault>
    requires { IsAllowed scope.now.names.now scope.now.chart.now inside (Say (term_of value.now)) }
    ensures ok { IfOk result (IsPlainOf scope.now.names.now scope.now.chart.now (params_in inside) (Say (term_of value.now))) }
    ensures memory { IfErr result (IsChartFault None) }
{
    let value = bound(alloc, scope, inside.unwrap_or(0), value)?;
    Ok(Plain::Say(value))
}

/// An event that is posted.
fn resolved_post(
    alloc: Global,
    scope: &Scope<'_>,
    inside: Option<u8>,
    to: &Receiver,
    posted: &EventTree,
    margin: Option<i64>,
    reserve: Option<i64>,
) -> Result<Plain, ChartFault>
    requires { IsAllowed scope.now.names.now scope.now.chart.now inside (Post (address_of to.now) (event_of_tree posted.now) margin reserve) }
    ensures ok { IfOk result (IsPlainOf scope.now.names.now scope.now.chart.now (params_in inside)
        (Post (address_of to.now) (event_of_tree posted.now) margin reserve)) }
    ensures memory { IfErr result (IsChartFault None) }
{
    let to = target(scope, to);
    let (sig, pars) = event(alloc, scope, inside.unwrap_or(0), posted)?;
    let margin = byte(margin);
    let reserve = byte(reserve);
    Ok(Plain::Post {
        to,
        sig,
        pars,
        margin,
        reserve,
    })
}

/// An event that is posted to the front.
fn resolved_lifo(
    alloc: Global,
    scope: &Scope<'_>,
    inside: Option<u8>,
    posted: &EventTree,
    reserve: Option<i64>,
) -> Result<Plain, ChartFault>
    requires { IsAllowed scope.now.names.now scope.now.chart.now inside (Lifo (event_of_tree posted.now) reserve) }
    ensures ok { IfOk result (IsPlainOf scope.now.names.now scope.now.chart.now (params_in inside) (Lifo (event_of_tree posted.now) reserve)) }
    ensures memory { IfErr result (IsChartFault None) }
{
    let (sig, pars) = event(alloc, scope, inside.unwrap_or(0), posted)?;
    let reserve = byte(reserve);
    Ok(Plain::Lifo { sig, pars, reserve })
}

/// An event that is published.
fn resolved_publish(
    alloc: Global,
    scope: &Scope<'_>,
    inside: Option<u8>,
    posted: &EventTree,
    reserve: Option<i64>,
) -> Result<Plain, ChartFault>
    requires { IsAllowed scope.now.names.now scope.now.chart.now inside (Publish (event_of_tree posted.now) reserve) }
    ensures ok { IfOk result (IsPlainOf scope.now.names.now scope.now.chart.now (params_in inside) (Publish (event_of_tree posted.now) reserve)) }
    ensures memory { IfErr result (IsChartFault None) }
{
    let (sig, pars) = event(alloc, scope, inside.unwrap_or(0), posted)?;
    let reserve = byte(reserve);
    Ok(Plain::Publish { sig, pars, reserve })
}

/// A time event that is armed.
fn resolved_arm(
    alloc: Global,
    scope: &Scope<'_>,
    inside: Option<u8>,
    timer: &Name,
    ticks: &Expr,
    interval: &Expr,
) -> Result<Plain, ChartFault>
    requires { IsAllowed scope.now.names.now scope.now.chart.now inside (Arm timer.now (term_of ticks.now) (term_of interval.now)) }
    ensures ok { IfOk result (IsPlainOf scope.now.names.now scope.now.chart.now (params_in inside)
        (Arm timer.now (term_of ticks.now) (term_of interval.now))) }
    ensures memory { IfErr result (IsChartFault None) }
{
    let timer = declared_timer(scope, timer);
    let ticks = bound(alloc, scope, inside.unwrap_or(0), ticks)?;
    let interval = bound(alloc, scope, inside.unwrap_or(0), interval)?;
    Ok(Plain::Arm {
        timer,
        ticks,
        interval,
    })
}

/// A time event that is armed again.
fn resolved_rearm(
    alloc: Global,
    scope: &Scope<'_>,
    inside: Option<u8>,
    timer: &Name,
    ticks: &Expr,
) -> Result<Plain, ChartFault>
    requires { IsAllowed scope.now.names.now scope.now.chart.now inside (Rearm timer.now (term_of ticks.now)) }
    ensures ok { IfOk result (IsPlainOf scope.now.names.now scope.now.chart.now (params_in inside) (Rearm timer.now (term_of ticks.now))) }
    ensures memory { IfErr result (IsChartFault None) }
{
    let timer = declared_timer(scope, timer);
    let ticks = bound(alloc, scope, inside.unwrap_or(0), ticks)?;
    Ok(Plain::Rearm { timer, ticks })
}

/// An action that may stand within `locked`.
#[tactic(auto, unfolding(qp_chart_text::specs::Terms::order_of, qp_chart_names::specs::ActionFaults::order_known, qp_chart_names::specs::ActionFaults::order_in_range, qp_chart_names::specs::ActionFaults::order_fits, crate::specs::ActionOf::IsPlainOf))]
fn resolved_plain(
    alloc: Global,
    scope: &Scope<'_>,
    inside: Option<u8>,
    plain: &PlainAction,
) -> Result<Plain, ChartFault>
    requires { IsAllowed scope.now.names.now scope.now.chart.now inside (order_of plain.now) }
    ensures ok { IfOk result (IsPlainOf scope.now.names.now scope.now.chart.now (params_in inside) (order_of plain.now)) }
    ensures memory { IfErr result (IsChartFault None) }
{
    match plain {
        PlainAction::Set { var, value } => resolved_set(alloc, scope, inside, var, value),
        PlainAction::Say(value) => resolved_say(alloc, scope, inside, value),
        PlainAction::Post {
            to,
            event,
            margin,
            reserve,
        } => resolved_post(alloc, scope, inside, to, event, *margin, *reserve),
        PlainAction::Lifo { event, reserve } => {
            resolved_lifo(alloc, scope, inside, event, *reserve)
        }
        PlainAction::Forward { to, margin } => Ok(Plain::Forward {
            to: target(scope, to),
            margin: byte(*margin),
        }),
        PlainAction::Publish { event, reserve } => {
            resolved_publish(alloc, scope, inside, event, *reserve)
        }
        PlainAction::Defer => Ok(Plain::Defer),
        PlainAction::Recall => Ok(Plain::Recall),
        PlainAction::Flush => Ok(Plain::Flush),
        PlainAction::Subscribe(signal) => Ok(Plain::Subscribe(declared_signal(scope, signal))),
        PlainAction::Unsubscribe(signal) => Ok(Plain::Unsubscribe(declared_signal(scope, signal))),
        PlainAction::Arm {
            timer,
            ticks,
            interval,
        } => resolved_arm(alloc, scope, inside, timer, ticks, interval),
        PlainAction::Rearm { timer, ticks } => resolved_rearm(alloc, scope, inside, timer, ticks),
        PlainAction::Disarm { timer } => Ok(Plain::Disarm {
            timer: declared_timer(scope, timer),
        }),
    }
}

/// The actions of a `locked`.
fn resolved_plains(
    alloc: Global,
    scope: &Scope<'_>,
    inside: Option<u8>,
    plains: &[PlainAction],
) -> Result<Plains, ChartFault>
    requires { All (λ plain. IsAllowed scope.now.names.now scope.now.chart.now inside (order_of plain)) plains.now }
    ensures ok { IfOk result (λ acts. Corresponds (IsPlainOf scope.now.names.now scope.now.chart.now (params_in inside))
        (map order_of plains.now) acts) }
    ensures memory { IfErr result (IsChartFault None) }
{
    let mut items = Vec::new(alloc);
    for plain in plains {
        let item = resolved_plain(alloc, scope, inside, plain)?;
        items.push(item)?;
    }
    Ok(Plains { items })
}

/// An action. `inside` is the number of parameters of the row's signal; `None` stands outside a row.
#[tactic(auto, unfolding(qp_chart_text::specs::Terms::command_of, qp_chart_names::specs::ActionFaults::command_known, qp_chart_names::specs::ActionFaults::command_in_range, qp_chart_names::specs::ActionFaults::command_fits, crate::specs::ActionOf::IsActOf))]
pub(crate) fn resolved(
    alloc: Global,
    scope: &Scope<'_>,
    inside: Option<u8>,
    action: &Action,
) -> Result<Act, ChartFault>
    requires known { command_known scope.now.names.now scope.now.chart.now (command_of action.now) ≡ true }
    requires in_range { command_in_range scope.now.names.now (command_of action.now) ≡ true }
    requires fits { command_fits scope.now.names.now inside (command_of action.now) ≡ true }
    ensures ok { IfOk result (IsActOf scope.now.names.now scope.now.chart.now (params_in inside) (command_of action.now)) }
    ensures memory { IfErr result (IsChartFault None) }
{
    match action {
        Action::Plain(plain) => Ok(Act::Plain(resolved_plain(alloc, scope, inside, plain)?)),
        Action::Locked { ceiling, acts } => Ok(Act::Locked {
            ceiling: *ceiling as u8,
            acts: resolved_plains(alloc, scope, inside, acts.as_slice())?,
        }),
    }
}
