//! Whether an action names what is declared, keeps its ranges, and fits its place.
ghost use Rattle.std.specs.Prelude.{◌≡◌, ◌&&◌, not, is_some};
ghost use Rattle.std.specs.List.{list_all};
ghost use Rattle.qp_chart_text.specs.Terms.{term_of, event_of_tree, order_of, command_of, address_of};
ghost use Rattle.qp_chart_names.specs.Known.{reaches};
ghost use Rattle.qp_chart_names.specs.ActionFaults.{term_known, receiver_known, is_event_known, order_known, command_known, is_between, is_byte, is_static_name, reserve_allowed, order_in_range, command_in_range, params_of_name, params_in, event_fits, order_fits, command_fits};

use crate::scope::Scope;
use qp_chart_text::{Action, EventTree, Expr, Name, PlainAction, Receiver};

/// Whether each name of the action is declared.
#[tactic(auto, unfolding(qp_chart_text::specs::Terms::command_of, crate::specs::ActionFaults::command_known))]
pub fn is_known(scope: &Scope<'_>, action: &Action) -> bool
    ensures { result ≡ command_known scope.now.names.now scope.now.chart.now (command_of action.now) }
{
    match action {
        Action::Plain(plain) => plain_known(scope, plain),
        Action::Locked { acts, .. } => all_plain_known(scope, acts.as_slice()),
    }
}

fn all_plain_known(scope: &Scope<'_>, plains: &[PlainAction]) -> bool
    ensures { result ≡ list_all (λ plain. order_known scope.now.names.now scope.now.chart.now (order_of plain)) plains.now }
{
    plains.iter().all(|plain| plain_known(scope, plain))
}

#[tactic(auto, unfolding(qp_chart_text::specs::Terms::order_of, crate::specs::ActionFaults::order_known))]
fn plain_known(scope: &Scope<'_>, plain: &PlainAction) -> bool
    ensures { result ≡ order_known scope.now.names.now scope.now.chart.now (order_of plain.now) }
{
    match plain {
        PlainAction::Set { var, value } => {
            scope.variable_number(var).is_some() && scope.knows(value)
        }
        PlainAction::Say(value) => scope.knows(value),
        PlainAction::Post { to, event, .. } => receiver_is_known(scope, to)
            && event_is_known(scope, event),
        PlainAction::Lifo { event, .. } => event_is_known(scope, event),
        PlainAction::Forward { to, .. } => receiver_is_known(scope, to),
        PlainAction::Publish { event, .. } => event_is_known(scope, event),
        PlainAction::Defer => true,
        PlainAction::Recall => true,
        PlainAction::Flush => true,
        PlainAction::Subscribe(signal) => scope.signal_number(signal).is_some(),
        PlainAction::Unsubscribe(signal) => scope.signal_number(signal).is_some(),
        PlainAction::Arm {
            timer,
            ticks,
            interval,
        } => scope.timer_number(timer).is_some() && scope.knows(ticks) && scope.knows(interval),
        PlainAction::Rearm { timer, ticks } => {
            scope.timer_number(timer).is_some() && scope.knows(ticks)
        }
        PlainAction::Disarm { timer } => scope.timer_number(timer).is_some(),
    }
}

fn receiver_is_known(scope: &Scope<'_>, to: &Receiver) -> bool
    ensures { result ≡ receiver_known scope.now.names.now (address_of to.now) }
{
    match to {
        Receiver::Me => true,
        Receiver::Object(name) => scope.object_named(name).is_some(),
    }
}

#[tactic(auto, unfolding(qp_chart_text::specs::Terms::event_of_tree))]
fn event_is_known(scope: &Scope<'_>, event: &EventTree) -> bool
    ensures { result ≡ is_event_known scope.now.names.now scope.now.chart.now (event_of_tree event.now) }
{
    scope.signal_number(&event.signal).is_some() && all_known(scope, event.pars.as_slice())
}

fn all_known(scope: &Scope<'_>, pars: &[Expr]) -> bool
    ensures { result ≡ list_all (λ e. term_known scope.now.chart.now (term_of e)) pars.now }
{
    pars.iter().all(|e| scope.knows(e))
}

/// Whether each number of the action is in its range.
#[tactic(auto, unfolding(qp_chart_text::specs::Terms::command_of, crate::specs::ActionFaults::command_in_range))]
pub fn is_in_range(scope: &Scope<'_>, action: &Action) -> bool
    ensures { result ≡ command_in_range scope.now.names.now (command_of action.now) }
{
    match action {
        Action::Plain(plain) => plain_in_range(scope, plain),
        Action::Locked { ceiling, acts } => {
            is_within(1, 32, *ceiling) && all_in_range(scope, acts.as_slice())
        }
    }
}

fn all_in_range(scope: &Scope<'_>, plains: &[PlainAction]) -> bool
    ensures { result ≡ list_all (λ plain. order_in_range scope.now.names.now (order_of plain)) plains.now }
{
    plains.iter().all(|plain| plain_in_range(scope, plain))
}

#[tactic(auto, unfolding(qp_chart_text::specs::Terms::order_of, qp_chart_text::specs::Terms::event_of_tree, crate::specs::ActionFaults::order_in_range))]
fn plain_in_range(scope: &Scope<'_>, plain: &PlainAction) -> bool
    ensures { result ≡ order_in_range scope.now.names.now (order_of plain.now) }
{
    match plain {
        PlainAction::Set { .. } => true,
        PlainAction::Say(_) => true,
        PlainAction::Post {
            event,
            margin,
            reserve,
            ..
        } => fits_byte(*margin) && may_reserve(scope, &event.signal, *reserve),
        PlainAction::Lifo { event, reserve } => may_reserve(scope, &event.signal, *reserve),
        PlainAction::Forward { margin, .. } => fits_byte(*margin),
        PlainAction::Publish { event, reserve } => may_reserve(scope, &event.signal, *reserve),
        PlainAction::Defer => true,
        PlainAction::Recall => true,
        PlainAction::Flush => true,
        PlainAction::Subscribe(_) => true,
        PlainAction::Unsubscribe(_) => true,
        PlainAction::Arm { .. } => true,
        PlainAction::Rearm { .. } => true,
        PlainAction::Disarm { .. } => true,
    }
}

fn is_within(low: u8, high: u8, number: i64) -> bool
    ensures { result ≡ is_between low high number }
{
    i64::from(low) <= number && number <= i64::from(high)
}

fn fits_byte(number: Option<i64>) -> bool
    ensures { result ≡ is_byte number }
{
    match number {
        Some(number) => is_within(0, 255, number),
        None => true,
    }
}

/// Whether a reserve is in range, and stands on no static signal.
fn may_reserve(scope: &Scope<'_>, signal: &Name, reserve: Option<i64>) -> bool
    ensures { result ≡ (is_byte reserve && not (is_some reserve && is_static_name scope.now.names.now signal.now)) }
{
    fits_byte(reserve) && !(reserve.is_some() && signal_is_static(scope, signal))
}

pub fn signal_is_static(scope: &Scope<'_>, signal: &Name) -> bool
    ensures { result ≡ is_static_name scope.now.names.now signal.now }
{
    match scope.signal_named(signal) {
        Some(signal) => signal.fixed,
        None => false,
    }
}

/// Whether the action's events and parameters fit its place. `inside` is the number of parameters of the row's signal; `None` stands outside a row.
#[tactic(auto, unfolding(qp_chart_text::specs::Terms::command_of, crate::specs::ActionFaults::command_fits))]
pub fn is_fit(scope: &Scope<'_>, inside: Option<u8>, action: &Action) -> bool
    ensures { result ≡ command_fits scope.now.names.now inside (command_of action.now) }
{
    match action {
        Action::Plain(plain) => plain_fits(scope, inside, plain),
        Action::Locked { acts, .. } => all_fit(scope, inside, acts.as_slice()),
    }
}

fn all_fit(scope: &Scope<'_>, inside: Option<u8>, plains: &[PlainAction]) -> bool
    ensures { result ≡ list_all (λ plain. order_fits scope.now.names.now inside (order_of plain)) plains.now }
{
    plains.iter().all(|plain| plain_fits(scope, inside, plain))
}

#[tactic(auto, unfolding(qp_chart_text::specs::Terms::order_of, crate::specs::ActionFaults::order_fits))]
fn plain_fits(scope: &Scope<'_>, inside: Option<u8>, plain: &PlainAction) -> bool
    ensures { result ≡ order_fits scope.now.names.now inside (order_of plain.now) }
{
    let params = inside.unwrap_or(0);
    match plain {
        PlainAction::Set { value, .. } => reaches(value, params),
        PlainAction::Say(value) => reaches(value, params),
        PlainAction::Post { event, .. } => event_is_fit(scope, params, event),
        PlainAction::Lifo { event, .. } => event_is_fit(scope, params, event),
        PlainAction::Forward { .. } => inside.is_some(),
        PlainAction::Publish { event, .. } => event_is_fit(scope, params, event),
        PlainAction::Defer => inside.is_some(),
        PlainAction::Recall => true,
        PlainAction::Flush => true,
        PlainAction::Subscribe(_) => true,
        PlainAction::Unsubscribe(_) => true,
        PlainAction::Arm {
            ticks,
            interval,
            ..
        } => reaches(ticks, params) && reaches(interval, params),
        PlainAction::Rearm { ticks, .. } => reaches(ticks, params),
        PlainAction::Disarm { .. } => true,
    }
}

#[tactic(auto, unfolding(qp_chart_text::specs::Terms::event_of_tree))]
fn event_is_fit(scope: &Scope<'_>, params: u8, event: &EventTree) -> bool
    ensures { result ≡ event_fits scope.now.names.now params (event_of_tree event.now) }
{
    event.pars.as_slice().len() == count_of(scope, &event.signal) as usize
        && all_reach(event.pars.as_slice(), params)
}

/// How many parameters the signal has.
pub fn count_of(scope: &Scope<'_>, signal: &Name) -> u8
    ensures { result ≡ params_of_name scope.now.names.now signal.now }
{
    match scope.signal_named(signal) {
        Some(signal) => signal.params,
        None => 0,
    }
}

fn all_reach(pars: &[Expr], params: u8) -> bool
    ensures { result ≡ list_all (λ e. reaches params (term_of e)) pars.now }
{
    pars.iter().all(|e| reaches(e, params))
}

/// Whether each parameter of the expression is numbered from 1 to `params`.
#[tactic(auto, unfolding(qp_chart_text::specs::Terms::term_of, crate::specs::Known::reaches))]
pub fn reaches(e: &Expr, params: u8) -> bool
    ensures { result ≡ reaches params (term_of e.now) }
{
    match e {
        Expr::Num(_) => true,
        Expr::Var(_) => true,
        Expr::Ok => true,
        Expr::Me => true,
        Expr::Par(j) => 1 <= *j && *j <= params,
        Expr::One(_, x) => reaches(x, params),
        Expr::Two(_, x, y) => {
            let left = reaches(x, params);
            left && reaches(y, params)
        }
    }
}
