//! Actions and guards of a chart, from their texts.
ghost use Rattle.std.specs.Prelude.{◌≡◌, ◌+◌, ◌≤◌, ◌∷◌, ◌++◌, [], length, Some, None, IfOk, IfErr};
ghost use Rattle.qp_chart_names.specs.declared.place.Part.TheVariants.{Key};
ghost use Rattle.qp_chart_names.specs.Keys.{WHEN};
ghost use Rattle.qp_chart_text.specs.Reading.{term_of_text};
ghost use Rattle.qp_chart_text.specs.Terms.{term_of, command_of};
ghost use Rattle.qp_chart_names.specs.Pairs.{Corresponds};
ghost use Rattle.qp_chart_names.specs.Faults.{IsChartFault};
ghost use Rattle.qp_chart_names.specs.ActionFaults.{action_fault, text_fault, texts_fault, when_fault, guard_fault};
ghost use Rattle.qp_chart.specs.ActionOf.{IsActOfCommand, IsActOfText, IsBoundOf, IsBoundOfText, IsGuardOf};

use crate::actions::{Act, Acts};
use crate::expression::Bound;
use crate::resolve::{bound, resolved};
use qp_chart_names::fit::{is_fit, is_in_range, is_known, reaches};
use qp_chart_names::{ChartFault, Part, Scope, code, key};
use qp_chart_text::{Action, Expr, ExprFault, Text, read_action, read_expr};
use std::alloc::Global;

/// The actions of the texts in the list at this key. `inside` is the number of parameters of the row's signal; `None` stands outside a row.
pub(crate) fn checked_acts(
    alloc: Global,
    scope: &Scope<'_>,
    inside: Option<u8>,
    at: &[Part],
    list: u8,
    texts: &[Text],
) -> Result<Acts, ChartFault>
    requires place { length at.now ≤ 6 }
    requires few { length texts.now ≤ 16 }
    ensures ok { IfOk result (λ acts. (texts_fault scope.now.names.now scope.now.chart.now inside at.now list texts.now ≡ None) ×
        Corresponds (IsActOfText scope.now.names.now scope.now.chart.now inside) texts.now acts) }
    ensures fault { IfErr result (IsChartFault (texts_fault scope.now.names.now scope.now.chart.now inside at.now list texts.now)) }
{
    let mut items = Vec::new(alloc);
    for (i, text) in texts.iter().enumerate() {
        let rest = [Part::Key(list), Part::Pos(i as u16 + 1)];
        let act = checked_act(alloc, scope, inside, at, &rest, text.as_str())?;
        items.push(act)?;
    }
    Ok(Acts { items })
}

/// The action of a text at the place that `rest` leads to from the place `at`.
fn checked_act(
    alloc: Global,
    scope: &Scope<'_>,
    inside: Option<u8>,
    at: &[Part],
    rest: &[Part],
    text: &str,
) -> Result<Act, ChartFault>
    requires { length at.now + length rest.now ≤ 8 }
    ensures ok { IfOk result (λ act. (text_fault scope.now.names.now scope.now.chart.now inside (at.now ++ rest.now) text.now ≡ None) ×
        IsActOfText scope.now.names.now scope.now.chart.now inside text.now act) }
    ensures fault { IfErr result (IsChartFault (text_fault scope.now.names.now scope.now.chart.now inside (at.now ++ rest.now) text.now)) }
{
    match read_action(alloc, text) {
        Ok(action) => act_of(alloc, scope, inside, at, rest, &action),
        Err(ExprFault::Memory) => Err(ChartFault::Memory),
        Err(ExprFault::Bad) => Err(ChartFault::below(code::BAD_TEXT, at, rest)),
    }
}

/// The checked action of an action at the place that `rest` leads to from the place `at`.
fn act_of(
    alloc: Global,
    scope: &Scope<'_>,
    inside: Option<u8>,
    at: &[Part],
    rest: &[Part],
    action: &Action,
) -> Result<Act, ChartFault>
    requires { length at.now + length rest.now ≤ 8 }
    ensures ok { IfOk result (λ act.
        (action_fault scope.now.names.now scope.now.chart.now inside (at.now ++ rest.now) (Some (command_of action.now)) ≡ None) ×
        IsActOfCommand scope.now.names.now scope.now.chart.now inside (command_of action.now) act) }
    ensures fault { IfErr result (IsChartFault
        (action_fault scope.now.names.now scope.now.chart.now inside (at.now ++ rest.now) (Some (command_of action.now)))) }
{
    if !is_known(scope, action) {
        return Err(ChartFault::below(code::NO_SUCH_NAME, at, rest));
    }
    if !is_in_range(scope, action) {
        return Err(ChartFault::below(code::RANGE, at, rest));
    }
    if !is_fit(scope, inside, action) {
        return Err(ChartFault::below(code::WRONG_ARITY, at, rest));
    }
    resolved(alloc, scope, inside, action)
}

/// The optional guard of a row at this place, whose signal has so many parameters.
pub(crate) fn checked_guard(
    alloc: Global,
    scope: &Scope<'_>,
    params: u8,
    at: &[Part],
    when: &Option<Text>,
) -> Result<Option<Bound>, ChartFault>
    requires { length at.now ≤ 6 }
    ensures ok { IfOk result (λ guard. (when_fault scope.now.chart.now params (at.now ++ Key WHEN ∷ []) when.now ≡ None) × IsGuardOf
        scope.now.chart.now params when.now guard) }
    ensures fault { IfErr result (IsChartFault (when_fault scope.now.chart.now params (at.now ++ Key WHEN ∷ []) when.now)) }
{
    match when {
        Some(text) => Ok(Some(checked_expr(alloc, scope, params, at, text.as_str())?)),
        None => Ok(None),
    }
}

/// The guard of this text.
fn checked_expr(
    alloc: Global,
    scope: &Scope<'_>,
    params: u8,
    at: &[Part],
    text: &str,
) -> Result<Bound, ChartFault>
    requires { length at.now ≤ 6 }
    ensures ok { IfOk result (λ b. (guard_fault scope.now.chart.now params (at.now ++ Key WHEN ∷ []) (term_of_text text.now) ≡ None) ×
        IsBoundOfText scope.now.chart.now params text.now b) }
    ensures fault { IfErr result (IsChartFault (guard_fault scope.now.chart.now params (at.now ++ Key WHEN ∷ []) (term_of_text text.now))) }
{
    let rest = [Part::Key(key::WHEN)];
    match read_expr(alloc, text) {
        Ok(e) => guard_of(alloc, scope, params, at, &e),
        Err(ExprFault::Memory) => Err(ChartFault::Memory),
        Err(ExprFault::Bad) => Err(ChartFault::below(code::BAD_TEXT, at, &rest)),
    }
}

/// The guard of this expression.
fn guard_of(
    alloc: Global,
    scope: &Scope<'_>,
    params: u8,
    at: &[Part],
    e: &Expr,
) -> Result<Bound, ChartFault>
    requires { length at.now ≤ 6 }
    ensures ok { IfOk result (λ b. (guard_fault scope.now.chart.now params (at.now ++ Key WHEN ∷ []) (Some (term_of e.now)) ≡ None) ×
        IsBoundOf scope.now.chart.now params (term_of e.now) b) }
    ensures fault { IfErr result (IsChartFault (guard_fault scope.now.chart.now params (at.now ++ Key WHEN ∷ []) (Some (term_of e.now)))) }
{
    let rest = [Part::Key(key::WHEN)];
    if !scope.knows(e) {
        return Err(ChartFault::below(code::NO_SUCH_NAME, at, &rest));
    }
    if !reaches(e, params) {
        return Err(ChartFault::below(code::WRONG_ARITY, at, &rest));
    }
    bound(alloc, scope, params, e)
}
