//! The lines of objects.

ghost use Rattle.std.specs.Prelude.{◌≡◌, ◌<◌, ◌≤◌, ◌+◌, ◌++◌, ◌∷◌, codes, decimal, IfOk, IfSome, List, OnOk, Some, string_bytes};
ghost use Rattle.std.specs.List.{AllByRecursion};
ghost use Rattle.qp_check_course.specs.Followable.{IsFollowable};
ghost use Rattle.qp_check_course.specs.Reading.{CanRead};
ghost use Rattle.qp_check_course.specs.Standing.{StandsAt};
ghost use Rattle.qp_check_knowledge.specs.Knowledge.{IsKnowledgeOf, HasItsTables, known_facts};
ghost use Rattle.qp_model.specs.Course.{chart_at};
ghost use Rattle.qp_model.specs.History.{lane_items};
ghost use Rattle.qp_model.specs.Knowing.{records_of};
ghost use Rattle.qp_model.specs.Lawful.{CourseHolds, dispatched};
ghost use Rattle.qp_model.specs.OutputSummary.{AreObjectLines, IsObjectLine, IsStateText, is_took, name_in, values_text};
ghost use Rattle.qp_summary.specs.Coming.{CourseComesTo, HasCome};
ghost use Rattle.qp_model.specs.Told as telling;
ghost use Rattle.qp_chart.specs.declared.checked.Chart as chart;

use crate::coming::Came;
use crate::lines::Lines;
use qp_chart::{Chart, Name};
use qp_check_calls::Told;
use qp_check_course::{CourseReading, Standing, chart_at};
use qp_check_knowledge::knowledge::Knowledge;
use qp_check_knowledge::told_lists::{is_turn_mark, told_by};
use qp_check_lanes::lane_parts::{home_lane, lane_at};
use qp_model::{Body, Journal, ObjectDef, Rec, System, ceiling_after};
use std::alloc::{AllocError, Global};

/// Appends each variable with its value, after a space.
fn push_values(text: &mut String, vars: &[(Name, i64)], values: &[i64]) -> Result<(), AllocError>
    ensures { OnOk result (string_bytes text.new ≡ string_bytes text.old ++ values_text vars.now values.now) }
{
    match vars {
        [] => Ok(()),
        [(name, _), vars @ ..] => match values {
            [] => Ok(()),
            [value, values @ ..] => {
                let name = name.as_str();
                write!(text, " {name}={value}")?;
                push_values(text, vars, values)
            }
        },
    }
}

/// The state and the variables of an object.
pub(crate) fn standing_text(
    alloc: Global,
    chart: &Chart,
    leaf: u8,
    values: &[i64],
) -> Result<String, AllocError>
    ensures { IfOk result (λ text. string_bytes text ≡ name_in chart.now.state leaf ++ values_text chart.now.vars values.now) }
{
    let mut text = String::new(alloc);
    let place = usize::from(leaf).saturating_sub(1);
    match chart.state().get(place) {
        Some(state) => text.push_str(state.name().as_str())?,
        None => {}
    }
    push_values(&mut text, chart.vars(), values)?;
    Ok(text)
}

/// The same of an object with its chart.
fn standing_line(
    alloc: Global,
    sys: &System,
    d: &ObjectDef,
    standing: &Standing,
) -> Result<String, AllocError>
    requires { IsFollowable sys.now d.now }
    ensures { IfOk result (λ text. (chart : chart.Chart) → chart_at sys.now d.now.chart ≡ Some chart → string_bytes text ≡ name_in
        chart.state standing.now.leaf ++ values_text chart.vars standing.now.vars.items) }
{
    match chart_at(sys, d.chart) {
        Some(chart) => standing_text(alloc, chart, standing.leaf, &standing.vars),
        None => Ok(String::new(alloc)),
    }
}

/// What is told of an object that stands there.
fn state_text(
    alloc: Global,
    sys: &System,
    d: &ObjectDef,
    stands: Option<Standing>,
) -> Result<String, AllocError>
    requires { IsFollowable sys.now d.now }
    ensures { IfOk result (λ text. (ts : List telling.Told) → StandsAt sys.now d.now (dispatched ts) stands → IsStateText sys.now d.now
        (chart_at sys.now d.now.chart) ts (string_bytes text)) }
{
    match stands {
        Some(standing) => standing_line(alloc, sys, d, &standing),
        None => String::from_str(alloc, "-"),
    }
}

fn is_took(t: &Told) -> bool
    ensures { result ≡ is_took t.now.body }
{
    matches!(t.body, Body::Took { .. })
}

/// What one record more makes of an object; None where it can't come next.
fn told_next<'a>(alloc: Global, came: Came<'a>, told: &Told) -> Result<Option<Came<'a>>, AllocError>
    requires few { came.taken < 18446744073709551615 }
    requires can { CanRead came.course }
    ensures comes { IfOk result (λ later. CourseComesTo came.entry told.now later) }
    ensures few { IfOk result (λ later. IfSome later (λ x. x.taken ≤ came.entry.taken + 1)) }
{
    if is_turn_mark(&told.body) {
        return Ok(Some(came));
    }
    let Came { taken, course } = came;
    let count = if is_took(told) { taken + 1 } else { taken };
    let next = course.read(alloc, told)?;
    match next {
        Some(course) => Ok(Some(Came {
            taken: count,
            course,
        })),
        None => Ok(None),
    }
}

/// How far an object has come by the records of its lane; None where they don't follow its chart.
fn read_lane<'a>(
    alloc: Global,
    knowledge: &Knowledge,
    sys: &'a System,
    d: &ObjectDef,
    lane: &[Rec],
) -> Result<Option<Came<'a>>, AllocError>
    requires known { HasItsTables knowledge.now }
    requires followable { IsFollowable sys.now d.now }
    ensures { IfOk result (λ came. HasCome sys.now d.now (records_of (known_facts knowledge.now) d.now.priority 0 (lane_items lane.now)) came) }
{
    let Some(course) = CourseReading::begin(alloc, sys, d)? else {
        return Ok(None);
    };
    let mut came = Came { taken: 0, course };
    let mut ceiling = 0;
    for r in lane {
        if r.of == d.priority {
            let told = told_by(alloc, knowledge, d.priority, ceiling, r)?;
            let next = told_next(alloc, came, &told)?;
            match next {
                Some(later) => came = later,
                None => return Ok(None),
            }
        }
        ceiling = ceiling_after(ceiling, r);
    }
    Ok(Some(came))
}

pub(crate) fn line_of(
    alloc: Global,
    name: &str,
    taken: usize,
    text: &str,
) -> Result<String, AllocError>
    ensures { IfOk result (λ line. string_bytes line ≡ codes "object " ++ name.now ++ 32 ∷ decimal taken ++ 32 ∷ text.now ++ codes "\n") }
{
    format!(in alloc; "object {name} {taken} {text}\n")
}

/// The line of an object.
fn object_line(
    alloc: Global,
    knowledge: &Knowledge,
    sys: &System,
    j: &Journal,
    d: &ObjectDef,
) -> Result<String, AllocError>
    requires known { IsKnowledgeOf knowledge.now sys.now j.now }
    requires followable { IsFollowable sys.now d.now }
    requires course { CourseHolds sys.now j.now d.now }
    ensures { IfOk result (λ line. IsObjectLine sys.now j.now d.now (string_bytes line)) }
{
    let home = home_lane(sys, j, d.priority);
    let read = read_lane(alloc, knowledge, sys, d, lane_at(j, home))?;
    match read {
        Some(came) => {
            let Came { taken, course } = came;
            let text = state_text(alloc, sys, d, course.standing())?;
            line_of(alloc, d.name.as_str(), taken, &text)
        }
        None => Ok(String::new(alloc)),
    }
}

/// The lines of all objects, in ascending priority.
pub(crate) fn object_lines(
    alloc: Global,
    knowledge: &Knowledge,
    sys: &System,
    j: &Journal,
) -> Result<Lines, AllocError>
    requires known { IsKnowledgeOf knowledge.now sys.now j.now }
    requires followable { AllByRecursion (IsFollowable sys.now) sys.now.objects }
    requires courses { AllByRecursion (CourseHolds sys.now j.now) sys.now.objects }
    ensures { IfOk result (λ lines. AreObjectLines sys.now j.now sys.now.objects lines) }
{
    let mut lines = Lines::none(alloc);
    for d in &sys.objects.items {
        lines.push(object_line(alloc, knowledge, sys, j, d)?)?;
    }
    Ok(lines)
}
