//! The lines of objects of which the run tells where they rest.

ghost use Rattle.std.specs.Prelude.{◌≡◌, IfOk, IfSome, List, Some, string_bytes};
ghost use Rattle.std.specs.List.{AllByRecursion};
ghost use Rattle.std.specs.Option.{option_copied};
ghost use Rattle.qp_model.specs.Course.{chart_at};
ghost use Rattle.qp_model.specs.History.{lane_items};
ghost use Rattle.qp_model.specs.Home.{by_object, home_of, lane_at as lane_of};
ghost use Rattle.qp_model.specs.Lawful.{facts_of};
ghost use Rattle.qp_model.specs.OutputSummary.{AreObjectLines, IsObjectLine, IsStateText, all_done};
ghost use Rattle.qp_model.specs.Told.{Told};
ghost use Rattle.qp_kernel_end.specs.Rests.{AreRestsIn, IsRestOf};
ghost use Rattle.qp_summary.specs.Resting.{LeavesRest};
ghost use Rattle.qp_summary.specs.Counting.{AreTurns};

use crate::TurnCounts;
use crate::lines::Lines;
use crate::objects::{line_of, standing_text};
use qp_chart::Chart;
use qp_check_course::chart_at;
use qp_check_lanes::lane_parts::{home_lane, lane_at};
use qp_kernel_end::{Rest, rest_at};
use qp_model::kernels::PORT;
use qp_model::{Journal, ObjectDef, System};
use std::alloc::{AllocError, Global};

/// What is told of an object; None where its start and all its steps are done, and nothing is known of where it rests.
fn known_text(
    alloc: Global,
    chart: &Chart,
    is_done: bool,
    rest: Option<&Rest>,
) -> Result<Option<String>, AllocError>
    ensures { IfOk result (λ text. IfSome text (λ text. (sys : System) (d : ObjectDef) (ts : List Told) → chart_at sys d.chart ≡ Some chart.now
        → is_done ≡ all_done ts → LeavesRest sys d chart.now ts (option_copied rest.entry) → IsStateText sys d (chart_at sys d.chart) ts (string_bytes text))) }
{
    if !is_done {
        return Ok(Some(String::from_str(alloc, "-")?));
    }
    match rest {
        Some(rest) => Ok(Some(standing_text(alloc, chart, rest.leaf, &rest.vars)?)),
        None => Ok(None),
    }
}

/// The line of an object, by the turns of the lane in which it works.
fn known_line(
    alloc: Global,
    sys: &System,
    j: &Journal,
    turns: &TurnCounts,
    rests: &[Rest],
    d: &ObjectDef,
) -> Result<Option<String>, AllocError>
    requires turns { AreTurns turns.now (lane_items (lane_of j.now (home_of sys.now j.now d.now.priority))) }
    requires rests { AllByRecursion (IsRestOf sys.now d.now (by_object (facts_of sys.now j.now) j.now d.now.priority)) rests.now }
    ensures { IfOk result (λ line. IfSome line (λ line. IsObjectLine sys.now j.now d.now (string_bytes line))) }
{
    let _ = j;
    match chart_at(sys, d.chart) {
        Some(chart) => match turns.taken(d.priority) {
            Some(taken) => match turns.done(d.priority) {
                Some(done) => match known_text(
                    alloc,
                    chart,
                    done == taken + 1,
                    rest_at(rests, d.priority),
                )? {
                    Some(text) => Ok(Some(line_of(alloc, d.name.as_str(), taken, &text)?)),
                    None => Ok(None),
                },
                None => Ok(None),
            },
            None => Ok(None),
        },
        None => Ok(None),
    }
}

/// The same, by the turns of lane 0, unless the object works in a lane of its own.
fn line_at_home(
    alloc: Global,
    sys: &System,
    j: &Journal,
    first: &TurnCounts,
    rests: &[Rest],
    d: &ObjectDef,
) -> Result<Option<String>, AllocError>
    requires first { AreTurns first.now (lane_items (lane_of j.now 0)) }
    requires rests { AllByRecursion (IsRestOf sys.now d.now (by_object (facts_of sys.now j.now) j.now d.now.priority)) rests.now }
    ensures { IfOk result (λ line. IfSome line (λ line. IsObjectLine sys.now j.now d.now (string_bytes line))) }
{
    if j.kernel != PORT {
        return known_line(alloc, sys, j, first, rests, d);
    }
    let turns = TurnCounts::of(alloc, lane_at(j, home_lane(sys, j, d.priority)))?;
    known_line(alloc, sys, j, &turns, rests, d)
}

/// The lines of all objects in ascending priority, where none needs to be read.
pub(crate) fn known_lines(
    alloc: Global,
    sys: &System,
    j: &Journal,
    rests: &[Rest],
) -> Result<Option<Lines>, AllocError>
    requires rests { AreRestsIn sys.now j.now rests.now }
    ensures { IfOk result (λ lines. IfSome lines (λ lines. AreObjectLines sys.now j.now sys.now.objects lines)) }
{
    let first = TurnCounts::of(alloc, lane_at(j, 0))?;
    let mut lines = Lines::none(alloc);
    for d in &sys.objects.items {
        match line_at_home(alloc, sys, j, &first, rests, d)? {
            Some(line) => lines.push(line)?,
            None => return Ok(None),
        }
    }
    Ok(Some(lines))
}
