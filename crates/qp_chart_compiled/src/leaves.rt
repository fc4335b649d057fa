//! The rows that may handle an event at a leaf, each with its agenda.

ghost use Rattle.std.specs.Prelude.{◌≡◌, ◌+◌, ◌≤◌, [], ◌∷◌, IfOk, Some};
ghost use Rattle.std.specs.List.{filter};
ghost use Rattle.qp_chart.specs.StateTree.{state_at};
ghost use Rattle.qp_chart.specs.Handler.{rows_of};
ghost use Rattle.qp_chart_compiled.specs.Codes.{row_at, tasks_at};
ghost use Rattle.qp_chart_compiled.specs.Rows.{rows_from, rows_on, leaves_rest};
ghost use Rattle.qp_chart_compiled.specs.Building.{Offers, MakesLeaf};

use crate::choice::{Choice, Choices, Leaf};
use crate::code::Code;
use crate::plans::place_step;
use qp_chart::{Chart, Row};
use qp_chart_tree::{path_of, rows_of};
use std::alloc::{AllocError, Global};

/// Where rows are offered: at a leaf of a chart, for the signals that leave this rest, divided by the width.
#[derive(Clone, Copy)]
struct Site<'a> {
    chart: &'a Chart,
    leaf: u8,
    width: usize,
    rest: usize,
    ghost some: { 1 ≤ width },
}

/// Whether a row is for a signal of the site.
fn is_in(site: &Site<'_>, row: &Row) -> bool
    ensures { result ≡ leaves_rest site.now.width site.now.rest (record { state = 0; place = 0; row = row.now }) }
{
    usize::from(row.on()) % site.width == site.rest
}

/// The place of a row, from 1. There is none above 255.
fn place_of(at: usize) -> Result<u8, AllocError>
    ensures { IfOk result (λ place. place ≡ at + 1) }
{
    if at >= 255 {
        return Err(AllocError);
    }
    Ok(at as u8 + 1)
}

/// Adds the row at this place of a state, from 0, where it is for a signal of the site.
fn offer_row(
    alloc: Global,
    site: &Site<'_>,
    state: u8,
    at: usize,
    row: &Row,
    codes: &mut Vec<Code>,
    choices: &mut Vec<Choice>,
) -> Result<(), AllocError>
    requires { row_at site.now.chart.now state (at + 1) ≡ Some row.now }
    ensures { IfOk result (λ _. Offers site.now.chart.now site.now.leaf (filter (leaves_rest site.now.width site.now.rest)
        (record { state = state; place = at + 1; row = row.now } ∷ [])) (tasks_at site.now.chart.now codes.old.items)
        (tasks_at site.now.chart.now codes.new.items) choices.old.items choices.new.items) }
{
    if !is_in(site, row) {
        return Ok(());
    }
    let place = place_of(at)?;
    let plan = place_step(alloc, site.chart, site.leaf, state, place, row, codes)?;
    choices.push(Choice { state, place, plan })?;
    Ok(())
}

/// Adds the rows of a state that are for signals of the site.
fn offer_rows(
    alloc: Global,
    site: &Site<'_>,
    state: u8,
    codes: &mut Vec<Code>,
    choices: &mut Vec<Choice>,
) -> Result<(), AllocError>
    ensures { IfOk result (λ _. Offers site.now.chart.now site.now.leaf (filter (leaves_rest site.now.width site.now.rest)
        (rows_from state 1 (rows_of (state_at site.now.chart.now state)))) (tasks_at site.now.chart.now codes.old.items)
        (tasks_at site.now.chart.now codes.new.items) choices.old.items choices.new.items) }
{
    let rows = rows_of(site.chart, state);
    for (at, row) in rows.iter().enumerate() {
        offer_row(alloc, site, state, at, row, codes, choices)?;
    }
    Ok(())
}

/// The rows on a path that are for signals of the site, inner states first.
fn choices_on(
    alloc: Global,
    site: &Site<'_>,
    path: &[u8],
    codes: &mut Vec<Code>,
) -> Result<Choices, AllocError>
    ensures { IfOk result (λ made. Offers site.now.chart.now site.now.leaf (filter (leaves_rest site.now.width site.now.rest)
        (rows_on site.now.chart.now path.now)) (tasks_at site.now.chart.now codes.old.items) (tasks_at site.now.chart.now codes.new.items)
        [] made.items.items) }
{
    let mut items = Vec::new(alloc);
    for s in path {
        offer_rows(alloc, site, *s, codes, &mut items)?;
    }
    Ok(Choices { items })
}

/// The choices of a leaf.
pub(crate) fn leaf_of(
    alloc: Global,
    chart: &Chart,
    leaf: u8,
    width: usize,
    codes: &mut Vec<Code>,
) -> Result<Leaf, AllocError>
    requires { 1 ≤ width }
    ensures { IfOk result (λ made. MakesLeaf chart.now width leaf (tasks_at chart.now codes.old.items) (tasks_at chart.now codes.new.items)
        made.classes.items) }
{
    let path = path_of(alloc, chart, leaf)?;
    let mut classes = Vec::new(alloc);
    for rest in 0..width {
        let site = Site {
            chart,
            leaf,
            width,
            rest,
        };
        let made = choices_on(alloc, &site, path.as_slice(), codes)?;
        classes.push(made)?;
    }
    Ok(Leaf { classes })
}
