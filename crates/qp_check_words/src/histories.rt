//! The operations of one word, in the order of their numbers.

ghost use Rattle.std.specs.Prelude.{◌≡◌, ◌≤◌, ◌^◌, ◌++◌, IfOk, OnOk};
ghost use Rattle.std.specs.List.{list_all};
ghost use Rattle.qp_model.specs.History.{touch};
ghost use Rattle.qp_model.specs.Record.{item_of};
ghost use Rattle.qp_check_lanes.specs.Groups.{groups_joined};
ghost use Rattle.qp_check_words.specs.Marks.{by_number, draw_count, draws_number, draws_below, history_of, has_one, numbers_hold};

use crate::marks::{DrawnNumber, Mark, mark_of};
use qp_check_lanes::groups::{Group, Groups, grouped};
use qp_model::Rec;
use std::alloc::{AllocError, Global};

/// Whether the numbers that records on one word draw are 0, 1 and so on, each once.
#[tactic(auto, unfolding(crate::specs::Marks::numbers_hold))]
pub fn numbers_hold(alloc: Global, touched: &Group) -> Result<bool, AllocError>
    ensures holds { IfOk result (λ b. b ≡ numbers_hold touched.now) }
    ensures few { draw_count touched.now ≤ 2 ^ 64 }
{
    if !all_below(touched, draw_count(touched)) {
        return Ok(false);
    }
    let groups = by_number(alloc, touched)?;
    Ok(all_single(&groups))
}

/// The records that draw a word's numbers, in their order. Where a number is drawn twice, they stand
/// one after another.
#[tactic(auto, unfolding(crate::specs::Marks::history_of))]
pub fn history<'a>(alloc: Global, touched: &Group<'a>) -> Result<Group<'a>, AllocError>
    ensures history { IfOk result (λ h. h ≡ history_of touched.now) }
    ensures few { draw_count touched.now ≤ 2 ^ 64 }
{
    let groups = by_number(alloc, touched)?;
    all_of(alloc, &groups)
}

#[tactic(auto, unfolding(crate::specs::Marks::by_number))]
fn by_number<'a>(alloc: Global, touched: &Group<'a>) -> Result<Groups<'a>, AllocError>
    ensures groups { IfOk result (λ g. g ≡ by_number touched.now) }
    ensures few { draw_count touched.now ≤ 2 ^ 64 }
{
    grouped(alloc, touched, draw_count(touched), &DrawnNumber)
}

/// How many of the records draw a number.
pub fn draw_count(touched: &Group) -> usize
    ensures { result ≡ draw_count touched.now }
{
    let mut count = 0;
    for r in &touched.items {
        if is_drawn(r) {
            count += 1;
        }
    }
    count
}

fn is_drawn(r: &Rec) -> bool
    ensures { result ≡ draws_number (touch (item_of r.now)) }
{
    match mark_of(r) {
        Mark::Drawn(_) => true,
        Mark::Shown(_) | Mark::Unmarked => false,
    }
}

/// Whether each number drawn is below `count`.
fn all_below(touched: &Group, count: usize) -> bool
    ensures { result ≡ list_all (λ i. draws_below count (touch i)) touched.now }
{
    for r in &touched.items {
        if !is_below(r, count) {
            return false;
        }
    }
    true
}

fn is_below(r: &Rec, count: usize) -> bool
    ensures { result ≡ draws_below count (touch (item_of r.now)) }
{
    match mark_of(r) {
        Mark::Drawn(n) => n > 0 && n <= count as u128,
        Mark::Shown(_) | Mark::Unmarked => true,
    }
}

fn all_single(groups: &Groups) -> bool
    ensures { result ≡ list_all has_one groups.now }
{
    for g in &groups.items {
        if g.items.len() != 1 {
            return false;
        }
    }
    true
}

/// The records of all groups, one group after another.
fn all_of<'a>(alloc: Global, groups: &Groups<'a>) -> Result<Group<'a>, AllocError>
    ensures { IfOk result (λ h. h ≡ groups_joined groups.now) }
{
    let mut all = Group::new(alloc);
    for g in &groups.items {
        put_all(&mut all, g)?;
    }
    Ok(all)
}

fn put_all<'a>(all: &mut Group<'a>, g: &Group<'a>) -> Result<(), AllocError>
    ensures { OnOk result (all.new ≡ all.old ++ g.now) }
{
    for r in &g.items {
        all.put(r)?;
    }
    Ok(())
}
