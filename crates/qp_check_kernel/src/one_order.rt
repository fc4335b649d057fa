//! The one order of a run with one thread.

ghost use Rattle.std.specs.Prelude.{◌≡◌, ◌++◌, ◌&&◌, ◌||◌, not, true, [], ℕ, map, IsTrue, ◌↔◌, IfOk, OnOk, if◌then◌else◌};
ghost use Rattle.std.specs.List.{list_all, list_any, filter};
ghost use Rattle.std.specs.Option.{option_map, option_map_or};
ghost use Rattle.qp_model.specs.History.{lane_items};
ghost use Rattle.qp_model.specs.Record.{item_of};
ghost use Rattle.qp_model.specs.OneOrder.{IsOneOrder, OneThread, look_numbers, look_of, looks_right, order, parts_of_look, spills_from};
ghost use Rattle.qp_model.specs.Places.{in_order};
ghost use Rattle.qp_check_kernel.specs.AsPlaced.{as_placed, said_at};
ghost use Rattle.qp_check_kernel.specs.OneOrder.{has_no_turn, last_of, run_of};
ghost use Rattle.qp_check_kernel.specs.OrderTurns.{RunsAs};
ghost use Rattle.qp_check_kernel.specs.StimulusIndex.{parts_at, lane_with_parts};
ghost use Rattle.qp_model.specs.Ends.{ends_last, is_spill as spills, spills_in as spilt};

use crate::order_looks::{last_look_is_free, looks, stims_stand};
use crate::order_tests::{nothing_follows, numbers_stand};
use crate::order_turns::Run;
use crate::stimulus_index::{Index, Order, Placed};
use qp_check_lanes::lane_parts::spills_in;
use qp_check_lanes::record_tests::is_spill;
use qp_model::{Body, Lane, Rec, Stimuli, System};
use std::alloc::{AllocError, Global};

/// The number of a `look`.
#[tactic(auto, unfolding(qp_model::specs::Record::item_of))]
pub fn look_number(r: &Rec) -> Option<u64>
    ensures { result ≡ option_map (λ l. l.0) (look_of (item_of r.now).body) }
{
    match r.body() {
        Body::Look { k, .. } => Some(k),
        _ => None,
    }
}

/// Lane 0 with the records of each look right after it.
fn with_parts<'a>(
    alloc: Global,
    lane0: &'a [Rec],
    index: &Index<'a>,
) -> Result<Order<'a>, AllocError>
    ensures { IfOk result (λ o. o ≡ lane_with_parts (parts_at index.now) (lane_items lane0.now)) }
{
    let mut order = Order::none(alloc);
    for rec in lane0 {
        order.put(Placed { lane: 0, rec })?;
        index.put_look(look_number(rec), &mut order)?;
    }
    Ok(order)
}

/// Puts the `spill` records of a lane behind others.
fn put_spills<'a>(order: &mut Order<'a>, lane: usize, records: &'a [Rec]) -> Result<(), AllocError>
    ensures { OnOk result (order.new ≡ order.old ++ map (λ i. record { lane = lane; item = i })
        (filter (λ i. spills i.body) (lane_items records.now))) }
{
    for rec in records {
        order.put_if(is_spill(rec), Placed { lane, rec })?;
    }
    Ok(())
}

/// Puts the `spill` records of all sources behind others.
fn put_all_spills<'a>(order: &mut Order<'a>, sources: &'a [Lane]) -> Result<(), AllocError>
    ensures { OnOk result (order.new ≡ order.old ++ spills_from 1 (map (λ lane. lane_items lane) sources.now)) }
{
    for (n, lane) in sources.iter().enumerate() {
        put_spills(order, n + 1, &lane.items)?;
    }
    Ok(())
}

/// The same where they are put at the end.
fn put_rest<'a>(order: &mut Order<'a>, cuts: bool, sources: &'a [Lane]) -> Result<(), AllocError>
    ensures { OnOk result (order.new ≡ order.old ++ (if cuts then [] else spills_from 1 (map (λ lane. lane_items lane) sources.now))) }
{
    if cuts {
        Ok(())
    } else {
        put_all_spills(order, sources)
    }
}

/// The order of all records; a `spill` behind a whole stimulus of a source is put at the end.
#[tactic(auto, unfolding(qp_model::specs::OneOrder::order))]
fn ordered<'a>(
    alloc: Global,
    cuts: bool,
    lane0: &'a [Rec],
    sources: &'a [Lane],
    index: &Index<'a>,
) -> Result<Order<'a>, AllocError>
    requires { (k : ℕ) → parts_at index.now k ≡ parts_of_look 1 k cuts (map (λ lane. lane_items lane) sources.now) }
    ensures { IfOk result (λ o. o ≡ order cuts (lane_items lane0.now) (map (λ lane. lane_items lane) sources.now)) }
{
    let mut order = with_parts(alloc, lane0, index)?;
    put_rest(&mut order, cuts, sources)?;
    Ok(order)
}

fn some_spills(sources: &[Lane]) -> bool
    ensures { result ≡ list_any (λ lane. spilt (lane_items lane)) sources.now }
{
    sources.iter().any(|lane| spills_in(&lane.items))
}

/// Whether each look has its stimulus, each number is the next, and nothing follows an end.
fn order_stands(alloc: Global, run: &Run, order: &[Placed]) -> Result<bool, AllocError>
    ensures { IfOk result (λ b. (r : OneThread) → RunsAs run.now r → b ≡ (looks_right r [] (map as_placed order.now) && in_order []
        (map said_at order.now) && ends_last (map said_at order.now))) }
{
    let turns = run.looks_stand(alloc, order)?;
    let numbers = numbers_stand(alloc, order)?;
    Ok(turns && numbers && nothing_follows(order))
}

/// Whether the last look has no stimulus where a `spill` is put at the end.
fn end_is_free(index: &Index, lane0: &[Rec], cuts: bool, late: bool) -> bool
    ensures { result ≡ (cuts || not late || option_map_or (has_no_turn (parts_at index.now)) (last_of (look_numbers (lane_items lane0.now))) true) }
{
    cuts || !late || last_look_is_free(index, lane0)
}

fn has_one_order<'r, 'a>(
    alloc: Global,
    run: &Run<'r, 'a>,
    cuts: bool,
    lane0: &'a [Rec],
    sources: &'a [Lane],
    late: bool,
) -> Result<bool, AllocError>
    requires run { RunsAs run.now (run_of run.now.sys.now run.now.stimuli.now cuts lane0.now sources.now) }
    requires late { late ≡ list_any (λ lane. spilt (lane_items lane)) sources.now }
    ensures { IfOk result (λ b. IsTrue b ↔ IsOneOrder (run_of run.now.sys.now run.now.stimuli.now cuts lane0.now sources.now)) }
{
    let index = run.index;
    let order = ordered(alloc, cuts, lane0, sources, index)?;
    let stands = order_stands(alloc, run, &order.items)?;
    let looks = looks(alloc, lane0)?;
    let placed = stims_stand(&looks, sources);
    let free = end_is_free(index, lane0, cuts, late);
    Ok(placed && stands && free)
}

/// Whether the records of a run with one thread have one order in which it could have made them. A `spill` of a source stands within
/// its stimulus where it `cuts` one, and else behind it.
pub fn is_one_order<'a>(
    alloc: Global,
    sys: &System,
    stim: &Stimuli,
    cuts: bool,
    lane0: &'a [Rec],
    sources: &'a [Lane],
) -> Result<bool, AllocError>
    ensures { IfOk result (λ b. IsTrue b ↔ IsOneOrder (run_of sys.now stim.now cuts lane0.now sources.now)) }
{
    let index = Index::of(alloc, cuts, sources)?;
    let late = some_spills(sources);
    let run = Run {
        sys,
        stimuli: &stim.sources,
        index: &index,
        spills: spills_in(lane0) || late,
    };
    has_one_order(alloc, &run, cuts, lane0, sources, late)
}
