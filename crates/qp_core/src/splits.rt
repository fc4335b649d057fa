//! Seats are split off and joined.

ghost use Rattle.std.specs.Prelude.{◌≡◌, ◌<◌, ◌==◌, ◌&&◌, ◌++◌, [], ◌∷◌, IfOk, OnOk, OnErr, Some, length, slice_get, slice_set};
ghost use Rattle.std.specs.List.{filter, list_any, list_all, position};
ghost use Rattle.qp_table.specs.Rule.{on_queue};
ghost use Rattle.qp_core_steps.specs.Words.{StepsAs};
ghost use Rattle.qp_core.specs.Standing.{has_number};
ghost use Rattle.qp_core.specs.State.{is_in_set, serves_set, may_pass, may_split, in_part, out_part, giving_up, first_logs, split_off, may_join, joining, Joins, StepsSeat};
ghost use Rattle.qp_core_steps.specs.declared.seats.Seat.{Seat as ASeat};

use crate::state::{bare, empty_log, seat_place};
use qp_base::Memory;
use qp_core_steps::words::Words;
use qp_core_steps::{
    Glances, Items, Op, Seat, SeatGive, SeatLog, copy_of_give, no_items, serves_it, step,
};
use qp_model::{Entry, System};
use qp_table::{CellPlace, Fill, Serve, Spot};
use std::alloc::Global;
use std::mem;

/// Whether the object is in the set: bit `a - 1`.
fn in_set(set: u32, a: u64) -> bool
    ensures { result ≡ is_in_set set a }
{
    0 < a && a <= 32 && (set >> (a - 1)) & 1 == 1
}

/// Whether the seat serves those of the objects up to `n` that are in the set.
#[tactic(auto, unfolding(crate::specs::State::serves_set))]
fn serves_set(seat: &Seat, set: u32, n: u8) -> bool
    ensures { result ≡ serves_set n set seat.now.serves }
{
    n == 0 || (!in_set(set, u64::from(n)) || serves_it(seat, n)) && serves_set(seat, set, n - 1)
}

/// Whether no last-in post and no take of the object was made.
fn is_fresh(x: &Serve) -> bool
    ensures { result ≡ ((x.now.lifos == 0) && (x.now.takes == 0)) }
{
    x.lifos == 0 && x.takes == 0
}

/// Whether a take of the object is under way.
fn is_under_way(takes: &Items<CellPlace>, a: u64) -> bool
    ensures { result ≡ list_any (on_queue a) takes.now }
{
    takes.items.iter().any(|t| t.queue == a)
}

/// Whether the object isn't in the set, or may be handed over.
fn may_pass(takes: &Items<CellPlace>, set: u32, x: &Serve) -> bool
    ensures { result ≡ may_pass takes.now set x.now }
{
    !in_set(set, x.object) || is_fresh(x) && !is_under_way(takes, x.object)
}

/// Whether the objects in the set may be handed over.
fn may_all_pass(seat: &Seat, set: u32) -> bool
    ensures { result ≡ list_all (may_pass seat.now.takes set) seat.now.serves }
{
    let takes = &seat.takes;
    seat.serves.items.iter().all(|x| may_pass(takes, set, x))
}

/// Whether a seat of this number stands or stood.
fn is_known(seats: &Items<Seat>, number: u32) -> bool
    ensures { result ≡ list_any (has_number number) seats.now }
{
    seats.items.iter().any(|x| x.number == number)
}

/// Whether the seat may split off the seat `into`, which serves the objects in the set.
fn may_split(seats: &Items<Seat>, seat: &Seat, into: u32, set: u32) -> bool
    ensures { result ≡ may_split seats.now seat.now into set }
{
    !is_known(seats, into) && serves_set(seat, set, 32) && may_all_pass(seat, set)
}

/// The objects that are handed over.
fn among(alloc: Global, serves: &Items<Serve>, set: u32) -> Result<Items<Serve>, Memory>
    ensures { IfOk result (λ xs. xs ≡ filter (in_part set) serves.now) }
{
    let items = serves
        .items
        .iter()
        .copied()
        .filter(|x| in_set(set, x.object))
        .collect(alloc)
        .map_err(|_| Memory)?;
    Ok(Items { items })
}

/// The lane that a seat begins with.
fn first_logs(alloc: Global, lanes: u32, number: u32) -> Result<Items<SeatLog>, Memory>
    ensures { IfOk result (λ gs. gs ≡ first_logs lanes number) }
{
    let mut logs = no_items(alloc);
    if number < lanes {
        logs.items
            .push(empty_log(alloc, number))
            .map_err(|_| Memory)?;
    }
    Ok(logs)
}

/// The seat that is split off, which has seen what the other has.
fn split_off(alloc: Global, lanes: u32, into: u32, set: u32, seat: &Seat) -> Result<Seat, Memory>
    ensures { IfOk result (λ x. x ≡ split_off lanes into set seat.now) }
{
    let serves = among(alloc, &seat.serves, set)?;
    let logs = first_logs(alloc, lanes, into)?;
    let mut part = bare(alloc, into, true);
    part.serves = serves;
    part.logs = logs;
    part.seen = Glances::joined(&part.seen, &seat.seen);
    Ok(part)
}

/// The objects that aren't handed over.
fn others(alloc: Global, serves: &Items<Serve>, set: u32) -> Result<Items<Serve>, Memory>
    ensures { IfOk result (λ xs. xs ≡ filter (out_part set) serves.now) }
{
    let items = serves
        .items
        .iter()
        .copied()
        .filter(|x| !in_set(set, x.object))
        .collect(alloc)
        .map_err(|_| Memory)?;
    Ok(Items { items })
}

/// Adds a seat.
pub fn add_seat(seats: &mut Items<Seat>, seat: Seat) -> Result<(), Memory>
    ensures ok { OnOk result (seats.new ≡ seats.old ++ seat ∷ []) }
    ensures err { OnErr result (seats.new ≡ seats.old) }
{
    seats.items.push(seat).map_err(|_| Memory)
}

/// The seat at a place.
fn seat_at(seats: &Items<Seat>, at: usize) -> &Seat
    requires { at < length seats.now }
    ensures { slice_get seats.now at ≡ Some result.now }
{
    &seats.items[at]
}

/// Puts a seat at a place, and answers the former one.
fn put(seats: &mut Items<Seat>, at: usize, seat: Seat) -> Seat
    requires { at < length seats.old }
    ensures former { slice_get seats.old at ≡ Some result }
    ensures puts { seats.new ≡ slice_set seats.old at seat }
{
    mem::replace(&mut seats.items[at], seat)
}

/// Sets which objects the seat at a place serves.
fn set_serves(seats: &mut Items<Seat>, at: usize, serves: Items<Serve>)
    requires { at < length seats.old }
    ensures { (x : ASeat) → slice_get seats.old at ≡ Some x → seats.new ≡ slice_set seats.old at (record x { serves = serves }) }
{
    seats.items[at].serves = serves;
}

/// Splits a seat off the one at a place.
pub fn split(
    alloc: Global,
    lanes: u32,
    seats: &mut Items<Seat>,
    at: usize,
    into: u32,
    set: u32,
) -> Result<bool, Memory>
    requires { at < length seats.old }
    ensures { (x : ASeat) → slice_get seats.old at ≡ Some x → StepsAs (may_split seats.old x into set)
        (seats.new ≡ slice_set seats.old at (giving_up set x) ++ split_off lanes into set x ∷ []) (seats.new ≡ seats.old) result }
{
    let seat = seat_at(seats, at);
    if !may_split(seats, seat, into, set) {
        return Ok(false);
    }
    let kept = others(alloc, &seat.serves, set)?;
    let part = split_off(alloc, lanes, into, set, seat)?;
    add_seat(seats, part)?;
    set_serves(seats, at, kept);
    Ok(true)
}

/// The items of both.
fn both<T: Copy + Drop>(alloc: Global, xs: &Items<T>, ys: &Items<T>) -> Result<Items<T>, Memory>
    ensures { IfOk result (λ zs. zs ≡ xs.now ++ ys.now) }
{
    let mut items = Vec::from_slice(alloc, xs.items.as_slice()).map_err(|_| Memory)?;
    items
        .extend_from_slice(ys.items.as_slice())
        .map_err(|_| Memory)?;
    Ok(Items { items })
}

/// Adds copies of the gives.
fn add_gives(out: &mut Items<SeatGive>, gives: &[SeatGive]) -> Result<(), Memory>
    ensures { OnOk result (out.new ≡ out.old ++ gives.now) }
{
    if let [give, rest @ ..] = gives {
        let copy = copy_of_give(give, give.read);
        out.items.push(copy).map_err(|_| Memory)?;
        add_gives(out, rest)?;
    }
    Ok(())
}

/// All gives of both.
fn both_gives(
    alloc: Global,
    xs: &Items<SeatGive>,
    ys: &Items<SeatGive>,
) -> Result<Items<SeatGive>, Memory>
    ensures { IfOk result (λ zs. zs ≡ xs.now ++ ys.now) }
{
    let mut gives = no_items(alloc);
    add_gives(&mut gives, xs.items.as_slice())?;
    add_gives(&mut gives, ys.items.as_slice())?;
    Ok(gives)
}

/// What seats hold of blocks.
#[derive(Drop)]
struct Blocks {
    fresh: Items<Spot>,
    used: Items<Spot>,
    hands: Items<Entry>,
    fills: Items<Fill>,
}

/// What both seats hold of blocks.
fn both_blocks(alloc: Global, seat: &Seat, other: &Seat) -> Result<Blocks, Memory>
    ensures fresh { IfOk result (λ k. k.fresh ≡ seat.now.fresh ++ other.now.fresh) }
    ensures used { IfOk result (λ k. k.used ≡ seat.now.used ++ other.now.used) }
    ensures hands { IfOk result (λ k. k.hands ≡ seat.now.hands ++ other.now.hands) }
    ensures fills { IfOk result (λ k. k.fills ≡ seat.now.fills ++ other.now.fills) }
{
    let fresh = both(alloc, &seat.fresh, &other.fresh)?;
    let used = both(alloc, &seat.used, &other.used)?;
    let hands = both(alloc, &seat.hands, &other.hands)?;
    let fills = both(alloc, &seat.fills, &other.fills)?;
    Ok(Blocks {
        fresh,
        used,
        hands,
        fills,
    })
}

/// What seats hold of queues.
#[derive(Drop)]
struct Queues {
    claims: Items<CellPlace>,
    takes: Items<CellPlace>,
    serves: Items<Serve>,
}

/// What both seats hold of queues.
fn both_queues(alloc: Global, seat: &Seat, other: &Seat) -> Result<Queues, Memory>
    ensures claims { IfOk result (λ k. k.claims ≡ seat.now.claims ++ other.now.claims) }
    ensures takes { IfOk result (λ k. k.takes ≡ seat.now.takes ++ other.now.takes) }
    ensures serves { IfOk result (λ k. k.serves ≡ seat.now.serves ++ other.now.serves) }
{
    let claims = both(alloc, &seat.claims, &other.claims)?;
    let takes = both(alloc, &seat.takes, &other.takes)?;
    let serves = both(alloc, &seat.serves, &other.serves)?;
    Ok(Queues {
        claims,
        takes,
        serves,
    })
}

/// The seat takes over all that the other has. Where memory is refused both are as they were.
fn take_over(alloc: Global, seat: &mut Seat, other: &mut Seat) -> Result<(), Memory>
    ensures ok { OnOk result (seat.new ≡ joining seat.old other.old) }
    ensures same { OnErr result (seat.new ≡ seat.old) }
    ensures whole { OnErr result (other.new ≡ other.old) }
{
    let gives = both_gives(alloc, &seat.gives, &other.gives)?;
    let queues = both_queues(alloc, seat, other)?;
    let blocks = both_blocks(alloc, seat, other)?;
    seat.logs
        .items
        .append(&mut other.logs.items)
        .map_err(|_| Memory)?;
    seat.gives = gives;
    seat.fresh = blocks.fresh;
    seat.used = blocks.used;
    seat.hands = blocks.hands;
    seat.fills = blocks.fills;
    seat.claims = queues.claims;
    seat.takes = queues.takes;
    seat.serves = queues.serves;
    seat.seen = Glances::joined(&seat.seen, &other.seen);
    Ok(())
}

/// The seat at a place takes over the seat `from`, which stands no more.
pub fn join(alloc: Global, seats: &mut Items<Seat>, at: usize, from: u32) -> Result<bool, Memory>
    requires { at < length seats.old }
    ensures { (x : ASeat) → slice_get seats.old at ≡ Some x → StepsAs (may_join seats.old x from) (Joins seats.old at x from seats.new)
        (seats.new ≡ seats.old) result }
{
    if seat_at(seats, at).number == from {
        return Ok(false);
    }
    let Some(there) = seat_place(seats, from) else {
        return Ok(false);
    };
    let mut other = put(seats, there, bare(alloc, from, false));
    let mut seat = put(seats, at, bare(alloc, from, false));
    match take_over(alloc, &mut seat, &mut other) {
        Ok(()) => {
            put(seats, at, seat);
            Ok(true)
        }
        Err(fault) => {
            put(seats, at, seat);
            put(seats, there, other);
            Err(fault)
        }
    }
}

/// The seat at a place takes a step by itself.
pub fn step_at(
    alloc: Global,
    sys: &System,
    lanes: u32,
    words: &mut Words,
    seats: &mut Items<Seat>,
    at: usize,
    op: &Op,
) -> Result<bool, Memory>
    requires { at < length seats.old }
    ensures { (x : ASeat) → slice_get seats.old at ≡ Some x → StepsSeat sys.now lanes words.old seats.old at x op.now words.new seats.new result }
{
    let mut seat = put(seats, at, bare(alloc, 0, false));
    let made = step(alloc, sys, lanes, words, &mut seat, op);
    put(seats, at, seat);
    made
}
