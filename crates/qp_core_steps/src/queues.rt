//! The steps on queues.

ghost use Rattle.std.specs.Prelude.{◌≡◌, ◌==◌, [], ◌∷◌, if◌then◌else◌, Ok, IfOk, OnOk, OnErr};
ghost use Rattle.std.specs.Option.{option_to_list};
ghost use Rattle.std.specs.List.{list_any, find, position};
ghost use Rattle.qp_table.specs.Counting.{without};
ghost use Rattle.qp_table.specs.Rule.{is_serve, on_queue, is_place, is_entry};
ghost use Rattle.qp_table.specs.After.{hands_without};
ghost use Rattle.qp_core_steps.specs.Words.{StepsAs};
ghost use Rattle.qp_core_steps.specs.Queues.{serve_with, bumped, in_hand, serves_it, may_claim, with_claim, SeatClaims, oldest_claim, may_lay, Lays, may_empty, SeatEmpties, may_free, without_take, Frees, may_lifo, Lifos};

use crate::asked::{has_block, has_object};
use crate::entries::{
    LIFO, TAKE, before_at, code_in, count_in, entry_for, entry_in, front_at, has_room, lifos_in,
    posts_in, takes_in,
};
use crate::items::{Items, grown, take_out};
use crate::seats::Seat;
use crate::words::{Words, cell_at, glance_at, queue_at};
use qp_base::Memory;
use qp_model::{Entry, Rec, System};
use qp_table::{CellPlace, Glance, Serve};
use std::alloc::Global;

/// Whether it is a static signal, or its reference is in hand.
fn in_hand(sys: &System, seat: &Seat, p: u8, b: u8, name: u64) -> bool
    ensures { result ≡ in_hand sys.now seat.now p b name }
{
    if p == 0 {
        b == 0 && sys.is_static(name)
    } else {
        has_block(sys, p, b) && seat.has_reference(p, b, name)
    }
}

/// Whether the seat serves the object.
pub fn serves_it(seat: &Seat, a: u8) -> bool
    ensures { result ≡ serves_it seat.now a }
{
    seat.serves.items.iter().any(|x| x.object == u64::from(a))
}

/// Whether a take of the object is under way in the seat.
pub fn is_taking(seat: &Seat, a: u8) -> bool
    ensures { result ≡ list_any (on_queue a) seat.now.takes }
{
    seat.takes.items.iter().any(|x| x.queue == u64::from(a))
}

/// Where the entry stands among the hands.
fn entry_place(hands: &Items<Entry>, e: Entry) -> Option<usize>
    ensures { result ≡ position (is_entry e) hands.now }
{
    hands.items.iter().position(|x| x.pool == e.pool && x.block == e.block && x.name == e.name)
}

/// Takes an entry that isn't static out of the hands.
fn spend(hands: &mut Items<Entry>, e: Entry)
    ensures { hands.new ≡ hands_without e hands.old }
{
    if e.pool != 0 {
        let at = entry_place(hands, e);
        take_out(hands, at);
    }
}

/// Where a place stands among others.
fn place_of(places: &Items<CellPlace>, a: u8, cell: u64, e: Entry) -> Option<usize>
    ensures { result ≡ position (is_place a cell e) places.now }
{
    places.items.iter().position(|x| {
        x.queue == u64::from(a)
            && x.cell == cell
            && (x.entry.pool == e.pool && x.entry.block == e.block && x.entry.name == e.name)
    })
}

/// Takes a place out.
fn drop_place(places: &mut Items<CellPlace>, a: u8, cell: u64, e: Entry)
    ensures { places.new ≡ without (is_place a cell e) places.old }
{
    let at = place_of(places, a, cell, e);
    take_out(places, at);
}

/// Whether a first-in place may be drawn.
fn may_claim(
    sys: &System,
    lanes: u32,
    words: &Words,
    seat: &Seat,
    a: u8,
    p: u8,
    b: u8,
    name: u64,
) -> bool
    ensures { result ≡ may_claim sys.now lanes words.now seat.now a p b name }
{
    seat.may_add(lanes)
        && has_object(sys, a)
        && in_hand(sys, seat, p, b, name)
        && has_room(sys, a, words.get(queue_at(a)))
}

/// The seat has another claim and its entry no more in hand, with the record and what the queue's word showed. Where memory is
/// refused it is as it was.
fn add_claim(
    alloc: Global,
    seat: &mut Seat,
    place: CellPlace,
    rec: Rec,
    glance: Glance,
) -> Result<(), Memory>
    ensures ok { OnOk result (seat.new ≡ with_claim seat.old rec glance place.queue place.cell place.entry place.number) }
    ensures err { OnErr result (seat.new ≡ seat.old) }
{
    let claims = grown(alloc, &seat.claims, Some(place))?;
    seat.note(rec, glance)?;
    seat.claims = claims;
    spend(&mut seat.hands, place.entry);
    Ok(())
}

/// Draws a first-in place.
pub fn claim(
    alloc: Global,
    sys: &System,
    lanes: u32,
    words: &mut Words,
    seat: &mut Seat,
    a: u8,
    p: u8,
    b: u8,
    name: u64,
) -> Result<bool, Memory>
    ensures { StepsAs (may_claim sys.now lanes words.old seat.old a p b name) (SeatClaims sys.now words.old seat.old a p b name words.new
        seat.new) ((words.new ≡ words.old) × (seat.new ≡ seat.old)) result }
{
    let may = may_claim(sys, lanes, words, seat, a, p, b, name);
    if !may {
        return Ok(false);
    }
    let word = queue_at(a);
    let found = words.get(word);
    let entry = entry_for(p, b, name);
    let drawn = found.wrapping_add(1);
    let f = posts_in(found);
    let place = CellPlace {
        queue: u64::from(a),
        cell: u64::from(f) % (u64::from(sys.ring_of(u64::from(a))) + 1),
        entry,
        number: count_in(drawn),
    };
    let rec = Rec::post(seat.by, a, f + 1, lifos_in(found), takes_in(found), entry);
    add_claim(alloc, seat, place, rec, glance_at(word, drawn))?;
    words.set(word, drawn);
    Ok(true)
}

/// The oldest of these places on the queue.
fn oldest(places: &[CellPlace], a: u8) -> Option<CellPlace>
    ensures { result ≡ oldest_claim a places.now }
{
    match places {
        [] => None,
        [x, rest @ ..] => {
            let other = oldest(rest, a);
            if x.queue != u64::from(a) {
                return other;
            }
            match other {
                Some(y) if y.number < x.number => Some(y),
                _ => Some(*x),
            }
        }
    }
}

/// Writes the cell of the seat's oldest claim on the queue.
pub fn lay(lanes: u32, words: &mut Words, seat: &mut Seat, a: u8) -> bool
    ensures { StepsAs (may_lay lanes seat.old a) (Lays words.old seat.old a words.new seat.new)
        ((words.new ≡ words.old) × (seat.new ≡ seat.old)) (Ok result) }
{
    if seat.number >= lanes {
        return false;
    }
    let Some(claim) = oldest(seat.claims.items.as_slice(), a) else {
        return false;
    };
    drop_place(&mut seat.claims, a, claim.cell, claim.entry);
    words.set(cell_at(a, (claim.cell % 256) as u16), code_in(claim.entry));
    true
}

/// Whether the front cell may be emptied.
fn may_empty(sys: &System, lanes: u32, words: &Words, seat: &Seat, a: u8) -> bool
    ensures { result ≡ may_empty sys.now lanes words.now seat.now a }
{
    let cell = front_at(sys, a, words.get(queue_at(a)));
    seat.number < lanes
        && has_object(sys, a)
        && serves_it(seat, a)
        && !is_taking(seat, a)
        && words.get(cell_at(a, cell)) != 0
}

/// Empties the front cell.
pub fn empty(
    alloc: Global,
    sys: &System,
    lanes: u32,
    words: &mut Words,
    seat: &mut Seat,
    a: u8,
) -> Result<bool, Memory>
    ensures { StepsAs (may_empty sys.now lanes words.old seat.old a) (SeatEmpties sys.now words.old seat.old a words.new seat.new)
        ((words.new ≡ words.old) × (seat.new ≡ seat.old)) result }
{
    let may = may_empty(sys, lanes, words, seat, a);
    if !may {
        return Ok(false);
    }
    let cell = front_at(sys, a, words.get(queue_at(a)));
    let word = cell_at(a, cell);
    let code = words.get(word);
    let place = CellPlace {
        queue: u64::from(a),
        cell: u64::from(cell),
        entry: entry_in(code),
        number: 0,
    };
    seat.takes = grown(alloc, &seat.takes, Some(place))?;
    words.set(word, 0);
    Ok(true)
}

/// The first of these places on the queue.
fn first_on(places: &Items<CellPlace>, a: u8) -> Option<CellPlace>
    ensures { result ≡ find (on_queue a) places.now }
{
    places
        .items
        .iter()
        .copied()
        .find(|x| x.queue == u64::from(a))
}

/// The service with so many last-in posts and takes more, where it is that of the object.
fn counted(x: Serve, a: u8, lifos: u64, takes: u64) -> Serve
    ensures { result ≡ serve_with a lifos takes x }
{
    if x.object != u64::from(a) {
        return x;
    }
    Serve {
        object: x.object,
        lifos: x.lifos.wrapping_add(lifos),
        takes: x.takes.wrapping_add(takes),
    }
}

/// Counts last-in posts and takes of the object.
fn bumped(
    alloc: Global,
    serves: &Items<Serve>,
    a: u8,
    lifos: u64,
    takes: u64,
) -> Result<Items<Serve>, Memory>
    ensures { IfOk result (λ ys. ys ≡ bumped a lifos takes serves.now) }
{
    let items = serves
        .items
        .iter()
        .map(|x| counted(*x, a, lifos, takes))
        .collect(alloc)
        .map_err(|_| Memory)?;
    Ok(Items { items })
}

/// The entry, where it isn't static.
fn held(e: Entry) -> Option<Entry>
    ensures { option_to_list result ≡ (if e.pool == 0 then [] else e ∷ []) }
{
    if e.pool == 0 { None } else { Some(e) }
}

/// The seat's take is over: its entry is in hand where it isn't static, with the record and what the queue's word showed. Where
/// memory is refused the seat is as it was.
fn end_take(
    alloc: Global,
    seat: &mut Seat,
    a: u8,
    take: CellPlace,
    rec: Rec,
    glance: Glance,
) -> Result<(), Memory>
    ensures ok { OnOk result (seat.new ≡ without_take seat.old rec glance a take.cell take.entry) }
    ensures err { OnErr result (seat.new ≡ seat.old) }
{
    let hands = grown(alloc, &seat.hands, held(take.entry))?;
    let serves = bumped(alloc, &seat.serves, a, 0, 1)?;
    seat.note(rec, glance)?;
    seat.hands = hands;
    seat.serves = serves;
    drop_place(&mut seat.takes, a, take.cell, take.entry);
    Ok(())
}

/// Frees the entry under way.
pub fn free(
    alloc: Global,
    sys: &System,
    lanes: u32,
    words: &mut Words,
    seat: &mut Seat,
    a: u8,
) -> Result<bool, Memory>
    ensures { StepsAs (may_free sys.now lanes seat.old a) (Frees words.old seat.old a words.new seat.new)
        ((words.new ≡ words.old) × (seat.new ≡ seat.old)) result }
{
    let may = seat.may_add(lanes) && has_object(sys, a);
    if !may {
        return Ok(false);
    }
    let Some(take) = first_on(&seat.takes, a) else {
        return Ok(false);
    };
    let word = queue_at(a);
    let found = words.get(word);
    let rec = Rec::took(
        a,
        posts_in(found),
        lifos_in(found),
        takes_in(found) + 1,
        take.entry,
    );
    let taken = found.wrapping_add(TAKE);
    end_take(alloc, seat, a, take, rec, glance_at(word, taken))?;
    words.set(word, taken);
    Ok(true)
}

/// Whether a last-in place may be drawn.
fn may_lifo(
    sys: &System,
    lanes: u32,
    words: &Words,
    seat: &Seat,
    a: u8,
    p: u8,
    b: u8,
    name: u64,
) -> bool
    ensures { result ≡ may_lifo sys.now lanes words.now seat.now a p b name }
{
    seat.may_add(lanes)
        && has_object(sys, a)
        && serves_it(seat, a)
        && !is_taking(seat, a)
        && in_hand(sys, seat, p, b, name)
        && has_room(sys, a, words.get(queue_at(a)))
}

/// The same, and another last-in post to the queue.
fn add_last_in(
    alloc: Global,
    seat: &mut Seat,
    a: u8,
    place: CellPlace,
    rec: Rec,
    glance: Glance,
) -> Result<(), Memory>
    ensures ok { OnOk result (seat.new ≡ record (with_claim seat.old rec glance place.queue place.cell place.entry place.number) { serves = bumped a 1 0 seat.old.serves }) }
    ensures err { OnErr result (seat.new ≡ seat.old) }
{
    let serves = bumped(alloc, &seat.serves, a, 1, 0)?;
    add_claim(alloc, seat, place, rec, glance)?;
    seat.serves = serves;
    Ok(())
}

/// Draws a last-in place.
pub fn lifo(
    alloc: Global,
    sys: &System,
    lanes: u32,
    words: &mut Words,
    seat: &mut Seat,
    a: u8,
    p: u8,
    b: u8,
    name: u64,
) -> Result<bool, Memory>
    ensures { StepsAs (may_lifo sys.now lanes words.old seat.old a p b name) (Lifos sys.now words.old seat.old a p b name words.new seat.new)
        ((words.new ≡ words.old) × (seat.new ≡ seat.old)) result }
{
    let may = may_lifo(sys, lanes, words, seat, a, p, b, name);
    if !may {
        return Ok(false);
    }
    let word = queue_at(a);
    let found = words.get(word);
    let entry = entry_for(p, b, name);
    let drawn = found.wrapping_add(LIFO);
    let place = CellPlace {
        queue: u64::from(a),
        cell: u64::from(before_at(sys, a, found)),
        entry,
        number: count_in(drawn),
    };
    let rec = Rec::lifo(
        a,
        posts_in(found),
        lifos_in(found) + 1,
        takes_in(found),
        entry,
    );
    add_last_in(alloc, seat, a, place, rec, glance_at(word, drawn))?;
    words.set(word, drawn);
    Ok(true)
}
