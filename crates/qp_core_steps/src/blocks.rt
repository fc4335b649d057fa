//! The steps on pools and blocks.

ghost use Rattle.std.specs.Prelude.{◌≡◌, ◌+◌, ◌≤◌, ◌==◌, ◌++◌, [], ◌∷◌, if◌then◌else◌, Ok, IfOk, OnOk, OnErr, length};
ghost use Rattle.std.specs.Option.{option_to_list};
ghost use Rattle.qp_table.specs.After.{fills_for, spot};
ghost use Rattle.qp_core_steps.specs.Seats.{noting};
ghost use Rattle.qp_core_steps.specs.Words.{StepsAs};
ghost use Rattle.qp_core_steps.specs.Blocks.{low_in, number_of_word, may_give, with_give, SeatGives, may_drop, without_ref, SeatDrops, may_back, Backs, may_fill, Fills, give_ended, may_make, SeatMakes};

use crate::asked::{bit_of, fits, has_block, has_pool, lowest};
use crate::items::{Items, grown, take_out};
use crate::seats::{Seat, SeatGive, drop_give, drop_hand, drop_spot, fill_place};
use crate::words::{Words, block_at, event_at, glance_at, pool_at};
use arrayvec::ArrayVec;
use qp_base::{Ev, Memory};
use qp_model::{Entry, Rec, System};
use qp_table::{Fill, Glance, Spot};
use std::alloc::Global;

/// What one operation adds to the number of a pool's or a block's word.
pub const ONE: u64 = 1 << 32;

/// Adds event words to be written, from place `j` on.
fn add_fills(out: &mut Items<Fill>, p: u8, b: u8, j: u8, values: &[u64]) -> Result<(), Memory>
    requires { j + length values.now ≤ 9 }
    ensures { OnOk result (out.new ≡ out.old ++ fills_for p b j values.now) }
{
    if let [value, rest @ ..] = values {
        let word = Fill {
            pool: u64::from(p),
            block: u64::from(b),
            place: u64::from(j),
            value: *value,
        };
        out.items.push(word).map_err(|_| Memory)?;
        add_fills(out, p, b, j + 1, rest)?;
    }
    Ok(())
}

/// An event as its words have it: its signal, and its parameters.
fn words_of(ev: &Ev) -> ArrayVec<u64, 9>
    ensures { result.items ≡ ev.now.sig ∷ ev.now.pars.items }
{
    let mut words = ArrayVec::new();
    let _ = words.try_push(u64::from(ev.sig));
    let _ = words.try_extend_from_slice(ev.pars.as_slice());
    words
}

/// What is still to be written, with the words of an event.
fn filled(
    alloc: Global,
    fills: &Items<Fill>,
    p: u8,
    b: u8,
    event: &[u64],
) -> Result<Items<Fill>, Memory>
    requires { length event.now ≤ 9 }
    ensures { IfOk result (λ ys. ys ≡ fills.now ++ fills_for p b 0 event.now) }
{
    let mut all = grown(alloc, fills, None)?;
    add_fills(&mut all, p, b, 0, event)?;
    Ok(all)
}

/// The seat begins a give, with its record and what the pool's word showed. Where memory is refused it is as it was.
fn begin(
    alloc: Global,
    seat: &mut Seat,
    p: u8,
    b: u8,
    from: u64,
    ev: &Ev,
    rec: Rec,
    glance: Glance,
) -> Result<(), Memory>
    ensures ok { OnOk result (seat.new ≡ with_give seat.old rec glance p b from (ev.now.sig ∷ ev.now.pars.items)) }
    ensures err { OnErr result (seat.new ≡ seat.old) }
{
    let spot = Spot {
        pool: u64::from(p),
        block: u64::from(b),
        at: from,
    };
    let given = SeatGive {
        pool: u64::from(p),
        block: u64::from(b),
        event: words_of(ev),
        read: false,
    };
    let fresh = grown(alloc, &seat.fresh, Some(spot))?;
    let fills = filled(alloc, &seat.fills, p, b, given.event.as_slice())?;
    seat.note_give(given, rec, glance)?;
    seat.fresh = fresh;
    seat.fills = fills;
    Ok(())
}

/// Whether a block may be given out.
fn may_give(sys: &System, lanes: u32, words: &Words, seat: &Seat, p: u8, ev: &Ev) -> bool
    ensures { result ≡ may_give sys.now lanes words.now seat.now p ev.now.sig ev.now.pars.items }
{
    seat.may_add(lanes)
        && has_pool(sys, p)
        && fits(sys, p, ev)
        && !seat.has_unfinished()
        && words.get(pool_at(p)) % ONE != 0
}

/// Gives out the pool's lowest free block.
pub fn give(
    alloc: Global,
    sys: &System,
    lanes: u32,
    words: &mut Words,
    seat: &mut Seat,
    p: u8,
    ev: &Ev,
) -> Result<bool, Memory>
    ensures { StepsAs (may_give sys.now lanes words.old seat.old p ev.now.sig ev.now.pars.items)
        (SeatGives words.old seat.old p ev.now.sig ev.now.pars.items words.new seat.new) ((words.new ≡ words.old) × (seat.new ≡ seat.old))
        result }
{
    let may = may_give(sys, lanes, words, seat, p, ev);
    if !may {
        return Ok(false);
    }
    let word = pool_at(p);
    let found = words.get(word);
    let b = lowest(32, found % ONE);
    let from = words.get(block_at(p, b)) / ONE;
    let rec = Rec::new(seat.by, p, (found / ONE) as u32, b, from, ev);
    let left = found.wrapping_add(ONE).saturating_sub(bit_of(b));
    begin(alloc, seat, p, b, from, ev, rec, glance_at(word, left))?;
    words.set(word, left);
    Ok(true)
}

/// Writes an event word of a give under way.
pub fn fill(lanes: u32, words: &mut Words, seat: &mut Seat, p: u8, b: u8, j: u8, value: u64) -> bool
    ensures { StepsAs (may_fill lanes seat.old p b j value) (Fills words.old seat.old p b j value words.new seat.new)
        ((words.new ≡ words.old) × (seat.new ≡ seat.old)) (Ok result) }
{
    if !(seat.number < lanes && seat.is_asked_for(p, b, j, value)) {
        return false;
    }
    let at = fill_place(&seat.fills, p, b, j, value);
    take_out(&mut seat.fills, at);
    words.set(event_at(p, b, j), value);
    true
}

/// Whether a reference may be made.
fn may_make(sys: &System, lanes: u32, seat: &Seat, p: u8, b: u8) -> bool
    ensures { result ≡ may_make sys.now lanes seat.now p b }
{
    seat.may_add(lanes)
        && has_block(sys, p, b)
        && (seat.has_reference_to(p, b) || seat.is_ready(p, b))
}

/// Ends the block's give, where this was its first reference.
fn end_give(seat: &mut Seat, more: bool, p: u8, b: u8)
    ensures { seat.new ≡ give_ended more p b seat.old }
{
    if more {
        return;
    }
    drop_spot(&mut seat.fresh, p, b);
    drop_give(&mut seat.gives, p, b);
}

/// The seat has another reference in hand, with its record and what the block's word showed. Where memory is refused it is as
/// it was.
fn hold(alloc: Global, seat: &mut Seat, made: Entry, rec: Rec, glance: Glance) -> Result<(), Memory>
    ensures ok { OnOk result (seat.new ≡ record (noting rec glance seat.old) { hands = seat.old.hands ++ made ∷ [] }) }
    ensures err { OnErr result (seat.new ≡ seat.old) }
{
    let hands = grown(alloc, &seat.hands, Some(made))?;
    seat.note(rec, glance)?;
    seat.hands = hands;
    Ok(())
}

/// Makes a reference.
pub fn make(
    alloc: Global,
    sys: &System,
    lanes: u32,
    words: &mut Words,
    seat: &mut Seat,
    p: u8,
    b: u8,
) -> Result<bool, Memory>
    ensures { StepsAs (may_make sys.now lanes seat.old p b) (SeatMakes words.old seat.old p b words.new seat.new)
        ((words.new ≡ words.old) × (seat.new ≡ seat.old)) result }
{
    let may = may_make(sys, lanes, seat, p, b);
    if !may {
        return Ok(false);
    }
    let more = seat.has_reference_to(p, b);
    let word = block_at(p, b);
    let found = words.get(word);
    let made = Entry {
        pool: u64::from(p),
        block: u64::from(b),
        name: found / ONE,
    };
    let rec = Rec::inc(seat.by, p, b, found / ONE);
    let held = found.wrapping_add(ONE + 1);
    hold(alloc, seat, made, rec, glance_at(word, held))?;
    end_give(seat, more, p, b);
    words.set(word, held);
    Ok(true)
}

/// Whether a reference may be dropped.
fn may_drop(sys: &System, lanes: u32, seat: &Seat, p: u8, b: u8, name: u64) -> bool
    ensures { result ≡ may_drop sys.now lanes seat.now p b name }
{
    seat.may_add(lanes) && has_block(sys, p, b) && seat.has_reference(p, b, name)
}

/// The block, where its word counts no reference.
fn freed(p: u8, b: u8, word: u64) -> Option<Spot>
    ensures { option_to_list result ≡ (if low_in word == 0 then spot p b (number_of_word word) ∷ [] else []) }
{
    if word % ONE != 0 {
        return None;
    }
    Some(Spot {
        pool: u64::from(p),
        block: u64::from(b),
        at: word / ONE,
    })
}

/// The seat has the reference no more, but the block where its word now counts none, with its record. Where memory is refused
/// it is as it was.
fn let_go(
    alloc: Global,
    seat: &mut Seat,
    p: u8,
    b: u8,
    name: u64,
    left: u64,
    rec: Rec,
) -> Result<(), Memory>
    ensures ok { OnOk result (seat.new ≡ without_ref seat.old left rec p b name) }
    ensures err { OnErr result (seat.new ≡ seat.old) }
{
    let used = grown(alloc, &seat.used, freed(p, b, left))?;
    seat.note(rec, glance_at(block_at(p, b), left))?;
    seat.used = used;
    drop_hand(&mut seat.hands, p, b, name);
    Ok(())
}

/// Drops a reference.
pub fn drop_reference(
    alloc: Global,
    sys: &System,
    lanes: u32,
    words: &mut Words,
    seat: &mut Seat,
    p: u8,
    b: u8,
    name: u64,
) -> Result<bool, Memory>
    ensures { StepsAs (may_drop sys.now lanes seat.old p b name) (SeatDrops words.old seat.old p b name words.new seat.new)
        ((words.new ≡ words.old) × (seat.new ≡ seat.old)) result }
{
    let may = may_drop(sys, lanes, seat, p, b, name);
    if !may {
        return Ok(false);
    }
    let word = block_at(p, b);
    let found = words.get(word);
    let left = found.wrapping_add(ONE - 1);
    let rec = Rec::dec(seat.by, p, b, found / ONE, name);
    let_go(alloc, seat, p, b, name, left, rec)?;
    words.set(word, left);
    Ok(true)
}

/// Whether a block may be put back.
fn may_back(sys: &System, lanes: u32, seat: &Seat, p: u8, b: u8) -> bool
    ensures { result ≡ may_back sys.now lanes seat.now p b }
{
    seat.may_add(lanes) && has_block(sys, p, b) && seat.has_used(p, b)
}

/// Puts a used block back.
pub fn put_back(
    sys: &System,
    lanes: u32,
    words: &mut Words,
    seat: &mut Seat,
    p: u8,
    b: u8,
) -> Result<bool, Memory>
    ensures { StepsAs (may_back sys.now lanes seat.old p b) (Backs words.old seat.old p b words.new seat.new)
        ((words.new ≡ words.old) × (seat.new ≡ seat.old)) result }
{
    let may = may_back(sys, lanes, seat, p, b);
    if !may {
        return Ok(false);
    }
    let word = pool_at(p);
    let found = words.get(word);
    let to = words.get(block_at(p, b)) / ONE;
    let more = found.wrapping_add(ONE + bit_of(b));
    let rec = Rec::back(seat.by, p, (found / ONE) as u32, b, to);
    seat.note(rec, glance_at(word, more))?;
    drop_spot(&mut seat.used, p, b);
    words.set(word, more);
    Ok(true)
}
