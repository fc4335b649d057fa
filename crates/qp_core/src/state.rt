//! The event table with its seats: the first state, and what is seen of it.

ghost use Rattle.std.specs.Prelude.{◌≡◌, ℕ, ◌<◌, ◌≤◌, ◌++◌, [], ◌∷◌, IfOk, OnOk, IsTrue, Some, None, length, slice_get, slice_index, slice_set};
ghost use Rattle.std.specs.List.{position};
ghost use Rattle.qp_model.specs.Sound.{IsSound};
ghost use Rattle.qp_table.specs.First.{first_word, first_serve, first_serves};
ghost use Rattle.qp_table.specs.Rule.{table_words};
ghost use Rattle.qp_core.specs.State.{stands_as, bare_seat, lane_records, records_at, SetsBy};
ghost use Rattle.qp_core_steps.specs.Looks.{word_in};
ghost use Rattle.qp_core.specs.Runs.{HoldsOf, IsFirstState, first_seat};

use crate::splits::add_seat;
use qp_base::Memory;
use qp_core_steps::asked::{bit_of, has_object, has_pool};
use qp_core_steps::words::{WORDS, Words, block_at, pool_at, queue_at};
use qp_core_steps::{Glances, Items, Seat, SeatLog, no_items};
use qp_model::{Lane, Rec, System, Word};
use qp_table::Serve;
use std::alloc::Global;
use std::mem;

/// The words of the event table and the seats that take steps on it. Seats below `lanes` have a lane of their own.
#[derive(Drop)]
pub struct CoreState<'a> {
    pub sys: &'a System,
    pub lanes: u32,
    pub words: Words,
    pub seats: Items<Seat>,
}

/// Where the seat of this number is that stands.
pub fn seat_place(seats: &Items<Seat>, number: u32) -> Option<usize>
    ensures { result ≡ position (stands_as number) seats.now }
{
    seats
        .items
        .iter()
        .position(|x| x.stands && x.number == number)
}

/// A seat that holds nothing.
pub fn bare(alloc: Global, number: u32, stands: bool) -> Seat
    ensures { result ≡ bare_seat number stands }
{
    Seat {
        number,
        stands,
        by: 0,
        logs: no_items(alloc),
        fresh: no_items(alloc),
        used: no_items(alloc),
        hands: no_items(alloc),
        gives: no_items(alloc),
        fills: no_items(alloc),
        claims: no_items(alloc),
        takes: no_items(alloc),
        serves: no_items(alloc),
        seen: Glances::new(),
    }
}

/// A lane without records.
pub fn empty_log(alloc: Global, number: u32) -> SeatLog
    ensures { result ≡ record { number = number; recs = [] } }
{
    SeatLog {
        number: u64::from(number),
        recs: Lane {
            items: Vec::new(alloc),
        },
    }
}

/// A word where nothing has happened: all blocks are free.
fn first_word(sys: &System, at: usize) -> u64
    ensures { result ≡ first_word sys.now at }
{
    if at >= 128 || at % 8 != 0 {
        return 0;
    }
    let p = (at / 8) as u8;
    if has_pool(sys, p) {
        bit_of(sys.blocks_of(u64::from(p))).saturating_sub(1)
    } else {
        0
    }
}

/// The words where nothing has happened.
fn first_words(alloc: Global, sys: &System) -> Result<Words, Memory>
    ensures wide { IfOk result (λ w. length w ≡ table_words) }
    ensures each { IfOk result (λ w. (k : ℕ) → k < table_words → slice_index w k ≡ first_word sys.now k) }
{
    let mut items = Vec::new(alloc);
    for at in 0..WORDS {
        items.push(first_word(sys, at)).map_err(|_| Memory)?;
    }
    Ok(Words { items })
}

/// Adds the service of an object of the system, without last-in posts and takes.
fn add_serve(out: &mut Items<Serve>, sys: &System, a: u8) -> Result<(), Memory>
    ensures { OnOk result (out.new ≡ out.old ++ first_serve sys.now a) }
{
    if has_object(sys, a) {
        let serve = Serve {
            object: u64::from(a),
            lifos: 0,
            takes: 0,
        };
        out.items.push(serve).map_err(|_| Memory)?;
    }
    Ok(())
}

/// Adds the services of the objects up to `n`.
fn add_serves(out: &mut Items<Serve>, sys: &System, n: u8) -> Result<(), Memory>
    ensures { OnOk result (out.new ≡ out.old ++ first_serves sys.now n) }
{
    if n == 0 {
        return Ok(());
    }
    add_serve(out, sys, n)?;
    add_serves(out, sys, n - 1)
}

/// Seat 0, which serves every object.
fn first_seat(alloc: Global, sys: &System) -> Result<Seat, Memory>
    ensures { IfOk result (λ x. x ≡ first_seat (first_serves sys.now 32)) }
{
    let mut seat = bare(alloc, 0, true);
    seat.logs
        .items
        .push(empty_log(alloc, 0))
        .map_err(|_| Memory)?;
    add_serves(&mut seat.serves, sys, 32)?;
    Ok(seat)
}

/// The records of a lane.
fn lane_records(logs: &[SeatLog], number: u64) -> &[Rec]
    ensures { result.now ≡ lane_records number logs.now }
{
    match logs {
        [] => &[],
        [log, rest @ ..] => {
            if log.number == number {
                log.recs.items.as_slice()
            } else {
                lane_records(rest, number)
            }
        }
    }
}

/// The records that the seat added.
fn own_records(seat: &Seat) -> &[Rec]
    ensures { result.now ≡ lane_records seat.now.number seat.now.logs }
{
    lane_records(seat.logs.items.as_slice(), u64::from(seat.number))
}

/// Sets the object for which a seat adds records.
fn set_by(seats: &mut Items<Seat>, number: u32, o: u8) -> u8
    ensures { SetsBy seats.old number o result seats.new }
{
    match seat_place(seats, number) {
        Some(at) => mem::replace(&mut seats.items[at].by, o),
        None => 0,
    }
}

impl<'a> CoreState<'a> {
    /// The table where nothing has happened: seat 0 alone stands and serves every object.
    pub fn new(alloc: Global, sys: &'a System, lanes: u32) -> Result<CoreState<'a>, Memory>
        requires sound { IsSound sys.now }
        requires some { 0 < lanes }
        requires few { lanes ≤ 49 }
        ensures first { IfOk result (λ s. IsFirstState sys.now lanes s) }
        ensures kept { IfOk result HoldsOf }
    {
        let words = first_words(alloc, sys)?;
        let seat = first_seat(alloc, sys)?;
        let mut seats = no_items(alloc);
        add_seat(&mut seats, seat)?;
        Ok(CoreState {
            sys,
            lanes,
            words,
            seats,
        })
    }

    /// What a pool's, a block's or a queue's word shows; 0 for the words of other tables.
    pub fn word(&self, w: Word) -> u64
        ensures { result ≡ word_in self.now.words w }
    {
        match w {
            Word::Pool(p) => self.words.get(pool_at(p)),
            Word::Block(p, b) => self.words.get(block_at(p, b)),
            Word::Queue(a) => self.words.get(queue_at(a)),
            Word::Signal(_) | Word::Timer(_) => 0,
        }
    }

    /// The records of a seat; a seat that doesn't stand has none.
    pub fn records(&self, seat: u32) -> &[Rec]
        ensures { result.now ≡ records_at self.now.seats seat }
    {
        let Some(at) = seat_place(&self.seats, seat) else {
            return &[];
        };
        own_records(&self.seats.items[at])
    }

    /// Sets the object for which a seat adds records (0: none), and answers the former one; nothing happens where the
    /// seat doesn't stand. It is no step.
    pub fn set_by(&mut self, seat: u32, o: u8) -> u8
        ensures sets { SetsBy self.old.seats seat o result self.new.seats }
        ensures rest { self.new ≡ record self.old { seats = self.new.seats } }
        ensures kept { HoldsOf self.old → HoldsOf self.new }
    {
        set_by(&mut self.seats, seat, o)
    }
}
