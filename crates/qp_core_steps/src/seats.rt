//! Seats: what each lane holds.

ghost use Rattle.std.specs.Prelude.{◌≡◌, ◌==◌, ◌++◌, [], ◌∷◌, ◌&&◌, nat_lt, length, slice_index, OnOk, OnErr};
ghost use Rattle.std.specs.List.{list_any, position};
ghost use Rattle.qp_core_steps.specs.Blocks.{has_left};
ghost use Rattle.qp_table.specs.Asked.{is_unfinished};
ghost use Rattle.qp_table.specs.Counting.{sum_over, without};
ghost use Rattle.qp_table.specs.Rule.{is_ref, is_spot, gives_of, fills_with};
ghost use Rattle.qp_table.specs.declared.view.SeatLog.{SeatLog};

use crate::glances::Glances;
use crate::items::{Items, take_out};
use arrayvec::ArrayVec;
use qp_base::Memory;
use qp_model::{Entry, Lane, Rec};
use qp_table::{CellPlace, Fill, Glance, Serve, Spot};
use std::marker::Model;

/// The records of one lane.
#[derive(Drop)]
pub struct SeatLog {
    pub number: u64,
    pub recs: Lane,
}

impl Model for SeatLog {
    ghost use Rattle.qp_table.specs.declared.view.SeatLog.{SeatLog};

    ghost Value = { SeatLog };

    ghost view = { λ g. record { number = g.number; recs = g.recs } };
}

/// A give under way.
#[derive(Drop)]
pub struct SeatGive {
    pub pool: u64,
    pub block: u64,
    pub event: ArrayVec<u64, 9>,
    pub read: bool,
}

impl Model for SeatGive {
    ghost use Rattle.qp_table.specs.declared.view.PendingGive.{PendingGive};

    ghost Value = { PendingGive };

    ghost view = { λ g. record { pool = g.pool; block = g.block; event = g.event.items; read = g.read } };
}

/// A seat: its number, whether it stands, the object for which it adds records, all that it holds, and what words showed it.
#[derive(Drop)]
pub struct Seat {
    pub number: u32,
    pub stands: bool,
    pub by: u8,
    pub logs: Items<SeatLog>,
    pub fresh: Items<Spot>,
    pub used: Items<Spot>,
    pub hands: Items<Entry>,
    pub gives: Items<SeatGive>,
    pub fills: Items<Fill>,
    pub claims: Items<CellPlace>,
    pub takes: Items<CellPlace>,
    pub serves: Items<Serve>,
    pub seen: Glances,
}

/// A copy of the give, with this answer to whether the beginning of the life was read.
pub fn copy_of_give(give: &SeatGive, read: bool) -> SeatGive
    ensures { result ≡ record give.now { read = read } }
{
    let mut event = ArrayVec::new();
    let _ = event.try_extend_from_slice(give.event.as_slice());
    SeatGive {
        pool: give.pool,
        block: give.block,
        event,
        read,
    }
}

/// Whether the logs have fewer records than this.
fn is_below(logs: &[SeatLog], limit: u64) -> bool
    ensures { result ≡ nat_lt (sum_over (λ (g : SeatLog). length g.recs) logs.now) limit }
{
    match logs {
        [] => 0 < limit,
        [log, rest @ ..] => match limit.checked_sub(log.recs.items.len() as u64) {
            Some(left) => is_below(rest, left),
            None => false,
        },
    }
}

/// Whether it is this reference to the block.
fn is_reference(e: &Entry, p: u8, b: u8, name: u64) -> bool
    ensures { result ≡ is_ref p b name e.now }
{
    e.pool == u64::from(p) && e.block == u64::from(b) && e.name == name
}

/// Whether it is the block.
fn is_spot(x: &Spot, p: u8, b: u8) -> bool
    ensures { result ≡ is_spot p b x.now }
{
    x.pool == u64::from(p) && x.block == u64::from(b)
}

/// Whether it is a give of the block.
fn gives_block(give: &SeatGive, p: u8, b: u8) -> bool
    ensures { result ≡ gives_of p b give.now }
{
    give.pool == u64::from(p) && give.block == u64::from(b)
}

/// Whether the block is among these.
fn has_spot(spots: &Items<Spot>, p: u8, b: u8) -> bool
    ensures { result ≡ list_any (is_spot p b) spots.now }
{
    spots.items.iter().any(|x| is_spot(x, p, b))
}

/// Where the reference stands.
fn reference_place(hands: &Items<Entry>, p: u8, b: u8, name: u64) -> Option<usize>
    ensures { result ≡ position (is_ref p b name) hands.now }
{
    hands.items.iter().position(|e| is_reference(e, p, b, name))
}

/// Where the block stands.
fn spot_place(spots: &Items<Spot>, p: u8, b: u8) -> Option<usize>
    ensures { result ≡ position (is_spot p b) spots.now }
{
    spots.items.iter().position(|x| is_spot(x, p, b))
}

/// Where the block's give stands.
fn give_place(gives: &Items<SeatGive>, p: u8, b: u8) -> Option<usize>
    ensures { result ≡ position (gives_of p b) gives.now }
{
    gives.items.iter().position(|g| gives_block(g, p, b))
}

/// Takes the block out.
pub fn drop_spot(spots: &mut Items<Spot>, p: u8, b: u8)
    ensures { spots.new ≡ without (is_spot p b) spots.old }
{
    let at = spot_place(spots, p, b);
    take_out(spots, at);
}

/// Takes the block's give out.
pub fn drop_give(gives: &mut Items<SeatGive>, p: u8, b: u8)
    ensures { gives.new ≡ without (gives_of p b) gives.old }
{
    let at = give_place(gives, p, b);
    take_out(gives, at);
}

/// Takes the reference out.
pub fn drop_hand(hands: &mut Items<Entry>, p: u8, b: u8, name: u64)
    ensures { hands.new ≡ without (is_ref p b name) hands.old }
{
    let at = reference_place(hands, p, b, name);
    take_out(hands, at);
}

/// Where the word that is still to be written stands.
pub fn fill_place(fills: &Items<Fill>, p: u8, b: u8, j: u8, value: u64) -> Option<usize>
    ensures { result ≡ position (fills_with p b j value) fills.now }
{
    fills.items.iter().position(|x| {
        x.pool == u64::from(p)
            && x.block == u64::from(b)
            && x.place == u64::from(j)
            && x.value == value
    })
}

/// Whether this is the word of the give's event at place `j`.
fn has_word(give: &SeatGive, j: u8, value: u64) -> bool
    ensures { result ≡ (nat_lt j (length give.now.event) && (slice_index give.now.event j == value)) }
{
    let j = usize::from(j);
    j < give.event.len() && give.event.as_slice()[j] == value
}

/// Whether event words of the give are still to be written.
fn has_left(fills: &Items<Fill>, give: &SeatGive) -> bool
    ensures { result ≡ has_left fills.now give.now }
{
    let pool = give.pool;
    let block = give.block;
    fills
        .items
        .iter()
        .any(|x| x.pool == pool && x.block == block)
}

/// Whether the give isn't finished.
fn is_unfinished(fills: &Items<Fill>, give: &SeatGive) -> bool
    ensures { result ≡ is_unfinished fills.now give.now }
{
    !give.read || has_left(fills, give)
}

impl Seat {
    ghost use Rattle.qp_core_steps.specs.Seats.{seat_may_act, may_add, noting, seat_seeing};
    ghost use Rattle.qp_core_steps.specs.Blocks.{is_ref_to, has_ready, is_give_over, asks_for};

    /// Whether the seat is one of the lanes' own, and has room for a record.
    pub fn may_add(&self, lanes: u32) -> bool
        ensures { result ≡ may_add lanes self.now }
    {
        self.number < lanes && is_below(self.logs.items.as_slice(), 1000001)
    }

    /// Adds what a word showed.
    pub fn see(&mut self, glance: Glance)
        ensures { self.new ≡ seat_seeing glance self.old }
    {
        self.seen = Glances::with(&self.seen, &glance);
    }

    /// Adds a record to the seat's own log, and what the word showed.
    pub fn note(&mut self, rec: Rec, glance: Glance) -> Result<(), Memory>
        ensures ok { OnOk result (self.new ≡ noting rec glance self.old) }
        ensures err { OnErr result (self.new ≡ self.old) }
    {
        if let Some(log) = self.logs.items.first_mut() {
            log.recs.items.push(rec).map_err(|_| Memory)?;
        }
        self.see(glance);
        Ok(())
    }

    /// Adds a give, its record, and what the word showed.
    pub fn note_give(&mut self, give: SeatGive, rec: Rec, glance: Glance) -> Result<(), Memory>
        ensures ok { OnOk result (self.new ≡ record (noting rec glance self.old) { gives = self.old.gives ++ give ∷ [] }) }
        ensures err { OnErr result (self.new ≡ self.old) }
    {
        self.gives.items.push(give).map_err(|_| Memory)?;
        let noted = self.note(rec, glance);
        if noted.is_err() {
            let _ = self.gives.items.pop();
        }
        noted
    }

    /// Whether the reference is in hand.
    pub fn has_reference(&self, p: u8, b: u8, name: u64) -> bool
        ensures { result ≡ list_any (is_ref p b name) self.now.hands }
    {
        self.hands.items.iter().any(|e| is_reference(e, p, b, name))
    }

    /// Whether a reference to the block is in hand.
    pub fn has_reference_to(&self, p: u8, b: u8) -> bool
        ensures { result ≡ list_any (is_ref_to p b) self.now.hands }
    {
        self.hands
            .items
            .iter()
            .any(|e| e.pool == u64::from(p) && e.block == u64::from(b))
    }

    /// Whether the block is used here.
    pub fn has_used(&self, p: u8, b: u8) -> bool
        ensures { result ≡ list_any (is_spot p b) self.now.used }
    {
        has_spot(&self.used, p, b)
    }

    /// Whether the block is fresh here, and its give finished.
    pub fn is_ready(&self, p: u8, b: u8) -> bool
        ensures { result ≡ has_ready self.now p b }
    {
        has_spot(&self.fresh, p, b) && self.has_done(p, b)
    }

    /// Whether the block's give is finished.
    fn has_done(&self, p: u8, b: u8) -> bool
        ensures { result ≡ list_any (is_give_over self.now.fills p b) self.now.gives }
    {
        let fills = &self.fills;
        self.gives
            .items
            .iter()
            .any(|g| gives_block(g, p, b) && !is_unfinished(fills, g))
    }

    /// Whether a give under way wants this value in this word.
    pub fn is_asked_for(&self, p: u8, b: u8, j: u8, value: u64) -> bool
        ensures { result ≡ list_any (asks_for self.now.fills p b j value) self.now.gives }
    {
        let fills = &self.fills;
        self.gives.items.iter().any(|g| gives_block(g, p, b)
            && is_unfinished(fills, g)
            && has_word(g, j, value))
    }

    /// Whether a give of the seat isn't finished.
    pub fn has_unfinished(&self) -> bool
        ensures { result ≡ list_any (is_unfinished self.now.fills) self.now.gives }
    {
        let fills = &self.fills;
        self.gives.items.iter().any(|g| is_unfinished(fills, g))
    }
}
