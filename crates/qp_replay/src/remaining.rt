//! The records that don't stand in an order yet.

ghost use Rattle.std.specs.Prelude.{◌≡◌, ◌+◌, ◌<◌, ◌^◌, ◌==◌, ◌&&◌, ◌||◌, not, ◌↔◌, ℕ, [], length, get_or, slice_set, IsTrue, MatchOption, IfSome, IfOk, OnOk};
ghost use Rattle.std.proofs.Common.{replicate};
ghost use Rattle.qp_model.specs.declared.words.Word.{Word};
ghost use Rattle.qp_model.specs.History.{touch};
ghost use Rattle.qp_model.specs.Places.{RecordPlace, item_at, touch_at};
ghost use Rattle.qp_model.specs.Touches.{as_touch};
ghost use Rattle.qp_model.specs.Record.{item_of};
ghost use Rattle.qp_check_lanes.specs.Keys.{key_of};
ghost use Rattle.qp_replay.specs.Marks.{has_mark};
ghost use Rattle.qp_replay.specs.Orders.{is_record};
ghost use Rattle.qp_replay.specs.Remaining.{Blocks, HasNext, IsSmall, MayGo, draws_mark, front, head, record_place, record_in, shows_mark};

use crate::marks::{At, Marks};
use qp_check_lanes::keys::key_of;
use qp_model::{Lane, Lanes, Rec, Touched};
use std::alloc::{AllocError, Global};
use std::marker::Model;

/// The lanes, how many records of each stand in an order, and the marks of those that don't yet.
#[derive(Drop)]
pub(crate) struct Remaining<'a> {
    lanes: &'a Lanes,
    fronts: Vec<usize>,
    draws: Marks,
    shows: Marks,
}

impl<'a> Model for Remaining<'a> {
    ghost use Rattle.qp_replay.specs.Remaining.{IsRemaining, LaneFronts};

    ghost Value = { LaneFronts };

    ghost view = { λ r. record { lanes = r.lanes.now; fronts = r.fronts.items } };

    ghost invariant = { λ r. IsRemaining r.lanes.now r.fronts.items r.draws r.shows };
}

/// How many records a lane has.
fn length_of(lanes: &Lanes, lane: usize) -> usize
    requires { lane < length lanes.now }
    ensures { result ≡ length (get_or lanes.now lane []) }
{
    let row = &lanes.items[lane];
    row.items.len()
}

/// What the record at a place does to its word.
fn touched_at(lanes: &Lanes, lane: usize, k: usize) -> Touched
    requires { IsTrue (is_record lanes.now (record_place lane k)) }
    ensures { as_touch result ≡ touch_at (item_at lanes.now (record_place lane k)) }
{
    let row = &lanes.items[lane];
    Touched::by(&row.items[k])
}

/// Puts the mark of a record.
fn put_record(
    draws: &mut Marks,
    shows: &mut Marks,
    alloc: Global,
    r: &Rec,
    at: At,
) -> Result<(), AllocError>
    ensures draws { OnOk result ((w : Word) (m n k : ℕ) → has_mark draws.new (key_of w) (m, n, k) ≡
        (has_mark draws.old (key_of w) (m, n, k) || (draws_mark w m (touch (item_of r.now)) && ((at.lane == n) && (at.place == k))))) }
    ensures shows { OnOk result ((w : Word) (m n k : ℕ) → has_mark shows.new (key_of w) (m, n, k) ≡
        (has_mark shows.old (key_of w) (m, n, k) || (shows_mark w m (touch (item_of r.now)) && ((at.lane == n) && (at.place == k))))) }
{
    match Touched::by(r) {
        Touched::Draws { word, mark } => draws.put(alloc, key_of(word), (mark, at.lane, at.place)),
        Touched::Shows { word, mark } => shows.put(alloc, key_of(word), (mark, at.lane, at.place)),
        Touched::Neither => Ok(()),
    }
}

/// Takes the mark of a record.
fn take_mark(draws: &mut Marks, shows: &mut Marks, touched: Touched, at: At)
    ensures draws { (w : Word) (m n k : ℕ) → has_mark draws.new (key_of w) (m, n, k) ≡
        (has_mark draws.old (key_of w) (m, n, k) && not (draws_mark w m (as_touch touched) && ((at.lane == n) && (at.place == k)))) }
    ensures shows { (w : Word) (m n k : ℕ) → has_mark shows.new (key_of w) (m, n, k) ≡
        (has_mark shows.old (key_of w) (m, n, k) && not (shows_mark w m (as_touch touched) && ((at.lane == n) && (at.place == k)))) }
{
    match touched {
        Touched::Draws { word, mark } => draws.take(key_of(word), (mark, at.lane, at.place)),
        Touched::Shows { word, mark } => shows.take(key_of(word), (mark, at.lane, at.place)),
        Touched::Neither => {}
    }
}

/// Puts the marks of the records of lane `n`.
fn put_lane(
    draws: &mut Marks,
    shows: &mut Marks,
    alloc: Global,
    n: u32,
    lane: &Lane,
) -> Result<(), AllocError>
    requires { length lane.now < 2 ^ 32 }
    ensures draws { OnOk result ((w : Word) (m i k : ℕ) → has_mark draws.new (key_of w) (m, i, k) ≡
        (has_mark draws.old (key_of w) (m, i, k) || ((n == i) && draws_mark w m (touch_at (record_in lane.now k))))) }
    ensures shows { OnOk result ((w : Word) (m i k : ℕ) → has_mark shows.new (key_of w) (m, i, k) ≡
        (has_mark shows.old (key_of w) (m, i, k) || ((n == i) && shows_mark w m (touch_at (record_in lane.now k))))) }
{
    for (k, r) in lane.items.iter().enumerate() {
        let at = At {
            lane: n,
            place: k as u32,
        };
        put_record(draws, shows, alloc, r, at)?;
    }
    Ok(())
}

impl<'a> Remaining<'a> {
    /// Nothing stands in the order yet.
    pub fn of(alloc: Global, lanes: &'a Lanes) -> Result<Self, AllocError>
        requires { IsSmall lanes.now }
        ensures { IfOk result (λ r. r ≡ record { lanes = lanes.now; fronts = replicate (length lanes.now) 0 }) }
    {
        let mut draws = Marks::none(alloc);
        let mut shows = Marks::none(alloc);
        let mut fronts = Vec::new(alloc);
        for (n, lane) in lanes.items.iter().enumerate() {
            put_lane(&mut draws, &mut shows, alloc, n as u32, lane)?;
            fronts.push(0)?;
        }
        Ok(Remaining {
            lanes,
            fronts,
            draws,
            shows,
        })
    }

    /// How many lanes there are.
    pub fn count(&self) -> usize
        ensures { result ≡ length self.now.lanes }
    {
        let lanes = self.lanes;
        lanes.items.len()
    }

    /// Whether the lane has a record left.
    pub fn has_next(&self, lane: usize) -> bool
        requires { lane < length self.now.lanes }
        ensures { IsTrue result ↔ HasNext self.now lane }
    {
        self.fronts[lane] < length_of(self.lanes, lane)
    }

    /// The place of the lane's next record.
    pub fn head(&self, lane: usize) -> At
        requires { HasNext self.now lane }
        ensures { record_place result.lane result.place ≡ head self.now lane }
    {
        let front = self.fronts[lane];
        At {
            lane: lane as u32,
            place: front as u32,
        }
    }

    /// What the lane's next record does to its word.
    fn touched(&self, lane: usize) -> Touched
        requires { HasNext self.now lane }
        ensures { as_touch result ≡ touch_at (item_at self.now.lanes (head self.now lane)) }
    {
        touched_at(self.lanes, lane, self.fronts[lane])
    }

    /// A record that must stand before the lane's next one, and doesn't stand in the order yet.
    pub fn blocker(&self, lane: usize) -> Option<At>
        requires { HasNext self.now lane }
        ensures { MatchOption result ((x : RecordPlace) → Blocks self.now lane x → ⊥) (λ x. Blocks self.now lane (record_place x.lane x.place)) }
    {
        match self.touched(lane) {
            Touched::Draws { word, mark } => match self.draws.below(key_of(word), mark) {
                Some(x) => Some(x),
                None => self.shows.below(key_of(word), mark),
            },
            Touched::Shows { word, mark } => self.draws.within(key_of(word), mark),
            Touched::Neither => None,
        }
    }

    /// A record that must stand before the next one of a lane that waits.
    pub fn before(&self, lane: usize) -> At
        requires next { HasNext self.now lane }
        requires waits { MayGo self.now lane → ⊥ }
        ensures { Blocks self.now lane (record_place result.lane result.place) }
    {
        match self.blocker(lane) {
            Some(x) => x,
            None => unreachable!(),
        }
    }

    /// Whether the lane's next record may go into the order.
    fn may_go(&self, lane: usize) -> bool
        requires { lane < length self.now.lanes }
        ensures yes { IsTrue result → MayGo self.now lane }
        ensures no { MayGo self.now lane → IsTrue result }
    {
        self.has_next(lane) && self.blocker(lane).is_none()
    }

    /// The lowest lane whose next record may go into the order.
    pub fn lowest(&self) -> Option<usize>
        ensures free { MatchOption result ((n : ℕ) → MayGo self.now n → ⊥) (λ n. MayGo self.now n) }
        ensures lower { IfSome result (λ n. (k : ℕ) → k < n → MayGo self.now k → ⊥) }
    {
        for lane in 0..self.count() {
            if self.may_go(lane) {
                return Some(lane);
            }
        }
        None
    }

    /// A lane with a record left.
    pub fn unfinished(&self) -> Option<usize>
        ensures { MatchOption result ((n : ℕ) → HasNext self.now n → ⊥) (λ n. HasNext self.now n) }
    {
        for n in 0..self.count() {
            if self.has_next(n) {
                return Some(n);
            }
        }
        None
    }

    /// Puts the lane's next record into the order.
    pub fn pass(&mut self, lane: usize)
        requires { HasNext self.old lane }
        ensures { self.new ≡ record { lanes = self.old.lanes; fronts = slice_set self.old.fronts lane (front self.old lane + 1) } }
    {
        let at = self.head(lane);
        let touched = self.touched(lane);
        take_mark(&mut self.draws, &mut self.shows, touched, at);
        self.fronts[lane] += 1;
    }
}
