//! The calls on time events. Each looks, and then tries until the word is still as it was last seen, or its counter
//! decides. Tries are at most one more than others made operations on the word meanwhile.

ghost use Rattle.std.specs.Prelude.{◌≡◌, [], ◌∷◌, ◌++◌, ◌<◌, ◌≤◌, IsTrue, length};
ghost use Rattle.qp_model.specs.WordLaw.{is_timer};
ghost use Rattle.qp_model.specs.declared.words.Word.TheVariants as word;

use crate::records::record_of;
use crate::seat::SideSeat;
use crate::tries::{try_arm, try_disarm, try_rearm, try_tick};
use qp_base::Steps;
use qp_model::{Rec, kinds};
use qp_table::UNIT;
use std::sync::ledger::Ledger;

impl SideSeat<'_> {
    ghost use Rattle.qp_side.specs.Seat.{StaysAs, side_recs};
    ghost use Rattle.qp_model.specs.Parts.{OwnsTimer};
    ghost use Rattle.qp_side.specs.Calls.{ArmsTimer, DisarmsTimer, RearmsTimer, SideTries, SideTicksTimer};

    /// Arms a time event of object `o`. The record is `arm`, or assertion 3 where its counter isn't 0.
    pub fn arm<L: Ledger>(
        &mut self,
        o: u8,
        t: u8,
        ticks: u16,
        interval: u16,
        steps: &mut Steps<L>,
    ) -> Rec
        requires room { length (side_recs self.old.seat.me.0) ≤ 1000000 }
        requires some { 0 < ticks }
        requires owns { OwnsTimer self.old.words.now.shared.key o t }
        ensures same { (self.new.words ≡ self.old.words) × (self.new.seat.table_id ≡ self.old.seat.table_id) }
        ensures stays { StaysAs self.old.seat.me.0 self.new.seat.me.0 }
        ensures answered { side_recs self.new.seat.me.0 ≡ side_recs self.old.seat.me.0 ++ result ∷ [] }
        ensures arms { ArmsTimer self.old.words.now.shared.key o t ticks interval self.old.seat.me.0 result self.new.seat.me.0 }
        ensures tries { SideTries self.old.words.now.shared.key (word.Timer t) result steps.old steps.new self.old.seat.me.0 self.new.seat.me.0 }
    {
        let (found, done) = try_arm(self.words, &mut self.seat, o, t, ticks, interval, steps);
        let (t, n) = (u64::from(t), found / UNIT);
        if !done {
            return record_of(kinds::ASSERT, o, &[3, t, n, found % 65536]);
        }
        record_of(
            kinds::ARM,
            o,
            &[t, n, u64::from(ticks), u64::from(interval)],
        )
    }

    /// Disarms a time event of object `o`. The record is `disarm` with the former counter, or `idle` where that is 0.
    pub fn disarm<L: Ledger>(&mut self, o: u8, t: u8, steps: &mut Steps<L>) -> Rec
        requires room { length (side_recs self.old.seat.me.0) ≤ 1000000 }
        requires owns { OwnsTimer self.old.words.now.shared.key o t }
        ensures same { (self.new.words ≡ self.old.words) × (self.new.seat.table_id ≡ self.old.seat.table_id) }
        ensures stays { StaysAs self.old.seat.me.0 self.new.seat.me.0 }
        ensures answered { side_recs self.new.seat.me.0 ≡ side_recs self.old.seat.me.0 ++ result ∷ [] }
        ensures disarms { DisarmsTimer self.old.words.now.shared.key o t self.old.seat.me.0 result self.new.seat.me.0 }
        ensures tries { SideTries self.old.words.now.shared.key (word.Timer t) result steps.old steps.new self.old.seat.me.0 self.new.seat.me.0 }
    {
        let (found, done) = try_disarm(self.words, &mut self.seat, o, t, steps);
        let (t, n) = (u64::from(t), found / UNIT);
        if !done {
            return record_of(kinds::IDLE, o, &[t, n]);
        }
        record_of(kinds::DISARM, o, &[t, n, found % 65536])
    }

    /// Sets the counter of a time event of object `o`; the interval stays. The record is `rearm` with the former counter.
    pub fn rearm<L: Ledger>(&mut self, o: u8, t: u8, ticks: u16, steps: &mut Steps<L>) -> Rec
        requires room { length (side_recs self.old.seat.me.0) ≤ 1000000 }
        requires some { 0 < ticks }
        requires owns { OwnsTimer self.old.words.now.shared.key o t }
        ensures same { (self.new.words ≡ self.old.words) × (self.new.seat.table_id ≡ self.old.seat.table_id) }
        ensures stays { StaysAs self.old.seat.me.0 self.new.seat.me.0 }
        ensures answered { side_recs self.new.seat.me.0 ≡ side_recs self.old.seat.me.0 ++ result ∷ [] }
        ensures rearms { RearmsTimer self.old.words.now.shared.key o t ticks self.old.seat.me.0 result self.new.seat.me.0 }
        ensures tries { SideTries self.old.words.now.shared.key (word.Timer t) result steps.old steps.new self.old.seat.me.0 self.new.seat.me.0 }
    {
        let found = try_rearm(self.words, &mut self.seat, o, t, ticks, steps);
        record_of(
            kinds::REARM,
            o,
            &[u64::from(t), found / UNIT, found % 65536, u64::from(ticks)],
        )
    }

    /// A tick of a time event, where the lane works for object `o`, 0 for none. The record is `tick` with the ticks that
    /// are left, or `fire` with the counter that is reloaded, or `idle` where it is disarmed.
    pub fn tick_one<L: Ledger>(&mut self, o: u8, t: u8, steps: &mut Steps<L>) -> Rec
        requires room { length (side_recs self.old.seat.me.0) ≤ 1000000 }
        requires timer { IsTrue (is_timer self.old.words.now.shared.key t) }
        ensures same { (self.new.words ≡ self.old.words) × (self.new.seat.table_id ≡ self.old.seat.table_id) }
        ensures stays { StaysAs self.old.seat.me.0 self.new.seat.me.0 }
        ensures answered { side_recs self.new.seat.me.0 ≡ side_recs self.old.seat.me.0 ++ result ∷ [] }
        ensures ticks { SideTicksTimer self.old.words.now.shared.key o t self.old.seat.me.0 result self.new.seat.me.0 }
        ensures tries { SideTries self.old.words.now.shared.key (word.Timer t) result steps.old steps.new self.old.seat.me.0 self.new.seat.me.0 }
    {
        let (found, done) = try_tick(self.words, &mut self.seat, o, t, steps);
        let (t, n) = (u64::from(t), found / UNIT);
        if !done {
            return record_of(kinds::IDLE, o, &[t, n]);
        }
        if found % 65536 == 1 {
            return record_of(kinds::FIRE, 0, &[t, n, found / 65536 % 65536]);
        }
        record_of(kinds::TICK, 0, &[t, n, found % 65536 - 1])
    }
}
