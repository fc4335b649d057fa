//! The calls on signals.

ghost use Rattle.std.specs.Prelude.{◌≡◌, [], ◌∷◌, ◌++◌, ◌<◌, ◌≤◌, ◌==◌, IsTrue, length};
ghost use Rattle.qp_model.specs.WordLaw.{is_object, is_signal};
ghost use Rattle.qp_side.specs.Told.{bit_in};

use crate::records::record_of;
use crate::seat::SideSeat;
use crate::signal_steps::{look_at_all, look_for, put, take};
use qp_model::{Rec, kinds};
use qp_table::UNIT;

/// Whether the word of a signal has the object as a subscriber.
fn has_bit(word: u64, object: u8) -> bool
    requires some { 0 < object }
    requires within { object ≤ 32 }
    ensures { result ≡ (bit_in object word == 1) }
{
    (word % UNIT) >> (object - 1) & 1 == 1
}

impl SideSeat<'_> {
    ghost use Rattle.qp_side.specs.Seat.{StaysAs, side_recs, serves_object};
    ghost use Rattle.qp_side.specs.Calls.{SideSubscribes, SideUnsubscribes, ShowsSet};

    /// Object `o`, which the seat serves, subscribes to a signal. The record is `sub`, or `same` where it does already.
    pub fn subscribe(&mut self, o: u8, sig: u16) -> Rec
        requires room { length (side_recs self.old.seat.me.0) ≤ 1000000 }
        requires object { IsTrue (is_object self.old.words.now.shared.key o) }
        requires serves { IsTrue (serves_object self.old.seat.me.0 o) }
        requires signal { IsTrue (is_signal self.old.words.now.shared.key sig) }
        ensures same { (self.new.words ≡ self.old.words) × (self.new.seat.table_id ≡ self.old.seat.table_id) }
        ensures stays { StaysAs self.old.seat.me.0 self.new.seat.me.0 }
        ensures answered { side_recs self.new.seat.me.0 ≡ side_recs self.old.seat.me.0 ++ result ∷ [] }
        ensures subscribes { SideSubscribes self.old.words.now.shared.key o sig self.old.seat.me.0 result self.new.seat.me.0 }
    {
        let shown = look_for(self.words, &mut self.seat, o, sig, 1);
        if has_bit(shown, o) {
            return record_of(kinds::SAME, o, &[u64::from(sig), shown / UNIT]);
        }
        let found = put(self.words, &mut self.seat, o, sig);
        record_of(kinds::SUB, o, &[u64::from(sig), found / UNIT])
    }

    /// Object `o`, which the seat serves, unsubscribes from a signal. The record is `unsub`, or `same` where it doesn't
    /// subscribe.
    pub fn unsubscribe(&mut self, o: u8, sig: u16) -> Rec
        requires room { length (side_recs self.old.seat.me.0) ≤ 1000000 }
        requires object { IsTrue (is_object self.old.words.now.shared.key o) }
        requires serves { IsTrue (serves_object self.old.seat.me.0 o) }
        requires signal { IsTrue (is_signal self.old.words.now.shared.key sig) }
        ensures same { (self.new.words ≡ self.old.words) × (self.new.seat.table_id ≡ self.old.seat.table_id) }
        ensures stays { StaysAs self.old.seat.me.0 self.new.seat.me.0 }
        ensures answered { side_recs self.new.seat.me.0 ≡ side_recs self.old.seat.me.0 ++ result ∷ [] }
        ensures unsubscribes { SideUnsubscribes self.old.words.now.shared.key o sig self.old.seat.me.0 result self.new.seat.me.0 }
    {
        let shown = look_for(self.words, &mut self.seat, o, sig, 0);
        if !has_bit(shown, o) {
            return record_of(kinds::SAME, o, &[u64::from(sig), shown / UNIT]);
        }
        let found = take(self.words, &mut self.seat, o, sig);
        record_of(kinds::UNSUB, o, &[u64::from(sig), found / UNIT])
    }

    /// Looks at the subscribers of a signal for object `o`, 0 for none. The record is `pub`, whose set has bit `p - 1` for
    /// object `p`.
    pub fn subscribers(&mut self, o: u8, sig: u16) -> Rec
        requires room { length (side_recs self.old.seat.me.0) ≤ 1000000 }
        requires signal { IsTrue (is_signal self.old.words.now.shared.key sig) }
        ensures same { (self.new.words ≡ self.old.words) × (self.new.seat.table_id ≡ self.old.seat.table_id) }
        ensures stays { StaysAs self.old.seat.me.0 self.new.seat.me.0 }
        ensures answered { side_recs self.new.seat.me.0 ≡ side_recs self.old.seat.me.0 ++ result ∷ [] }
        ensures shows { ShowsSet self.old.words.now.shared.key o sig self.old.seat.me.0 result self.new.seat.me.0 }
    {
        let found = look_at_all(self.words, &mut self.seat, o, sig);
        record_of(kinds::PUB, o, &[u64::from(sig), found / UNIT, found % UNIT])
    }
}
