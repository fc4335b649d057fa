//! The calls on the stop word.

ghost use Rattle.std.specs.Prelude.{◌≡◌, ◌<◌, ◌≤◌};

use crate::seat::SideSeat;
use crate::stop_steps::{find, hand_in};

impl SideSeat<'_> {
    ghost use Rattle.qp_side.specs.Calls.{SideHandsIn, FindsCode};

    /// Sets the stop word to a code where it is 0.
    pub fn stop(&mut self, code: u8)
        requires some { 0 < code }
        requires most { code ≤ 7 }
        ensures same { (self.new.words ≡ self.old.words) × (self.new.seat.table_id ≡ self.old.seat.table_id) }
        ensures hands { SideHandsIn code self.old.seat.me.0 self.new.seat.me.0 }
    {
        hand_in(self.words, &mut self.seat, code);
    }

    /// The code in the stop word. None exactly where it is 0.
    pub fn stopped(&mut self) -> Option<u8>
        ensures same { (self.new.words ≡ self.old.words) × (self.new.seat.table_id ≡ self.old.seat.table_id) }
        ensures finds { FindsCode self.old.seat.me.0 self.new.seat.me.0 result }
    {
        let code = find(self.words, &mut self.seat);
        if code == 0 {
            return None;
        }
        Some(code as u8)
    }
}
