//! Where reading begins: at the first record, or at one of the last two.

ghost use Rattle.std.specs.Prelude.{◌≡◌, ◌-◌, ◌≤◌, drop, length};
ghost use Rattle.qp_packed.specs.Packing.{record_begin};
ghost use Rattle.qp_packed.specs.Lanes.{lane_unpacked};

use crate::cursor::{Cursor, words_from};
use crate::packed_lane::PackedLane;

impl PackedLane {
    /// The records, one after another.
    pub fn cursor(&self) -> Cursor<'_>
        ensures { result ≡ lane_unpacked self.now }
    {
        Cursor::over(&self.words, self.count)
    }

    /// The last record alone.
    pub fn last(&self) -> Cursor<'_>
        ensures { result ≡ drop (length (lane_unpacked self.now) - 1) (lane_unpacked self.now) }
    {
        self.tail(self.last, 1)
    }

    /// The last two records.
    pub fn last_two(&self) -> Cursor<'_>
        ensures { result ≡ drop (length (lane_unpacked self.now) - 2) (lane_unpacked self.now) }
    {
        self.tail(self.last_but_one, 2)
    }

    /// So many of the last records, of which the first begins here.
    fn tail(&self, at: usize, most: usize) -> Cursor<'_>
        requires { at ≡ record_begin (length (lane_unpacked self.now) - most) (lane_unpacked self.now) }
        ensures { result ≡ drop (length (lane_unpacked self.now) - most) (lane_unpacked self.now) }
    {
        let before = self.count.saturating_sub(most);
        Cursor::over(words_from(&self.words, at), self.count - before)
    }
}
