//! The side table: its words, the root that gives seats, and the end of all seats.

ghost use Rattle.std.specs.Prelude.{◌≡◌, ◌-◌, ◌≤◌, length};
ghost use Rattle.qp_model.specs.Lists.{count_up};
ghost use Rattle.qp_side.specs.Rule.{SideFitting};

use crate::seat::SideSeat;
use crate::steps::Words;
use crate::view::SideView;
use crate::words::{give_seat, join_seats, know_whole, new_words};
use atomic_table::Seat;
use qp_base::Memory;
use qp_model::System;
use std::alloc::Global;

/// The words of a system's signals and time events, and the stop word, which threads share.
#[derive(Drop)]
pub struct Side {
    pub words: Words,
    pub ghost wide: { words.shared.table_id.words ≡ 4489 },
    pub ghost fitting: { SideFitting words.shared.key },
}

/// What gives the seats of one side table. Contracts see how many it gave, and in its view the objects that it still
/// serves, at first all.
#[derive(Drop)]
pub struct SideRoot {
    pub seat: Seat<(), SideView>,
    pub given: u8,
    pub ghost few: { given ≤ 49 },
    pub ghost left: { seat.me.0.view.lane_numbers ≡ count_up given (49 - given) },
    pub ghost none: { length seat.me.0.view.logs ≡ 0 },
    pub ghost quiet: { length seat.me.0.stops ≡ 0 },
    pub ghost bare: { length seat.me.1 ≡ 0 },
}

impl Side {
    ghost use Rattle.std.specs.Prelude.{ℕ, ◌+◌, ◌<◌, ◌&&◌, not, All, IfOk, IsTrue, map, sum_by};
    ghost use Rattle.qp_model.specs.Sound.{IsSound};
    ghost use Rattle.qp_model.specs.WordLaw.{is_object};
    ghost use Rattle.qp_table.specs.First.{first_serves};
    ghost use Rattle.qp_side.specs.Seats.{in_set};
    ghost use Rattle.qp_side.specs.Told.{root_less, seat_with, side_root};
    ghost use Rattle.qp_side.specs.Seat.{is_in, rights, serves_object};
    ghost use Rattle.qp_side.specs.Ending.{SideEnds};

    /// The words of a system where nothing has happened, and the root, which serves every object.
    pub fn new(alloc: Global, sys: &System) -> Result<(Side, SideRoot), Memory>
        requires { IsSound sys.now }
        ensures system { IfOk result (λ t. t.0.words.shared.key ≡ sys.now) }
        ensures root { IfOk result (λ t. (t.1.seat.table_id ≡ t.0.words.shared.table_id) × (t.1.given ≡ 0)) }
        ensures view { IfOk result (λ t. t.1.seat.me.0 ≡ side_root (count_up 0 49) (first_serves sys.now 32)) }
        ensures serves { IfOk result (λ t. (o : ℕ) → serves_object t.1.seat.me.0 o ≡ is_object sys.now o) }
    {
        let (words, seat) = new_words(alloc, sys)?;
        Ok((Side { words }, SideRoot { seat, given: 0 }))
    }

    /// A seat for a lane, whose number is the count of the seats given before it. It serves the objects of the set, bit
    /// `o - 1` for object `o`, which the root then serves no longer.
    pub fn seat(&self, root: &mut SideRoot, serves: u32) -> SideSeat<'_>
        requires root { root.old.seat.table_id ≡ self.now.words.shared.table_id }
        requires serves { (o : ℕ) → 0 < o → IsTrue (is_in serves o) → IsTrue (serves_object root.old.seat.me.0 o) }
        requires few { root.old.given < 49 }
        ensures given { (root.new.given ≡ root.old.given + 1) × (root.new.seat.table_id ≡ root.old.seat.table_id) }
        ensures root { root.new.seat.me.0 ≡ root_less root.old.given (in_set serves) root.old.seat.me.0 }
        ensures own { (result.words.now ≡ self.now.words) × (result.seat.table_id ≡ root.old.seat.table_id) }
        ensures seat { result.seat.me.0 ≡ seat_with root.old.given (in_set serves) root.old.seat.me.0 }
        ensures serves { (o : ℕ) → 0 < o → serves_object result.seat.me.0 o ≡ is_in serves o }
        ensures rest { (o : ℕ) → 0 < o → serves_object root.new.seat.me.0 o ≡ serves_object root.old.seat.me.0 o && not (is_in serves o) }
    {
        let seat = give_seat(&self.words, &mut root.seat, u64::from(root.given), serves);
        root.given += 1;
        SideSeat {
            words: &self.words,
            seat,
        }
    }

    /// The end of all seats that the root gave, which have all lanes' numbers with it, in any order: their records keep the law of the words of signals and time
    /// events, no seat's mark is above a word's history, and the code that seats found is one, which a seat handed in.
    pub fn finish(&self, root: SideRoot, seats: Vec<SideSeat<'_>>)
        requires root { root.seat.table_id ≡ self.now.words.shared.table_id }
        requires own { All (λ s. s.seat.table_id ≡ self.now.words.shared.table_id) seats.items }
        requires all { rights root.seat.me.0 + sum_by (λ s. rights s.seat.me.0) seats.items ≡ 49 }
        ensures { SideEnds self.now.words.shared.key (map (λ s. s.seat.me.0) seats.entry.items) }
    {
        let SideRoot { seat, .. } = root;
        let mut whole = seat;
        let mut seats = seats;
        while let Some(next) = seats.pop() {
            let SideSeat { seat, .. } = next;
            join_seats(&self.words, &mut whole, seat);
        }
        know_whole(&self.words, &mut whole);
    }
}
