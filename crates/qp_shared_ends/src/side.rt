//! The root's seat on the side table becomes that of a lane.

ghost use Rattle.std.specs.Prelude.{◌≡◌, ◌<◌, []};
ghost use Rattle.qp_table.specs.Counting.{many};
ghost use Rattle.qp_table.specs.Rule.{is_number};
ghost use Rattle.qp_shared_ends.specs.Seats.{NumberTold};

use atomic_table::Seat;
use qp_side::steps::{NOTHING, SideAbout, look};
use qp_side::{SideView, Words};
use std::marker::Brand;

/// The root, which has no records, takes one of its numbers for itself: it is the seat of that lane from then on, and keeps the numbers that
/// are left.
pub fn become_lane(words: &Words, root: &mut Seat<(), SideView>, number: u64)
    requires own { root.old.table_id ≡ words.now.shared.table_id }
    requires wide { words.now.shared.table_id.words ≡ 4489 }
    requires few { number < 49 }
    requires left { 0 < many (is_number number) root.old.me.0.view.lane_numbers }
    requires bare { root.old.me.0.view.logs ≡ [] }
    ensures same { (root.new.table_id ≡ root.old.table_id) × (root.new.id ≡ root.old.id) × (root.new.me.1 ≡ root.old.me.1) }
    ensures root { NumberTold number root.old.me.0 root.new.me.0 }
{
    let about = SideAbout {
        old: number,
        ..NOTHING
    };
    look::<Brand>(words, root, 0, about);
}
