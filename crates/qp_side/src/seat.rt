//! A lane's seat on the side table.

ghost use Rattle.std.specs.Prelude.{◌≡◌, length};
ghost use Rattle.qp_side.specs.Rule.{SideFitting};

use crate::steps::Words;
use crate::view::SideView;
use atomic_table::Seat;

/// A lane's seat: what it makes on the words of the side table, one call at a time. It answers records and keeps none.
///
/// Contracts see its view (`seat.me.0`): the records that it answered are its own log (`recs_of`), its mark of a signal's
/// or time event's word is `side_mark`, the objects that it serves are `view.serves`, and `stops` and `answered` are the
/// codes that it handed in and found.
#[derive(Drop)]
pub struct SideSeat<'a> {
    /// The words, which all seats of one table share.
    pub words: &'a Words,
    /// What the seat knows. It takes no bytes.
    pub seat: Seat<(), SideView>,
    pub ghost own: { seat.table_id ≡ words.now.shared.table_id },
    pub ghost wide: { words.now.shared.table_id.words ≡ 4489 },
    pub ghost fitting: { SideFitting words.now.shared.key },
    pub ghost lane: { length seat.me.0.view.logs ≡ 1 },
    pub ghost bare: { length seat.me.1 ≡ 0 },
}
