//! Seats on the words of the event table.

ghost use Rattle.std.specs.Prelude.{◌≡◌, ◌+◌, ◌<◌, [], length};
ghost use Rattle.qp_table.specs.Counting.{many};
ghost use Rattle.qp_table.specs.Rule.{is_number, table_words};
ghost use Rattle.qp_table.specs.After.{empty_view, onlooker, views_joined};
ghost use Rattle.qp_table.specs.declared.view.View.{View};
ghost use Rattle.qp_side.specs.Seats.{in_set};
ghost use Rattle.qp_shared_ends.specs.Seats.{IsOnePast, IsUnused, MayPart, StaysTold, lane_new, root_left};
ghost use Rattle.qp_shared_ends.specs.SeatEnd.{AtEnd};

use atomic_table::{Join, Seat, Split};
use qp_shared_words::Words;
use qp_shared_words::steps::{NOTHING, look};
use qp_table::View;
use std::marker::{Brand, PhantomData};

/// How a view is cut in two. Its caller picks it.
trait Parts {
    ghost left: { View → View };

    ghost right: { View → View };
}

impl Parts for Brand {
    ghost left = { λ v. v };

    ghost right = { λ v. v };
}

struct Parted<T: Parts>(PhantomData<T>);

impl<T: Parts> Split<View> for Parted<T> {
    ghost left = { T.left };

    ghost right = { T.right };
}

fn part<T: Parts>(
    words: &Words,
    seat: &mut Seat<(), View>,
    _number: u64,
    _objects: u32,
) -> Seat<(), View>
    requires own { (seat.old.table_id ≡ words.now.shared.table_id) × (0 < words.now.shared.table_id.words) }
    requires keeps { MayPart words.now.shared.key seat.old.id seat.old.me.0 (T.left seat.old.me.0) (T.right seat.old.me.0) }
    ensures same { (seat.new.table_id ≡ seat.old.table_id) × (seat.new.id ≡ seat.old.id) }
    ensures left { seat.new.me.0 ≡ T.left seat.old.me.0 }
    ensures seat { (result.table_id ≡ seat.old.table_id) × (result.me.1 ≡ []) }
    ensures right { result.me.0 ≡ T.right seat.old.me.0 }
{
    words.shared.split_seat::<Parted<T>>(seat)
}

/// The root gives a lane this number of its own, and its objects in the set, bit `o - 1` for object `o`.
pub fn give_lane(
    words: &Words,
    root: &mut Seat<(), View>,
    number: u64,
    objects: u32,
) -> Seat<(), View>
    requires own { root.old.table_id ≡ words.now.shared.table_id }
    requires wide { words.now.shared.table_id.words ≡ table_words }
    requires few { number < 49 }
    requires left { 0 < many (is_number number) root.old.me.0.lane_numbers }
    requires lane { 0 < length root.old.me.0.logs }
    requires unused { IsUnused root.old.me.0 }
    ensures same { (root.new.table_id ≡ root.old.table_id) × (root.new.id ≡ root.old.id) }
    ensures root { root.new.me.0 ≡ root_left number (in_set objects) root.old.me.0 }
    ensures table { (result.table_id ≡ root.old.table_id) × (result.me.1 ≡ []) }
    ensures seat { result.me.0 ≡ lane_new number (in_set objects) root.old.me.0 }
{
    part::<Brand>(words, root, number, objects)
}

/// A seat that has seen what another has, which stays as it is.
pub fn look_on(words: &Words, seat: &mut Seat<(), View>) -> Seat<(), View>
    requires own { seat.old.table_id ≡ words.now.shared.table_id }
    requires wide { words.now.shared.table_id.words ≡ table_words }
    ensures same { (seat.new.table_id ≡ seat.old.table_id) × (seat.new.id ≡ seat.old.id) }
    ensures stays { seat.new.me.0 ≡ seat.old.me.0 }
    ensures table { (result.table_id ≡ seat.old.table_id) × (result.me.1 ≡ []) }
    ensures seat { result.me.0 ≡ onlooker seat.old.me.0 }
{
    part::<Brand>(words, seat, 0, 0)
}

/// A seat that has all that another had.
pub fn move_all(words: &Words, seat: &mut Seat<(), View>) -> Seat<(), View>
    requires own { seat.old.table_id ≡ words.now.shared.table_id }
    requires wide { words.now.shared.table_id.words ≡ table_words }
    ensures table { (result.table_id ≡ seat.old.table_id) × (result.me.1 ≡ []) }
    ensures seat { result.me.0 ≡ seat.old.me.0 }
{
    part::<Brand>(words, seat, 0, 0)
}

/// Another seat is taken in.
struct Together;

impl Join<View> for Together {
    ghost both = { views_joined };

    ghost spent = { empty_view };
}

/// A seat takes over another.
pub fn join_seats(words: &Words, seat: &mut Seat<(), View>, other: Seat<(), View>)
    requires own { seat.old.table_id ≡ words.now.shared.table_id }
    requires wide { words.now.shared.table_id.words ≡ table_words }
    requires other { (other.table_id ≡ words.now.shared.table_id) × (other.me.1 ≡ []) }
    ensures same { (seat.new.table_id ≡ seat.old.table_id) × (seat.new.id ≡ seat.old.id) }
    ensures both { seat.new.me.0 ≡ views_joined seat.old.me.0 other.me.0 }
{
    words.shared.join_seat::<Together>(seat, other);
}

/// A look that changes nothing. It tells that all that the seat saw of a word at one number of operations is one value.
pub fn know_past(words: &Words, seat: &mut Seat<(), View>)
    requires own { seat.old.table_id ≡ words.now.shared.table_id }
    requires wide { words.now.shared.table_id.words ≡ table_words }
    ensures same { (seat.new.table_id ≡ seat.old.table_id) × (seat.new.id ≡ seat.old.id) }
    ensures told { StaysTold (IsOnePast words.now.shared.key) seat.old.me.0 seat.new.me.0 }
{
    look::<Brand>(words, seat, 0, NOTHING);
}

/// The seat with all lanes, and with all numbers that were given to none, looks and so knows the end of the table.
pub fn know_end(words: &Words, seat: &mut Seat<(), View>)
    requires own { seat.old.table_id ≡ words.now.shared.table_id }
    requires wide { words.now.shared.table_id.words ≡ table_words }
    requires all { length seat.old.me.0.logs + length seat.old.me.0.lane_numbers ≡ 49 }
    ensures same { (seat.new.table_id ≡ seat.old.table_id) × (seat.new.id ≡ seat.old.id) }
    ensures told { StaysTold (AtEnd words.now.shared.key) seat.old.me.0 seat.new.me.0 }
{
    look::<Brand>(words, seat, 0, NOTHING);
}
