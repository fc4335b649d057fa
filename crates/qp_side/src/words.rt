//! The first words and the root's seat; seats that it gives, and seats that join.

ghost use Rattle.std.specs.Prelude.{◌≡◌, ℕ, ◌+◌, ◌<◌, [], IfOk, length, slice_index};
ghost use Rattle.qp_model.specs.Lists.{count_up};
ghost use Rattle.qp_model.specs.Sound.{IsSound};
ghost use Rattle.qp_table.specs.Counting.{many};
ghost use Rattle.qp_table.specs.Rule.{is_number};
ghost use Rattle.qp_table.specs.First.{first_serves};
ghost use Rattle.qp_side.specs.declared.view.SideView.{SideView};
ghost use Rattle.qp_side.specs.Told.{root_less, seat_with, both_of, no_seat, side_onlooker, side_root};
ghost use Rattle.qp_side.specs.Seats.{in_set, SideMayPart, WholeTold};

use crate::steps::{NOTHING, Words, look};
use crate::view::SideView;
use atomic_table::{Join, Seat, Split, Table};
use qp_base::Memory;
use qp_model::System;
use std::alloc::Global;
use std::marker::{Brand, PhantomData};

/// All words where nothing has happened.
fn zeros(alloc: Global) -> Result<Vec<u64>, Memory>
    ensures wide { IfOk result (λ w. length w.items ≡ 4489) }
    ensures each { IfOk result (λ w. (k : ℕ) → k < 4489 → slice_index w.items k ≡ 0) }
{
    let mut items = Vec::new(alloc);
    for at in 0..4489usize {
        items.push(0).map_err(|_| Memory)?;
    }
    Ok(items)
}

/// The words of a system where nothing has happened, and the seat of the root, which has all numbers and serves every object.
pub fn new_words(alloc: Global, sys: &System) -> Result<(Words, Seat<(), SideView>), Memory>
    requires sound { IsSound sys.now }
    ensures wide { IfOk result (λ t. t.0.shared.table_id.words ≡ 4489) }
    ensures key { IfOk result (λ t. t.0.shared.key ≡ sys.now) }
    ensures seat { IfOk result (λ t. (t.1.table_id ≡ t.0.shared.table_id) × (t.1.id ≡ 0) × (t.1.me.1 ≡ [])) }
    ensures view { IfOk result (λ t. t.1.me.0 ≡ side_root (count_up 0 49) (first_serves sys.now 32)) }
{
    let words = zeros(alloc)?;
    Table::of_words(alloc, words.as_slice(), sys).map_err(|_| Memory)
}

/// How a view is cut in two. Its caller picks it.
trait Parts {
    ghost left: { SideView → SideView };

    ghost right: { SideView → SideView };
}

impl Parts for Brand {
    ghost left = { λ v. v };

    ghost right = { λ v. v };
}

struct Parted<T: Parts>(PhantomData<T>);

impl<T: Parts> Split<SideView> for Parted<T> {
    ghost left = { T.left };

    ghost right = { T.right };
}

fn part<T: Parts>(
    words: &Words,
    root: &mut Seat<(), SideView>,
    _number: u64,
    _objects: u32,
) -> Seat<(), SideView>
    requires own { (root.old.table_id ≡ words.now.shared.table_id) × (0 < words.now.shared.table_id.words) }
    requires keeps { SideMayPart words.now.shared.key root.old.id root.old.me.0 (T.left root.old.me.0) (T.right root.old.me.0) }
    ensures root { (root.new.table_id ≡ root.old.table_id) × (root.new.id ≡ root.old.id) × (root.new.me.1 ≡ root.old.me.1) }
    ensures left { root.new.me.0 ≡ T.left root.old.me.0 }
    ensures seat { (result.table_id ≡ root.old.table_id) × (result.me.1 ≡ []) }
    ensures right { result.me.0 ≡ T.right root.old.me.0 }
{
    words.shared.split_seat::<Parted<T>>(root)
}

/// The root, which has no records, gives a seat this number of its own, and its objects in the set, bit `o - 1` for object `o`.
pub fn give_seat(
    words: &Words,
    root: &mut Seat<(), SideView>,
    number: u64,
    objects: u32,
) -> Seat<(), SideView>
    requires own { root.old.table_id ≡ words.now.shared.table_id }
    requires wide { words.now.shared.table_id.words ≡ 4489 }
    requires few { number < 49 }
    requires left { 0 < many (is_number number) root.old.me.0.view.lane_numbers }
    requires bare { root.old.me.0.view.logs ≡ [] }
    ensures same { (root.new.table_id ≡ root.old.table_id) × (root.new.id ≡ root.old.id) × (root.new.me.1 ≡ root.old.me.1) }
    ensures root { root.new.me.0 ≡ root_less number (in_set objects) root.old.me.0 }
    ensures table { (result.table_id ≡ root.old.table_id) × (result.me.1 ≡ []) }
    ensures seat { result.me.0 ≡ seat_with number (in_set objects) root.old.me.0 }
{
    part::<Brand>(words, root, number, objects)
}

/// A seat that has seen what another has, which stays as it is.
pub fn look_on(words: &Words, seat: &mut Seat<(), SideView>) -> Seat<(), SideView>
    requires own { seat.old.table_id ≡ words.now.shared.table_id }
    requires wide { words.now.shared.table_id.words ≡ 4489 }
    ensures same { (seat.new.table_id ≡ seat.old.table_id) × (seat.new.id ≡ seat.old.id) × (seat.new.me.1 ≡ seat.old.me.1) }
    ensures stays { seat.new.me.0 ≡ seat.old.me.0 }
    ensures table { (result.table_id ≡ seat.old.table_id) × (result.me.1 ≡ []) }
    ensures seat { result.me.0 ≡ side_onlooker seat.old.me.0 }
{
    part::<Brand>(words, seat, 0, 0)
}

/// Another seat is taken in.
struct Together;

impl Join<SideView> for Together {
    ghost both = { both_of };

    ghost spent = { no_seat };
}

/// A seat takes over another: its records, its numbers, what it saw, and the codes that it handed in and found.
pub fn join_seats(words: &Words, seat: &mut Seat<(), SideView>, other: Seat<(), SideView>)
    requires own { seat.old.table_id ≡ words.now.shared.table_id }
    requires wide { words.now.shared.table_id.words ≡ 4489 }
    requires other { (other.table_id ≡ words.now.shared.table_id) × (other.me.1 ≡ []) }
    ensures same { (seat.new.table_id ≡ seat.old.table_id) × (seat.new.id ≡ seat.old.id) × (seat.new.me.1 ≡ seat.old.me.1) }
    ensures both { seat.new.me.0 ≡ both_of seat.old.me.0 other.me.0 }
{
    words.shared.join_seat::<Together>(seat, other);
}

/// The seat with all numbers, of which some are logs', looks at the stop word, and so knows the whole: the records of all seats keep the law of
/// the words of signals and time events, and each code that was found was handed in.
pub fn know_whole(words: &Words, seat: &mut Seat<(), SideView>)
    requires own { seat.old.table_id ≡ words.now.shared.table_id }
    requires wide { words.now.shared.table_id.words ≡ 4489 }
    requires all { length seat.old.me.0.view.logs + length seat.old.me.0.view.lane_numbers ≡ 49 }
    ensures same { (seat.new.table_id ≡ seat.old.table_id) × (seat.new.id ≡ seat.old.id) × (seat.new.me.1 ≡ seat.old.me.1) }
    ensures told { WholeTold words.now.shared.key seat.old.me.0 seat.new.me.0 }
{
    look::<Brand>(words, seat, 4488, NOTHING);
}
