//! The count of what keeps the threads awake: sources that aren't at their end, and entries whose step isn't finished.

ghost use Rattle.std.specs.Prelude.{◌≡◌, ◌<◌, [], IfOk};
ghost use Rattle.qp_wait_bells.specs.Tallies.{IsTallied, no_tally, with_added, look_found, with_taken, sum_of};

use atomic_table::{Join, Play, Seat, Split, Table, TableRule};
use std::alloc::{AllocError, Global};

/// What a seat has added to the count and taken off, how many of its looks found nothing there, and how often it took the last one off.
/// No value of it is made.
pub struct Tally {
    pub added: u64,
    pub taken: u64,
    pub empty_looks: u64,
    pub last_takes: u64,
}

/// The count is all that was added, less all that was taken off.
pub struct Law;

impl TableRule<(), Tally, ()> for Law {
    ghost holds = { λ key s. IsTallied s.words s.views };

    ghost first = { λ key. no_tally };
}

/// The table with the one word.
pub type Tallies = Table<(), Tally, (), Law, Global>;

struct Adds;

impl Play<(), Tally> for Adds {
    ghost then = { λ st m n m'. m'.0 ≡ with_added st.first m.0 };
}

struct Takes;

impl Play<(), Tally> for Takes {
    ghost then = { λ st m n m'. m'.0 ≡ with_taken n m.0 };
}

struct Finds;

impl Play<(), Tally> for Finds {
    ghost then = { λ st m n m'. m'.0 ≡ look_found n m.0 };
}

/// A lane's seat is split off with nothing in it.
struct Apart;

impl Split<Tally> for Apart {
    ghost left = { λ v. v };

    ghost right = { λ v. no_tally };
}

/// Another seat is taken in.
struct Together;

impl Join<Tally> for Together {
    ghost both = { sum_of };

    ghost spent = { no_tally };
}

/// The count, which is 0, and the first seat on it.
pub fn new_tallies(alloc: Global) -> Result<(Tallies, Seat<(), Tally>), AllocError>
    ensures own { IfOk result (λ t. (t.1.table_id ≡ t.0.shared.table_id) × (0 < t.0.shared.table_id.words)) }
    ensures none { IfOk result (λ t. t.1.me.0 ≡ no_tally) }
{
    Table::of_words(alloc, &[0], &())
}

/// Adds so many.
pub fn add(tallies: &Tallies, seat: &mut Seat<(), Tally>, n: u64)
    requires own { (seat.old.table_id ≡ tallies.now.shared.table_id) × (0 < tallies.now.shared.table_id.words) }
    ensures same { (seat.new.table_id ≡ seat.old.table_id) × (seat.new.id ≡ seat.old.id) }
    ensures added { seat.new.me.0 ≡ with_added n seat.old.me.0 }
{
    tallies.shared.fetch_add::<Adds>(seat, 0, n);
}

/// Takes one off, and answers what was there.
pub fn take_one(tallies: &Tallies, seat: &mut Seat<(), Tally>) -> u64
    requires own { (seat.old.table_id ≡ tallies.now.shared.table_id) × (0 < tallies.now.shared.table_id.words) }
    ensures same { (seat.new.table_id ≡ seat.old.table_id) × (seat.new.id ≡ seat.old.id) }
    ensures taken { seat.new.me.0 ≡ with_taken result seat.old.me.0 }
{
    tallies.shared.fetch_sub::<Takes>(seat, 0, 1)
}

/// Looks at the count, and answers what is there.
pub fn find(tallies: &Tallies, seat: &mut Seat<(), Tally>) -> u64
    requires own { (seat.old.table_id ≡ tallies.now.shared.table_id) × (0 < tallies.now.shared.table_id.words) }
    ensures same { (seat.new.table_id ≡ seat.old.table_id) × (seat.new.id ≡ seat.old.id) }
    ensures found { seat.new.me.0 ≡ look_found result seat.old.me.0 }
{
    tallies.shared.load::<Finds>(seat, 0)
}

/// A seat for a lane.
pub fn seat_of(tallies: &Tallies, root: &mut Seat<(), Tally>) -> Seat<(), Tally>
    requires own { (root.old.table_id ≡ tallies.now.shared.table_id) × (0 < tallies.now.shared.table_id.words) }
    ensures root { (root.new.table_id ≡ root.old.table_id) × (root.new.id ≡ root.old.id) × (root.new.me.0 ≡ root.old.me.0) }
    ensures lane { (result.table_id ≡ root.old.table_id) × (result.me.0 ≡ no_tally) }
{
    tallies.shared.split_seat::<Apart>(root)
}

/// Takes the other seat in: what it added and took off is this one's.
pub fn join(tallies: &Tallies, seat: &mut Seat<(), Tally>, other: Seat<(), Tally>)
    requires own { (seat.old.table_id ≡ tallies.now.shared.table_id) × (0 < tallies.now.shared.table_id.words) }
    requires other { (other.table_id ≡ tallies.now.shared.table_id) × (other.me.1 ≡ []) }
    ensures same { (seat.new.table_id ≡ seat.old.table_id) × (seat.new.id ≡ seat.old.id) }
    ensures both { seat.new.me.0 ≡ sum_of seat.old.me.0 other.me.0 }
{
    tallies.shared.join_seat::<Together>(seat, other);
}
