//! Parkers: how many notes a lane gave, and how often it parked.

ghost use Rattle.std.specs.Prelude.{◌≡◌, IfOk};
ghost use Rattle.std.specs.Arc.{arc_value};
ghost use Rattle.crossbeam_utils.specs.Token.{IsSamePass, parker_view};
ghost use Rattle.qp_wait_bells.specs.Parks.{HasNoted, no_notes, with_note, with_park};

use atomic_table::Split;
use crossbeam_utils::rule::{Outcome, Protocol};
use crossbeam_utils::sync::parker::{Pass, RuledParker, RuledUnparker};
use std::alloc::{AllocError, Global};
use std::sync::Wait;

/// The notes that a pass gave and the parks that it made. No value of it is made.
pub struct Notes {
    pub given: u64,
    pub parks: u64,
}

/// A park takes a note that was given.
pub struct Rule;

impl Protocol<bool, Notes> for Rule {
    ghost holds = { HasNoted };

    ghost first = { no_notes };
}

/// The parker of one object, which one thread has: several may not share it.
pub type Bell = RuledParker<Notes, Rule, Global>;

/// What wakes it, which all threads share.
pub type Waker = RuledUnparker<Notes, Rule, Global>;

struct Gives;

impl Outcome<bool, Notes> for Gives {
    ghost then = { λ v was is w. w ≡ with_note v };
}

struct Parks;

impl Outcome<bool, Notes> for Parks {
    ghost then = { λ v was is w. w ≡ with_park v };
}

/// Gives a note, and wakes the thread that is parked.
pub fn give_note(waker: &Waker, pass: &mut Pass<Notes>)
    requires own { pass.old.table_id ≡ (arc_value waker.now.state).shared.table_id }
    ensures same { IsSamePass pass.old pass.new }
    ensures given { parker_view pass.new ≡ with_note (parker_view pass.old) }
{
    waker.unpark_as::<Gives>(pass);
}

/// Parks until a note is there, and takes it.
pub fn park_once<R: Wait>(rt: &R, bell: &Bell, pass: &mut Pass<Notes>)
    requires own { pass.old.table_id ≡ (arc_value bell.now.unparker.state).shared.table_id }
    ensures same { IsSamePass pass.old pass.new }
    ensures parked { parker_view pass.new ≡ with_park (parker_view pass.old) }
{
    bell.park_as::<Parks, R>(rt, pass);
}

/// A parker, with what wakes it, and the first pass.
pub fn new_bell(alloc: Global) -> Result<(Bell, Pass<Notes>), AllocError>
    ensures { IfOk result (λ b. (b.1.table_id ≡ (arc_value b.0.unparker.state).shared.table_id) × (parker_view b.1 ≡ no_notes)) }
{
    RuledParker::ruled(alloc)
}

/// A pass for a lane is split off with nothing in it.
struct Apart;

impl Split<Notes> for Apart {
    ghost left = { λ v. v };

    ghost right = { λ v. no_notes };
}

/// A pass for a lane.
pub fn pass_of(waker: &Waker, root: &mut Pass<Notes>) -> Pass<Notes>
    requires own { root.old.table_id ≡ (arc_value waker.now.state).shared.table_id }
    ensures root { IsSamePass root.old root.new × (parker_view root.new ≡ parker_view root.old) }
    ensures lane { (result.table_id ≡ root.old.table_id) × (parker_view result ≡ no_notes) }
{
    waker.split_pass::<Apart>(root)
}
