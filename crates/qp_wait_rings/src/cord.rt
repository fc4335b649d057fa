//! What one lane has of what wakes an object.

ghost use Rattle.std.specs.Prelude.{◌≡◌, ◌+◌, ◌%◌, ◌^◌};
ghost use Rattle.std.specs.Arc.{arc_value};
ghost use Rattle.crossbeam_utils.specs.Token.{parker_view};

use crossbeam_utils::sync::parker::Pass;
use qp_wait_bells::{Notes, Waker, give_note};

/// What wakes an object, by its priority, in the hands of one lane: with a pass, and how many notes it gave by it, modulo 2^64.
#[derive(Drop)]
pub struct Cord {
    pub object: u8,
    pub waker: Waker,
    pub pass: Pass<Notes>,
    pub pulls: u64,
    ghost own: { pass.table_id ≡ (arc_value waker.state).shared.table_id },
    ghost given: { (parker_view pass).given % 2 ^ 64 ≡ pulls },
    ghost unparked: { (parker_view pass).parks ≡ 0 },
}

impl Cord {
    /// Gives one note.
    pub fn pull(&mut self)
        ensures same { self.new.object ≡ self.old.object }
        ensures pulls { self.new.pulls ≡ (self.old.pulls + 1) % 2 ^ 64 }
    {
        give_note(&self.waker, &mut self.pass);
        self.pulls = self.pulls.wrapping_add(1);
    }
}
