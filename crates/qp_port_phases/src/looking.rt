//! Looks at queues.

ghost use Rattle.std.specs.Prelude.{ℕ, ◌≡◌, ◌≤◌, IsTrue, true, false};
ghost use Rattle.qp_model.specs.WordLaw.{is_object};
ghost use Rattle.qp_model.specs.declared.words.Word.{Word};
ghost use Rattle.qp_port_phases.specs.Lanes.{AreObjects, Kept};
ghost use Rattle.qp_port_phases.specs.Quiet.{AreEmpty, IsEmpty};
ghost use Rattle.qp_port_phases.specs.Rows.{LaneSeesEntry};
ghost use Rattle.qp_port_phases.specs.Stopping.{SameCodes};

use crate::lanes::PhaseLane;

/// Whether a queue is seen empty by the lane.
pub(crate) fn is_empty<T: PhaseLane>(lane: &mut T, p: u8) -> bool
    requires ready { T.ready lane.old }
    requires object { IsTrue (is_object (T.view lane.old).sys p) }
    ensures kept { Kept T.ready T.same T.waits T.remains T.numbers lane.old lane.new }
    ensures rises { (w : Word) → (T.view lane.old).mark w ≤ (T.view lane.new).mark w }
    ensures codes { SameCodes (T.view lane.old) (T.view lane.new) }
    ensures empty { result ≡ true → IsEmpty (T.view lane.new) p }
    ensures entry { result ≡ false → LaneSeesEntry (T.view lane.new) p }
    ensures others { result ≡ true → (q : ℕ) → IsEmpty (T.view lane.old) q → IsEmpty (T.view lane.new) q }
{
    let c = lane.counts(p);
    u64::from(c.f) + u64::from(c.l) == u64::from(c.m)
}

/// Whether all these queues are seen empty by the lane; others that were stay so. It ends at the first that isn't.
pub(crate) fn are_empty<T: PhaseLane>(lane: &mut T, objects: &[u8]) -> bool
    requires ready { T.ready lane.old }
    requires objects { AreObjects (T.view lane.old) objects.now }
    ensures kept { Kept T.ready T.same T.waits T.remains T.numbers lane.old lane.new }
    ensures rises { (w : Word) → (T.view lane.old).mark w ≤ (T.view lane.new).mark w }
    ensures codes { SameCodes (T.view lane.old) (T.view lane.new) }
    ensures empty { result ≡ true → AreEmpty objects.now (T.view lane.new) }
    ensures entry { result ≡ false → (p : ℕ) × IsTrue (is_object (T.view lane.new).sys p) × LaneSeesEntry (T.view lane.new) p }
    ensures others { result ≡ true → (q : ℕ) → IsEmpty (T.view lane.old) q → IsEmpty (T.view lane.new) q }
{
    let Some((one, rest)) = objects.split_first() else {
        return true;
    };
    is_empty(lane, *one) && are_empty(lane, rest)
}
