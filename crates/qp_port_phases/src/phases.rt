//! The phases of a run.

ghost use Rattle.std.specs.Prelude.{ℕ, ◌≡◌, ◌<◌, ◌≤◌, ◌∷◌, ◌||◌, IsTrue, length, not, true, false, Some};
ghost use Rattle.qp_model.specs.WordLaw.{is_object};
ghost use Rattle.std.specs.List.{list_any};
ghost use Rattle.qp_port_phases.specs.declared.phases.PhasesEnd.TheVariants as ended;
ghost use Rattle.qp_port_phases.specs.declared.phases.Next.TheVariants as next;
ghost use Rattle.qp_model.specs.declared.words.Word.{Word};
ghost use Rattle.qp_calls_log.specs.Meeting.{IsTogether};
ghost use Rattle.qp_port_phases.specs.Floors.{AllOver, HasFloor, IsLevel, SameTold};
ghost use Rattle.qp_port_phases.specs.Lanes.{AreObjects, AreOneTable, AreTogether, IsTable, KeepEach, Kept, SameEach};
ghost use Rattle.qp_port_phases.specs.Quiet.{AllBelow, AreEmpty, FirstFound, HasEnded, HasFoundCode, IsEmpty, IsQuiet};
ghost use Rattle.qp_port_phases.specs.Stopping.{SameCodes};
ghost use Rattle.qp_port_phases.specs.Rows.{CountsBy, PhaseHasCause, HasFewRows, LaneSeesEntry, TriesCount, one_where};
ghost use Rattle.qp_port_phases.specs.Turns.{AreReady};

use crate::lanes::{Passed, PhaseLane};
use crate::looking::are_empty;
use crate::rounds::Rounds;
use crate::running::run_lanes;
use crate::staying::Staying;
use std::sync::Wait;
use std::thread::Threads;

/// How the phases ended.
#[derive(Clone, Copy)]
pub enum PhasesEnd {
    /// Each queue was seen empty, no stimulus is left, and the stop word was 0.
    Idle,
    /// A code from 1 to 6 was found in the stop word.
    Stopped,
    /// 7 was found there: want of memory.
    Memory,
}

/// What comes next between two phases.
enum Next {
    /// The run is over.
    Over(PhasesEnd),
    /// A phase.
    Phase,
    /// There is no cause for one: the lanes are looked at again.
    Again,
}

/// The first lane meets all others.
fn meet_all<T: PhaseLane>(first: &mut T, others: &mut [T])
    requires first_ready { T.ready first.old }
    requires others_ready { AreReady T.ready others.old }
    requires together { AreTogether T.view (T.view first.old) others.old }
    ensures first { Kept T.ready T.same T.waits T.remains T.numbers first.old first.new }
    ensures rises { (w : Word) → (T.view first.old).mark w ≤ (T.view first.new).mark w }
    ensures told { (T.view first.new).told ≡ (T.view first.old).told }
    ensures stay { SameTold T.view others.old others.new }
    ensures codes { SameCodes (T.view first.old) (T.view first.new) }
    ensures others { KeepEach T.ready T.same T.waits T.remains T.numbers others.old others.new }
    ensures met { AllBelow T.view (T.view first.new) others.new }
{
    let Some((one, rest)) = others.split_first_mut() else {
        return;
    };
    first.meet(one);
    meet_all(first, rest);
}

/// Each of the others sees what the first has seen.
fn all_meet<T: PhaseLane>(first: &mut T, others: &mut [T])
    requires first_ready { T.ready first.old }
    requires others_ready { AreReady T.ready others.old }
    requires together { AreTogether T.view (T.view first.old) others.old }
    ensures first { Kept T.ready T.same T.waits T.remains T.numbers first.old first.new }
    ensures still { T.view first.new ≡ T.view first.old }
    ensures others { KeepEach T.ready T.same T.waits T.remains T.numbers others.old others.new }
    ensures stay { SameTold T.view others.old others.new }
    ensures over { AllOver T.view (T.view first.old).mark others.new }
{
    let Some((one, rest)) = others.split_first_mut() else {
        return;
    };
    one.meet(first);
    all_meet(first, rest);
}

/// All lanes see what any of them has seen.
fn level<T: PhaseLane>(workers: &mut [T])
    requires ready { AreReady T.ready workers.old }
    requires together { IsTable T.view workers.old }
    ensures kept { KeepEach T.ready T.same T.waits T.remains T.numbers workers.old workers.new }
    ensures level { IsLevel T.view workers.old workers.new }
{
    let Some((first, others)) = workers.split_first_mut() else {
        return;
    };
    meet_all(first, others);
    all_meet(first, others);
}

/// Whether a lane has a stimulus left.
fn any_left<T: PhaseLane>(lanes: &[T]) -> bool
    ensures { result ≡ list_any T.remains lanes.now }
{
    lanes.iter().any(|lane| lane.left())
}

/// Whether one of the two holds.
fn is_either(one: bool, other: bool) -> bool
    ensures { result ≡ (one || other) }
{
    one || other
}

/// Whether there is cause for a phase: a `settle` was passed, no phase has begun, or a queue has an entry.
fn is_caused(passed: bool, begun: bool, empty: bool) -> bool
    ensures { result ≡ (passed || not begun || not empty) }
{
    passed || !begun || !empty
}

/// Each lane that stands at a `settle` sees what the first has seen, and then passes it, or tries to. The answer tells
/// whether one passed it.
fn pass_all<T: PhaseLane>(first: &mut T, others: &mut [T]) -> bool
    requires first_ready { T.ready first.old }
    requires others_ready { AreReady T.ready others.old }
    requires together { AreTogether T.view (T.view first.old) others.old }
    ensures first { Kept T.ready T.same T.waits T.remains T.numbers first.old first.new }
    ensures ready { AreReady T.ready others.new }
    ensures others { SameEach T.same others.old others.new }
    ensures settles { TriesCount T.numbers result others.old others.new }
{
    let Some((one, rest)) = others.split_first_mut() else {
        return false;
    };
    let passed = pass_one(first, one);
    let more = pass_all(first, rest);
    is_either(passed, more)
}

/// The same for one lane.
fn pass_one<T: PhaseLane>(first: &mut T, lane: &mut T) -> bool
    requires first_ready { T.ready first.old }
    requires ready { T.ready lane.old }
    requires together { IsTogether (T.view first.old) (T.view lane.old) }
    ensures first { Kept T.ready T.same T.waits T.remains T.numbers first.old first.new }
    ensures ready { T.ready lane.new }
    ensures same { T.same lane.old lane.new }
    ensures settles { CountsBy (one_where result) (T.numbers lane.old) (T.numbers lane.new) }
{
    if !lane.at_settle() {
        return false;
    }
    lane.meet(first);
    match lane.pass_settle() {
        Passed::Yes => true,
        _ => false,
    }
}

/// Looks at the run between phases: whether it has ended, and how.
fn look<T: PhaseLane>(first: &mut T, others: &mut [T], objects: &[u8]) -> Option<PhasesEnd>
    requires first_ready { T.ready first.old }
    requires others_ready { AreReady T.ready others.old }
    requires together { AreTogether T.view (T.view first.old) others.old }
    requires objects { AreObjects (T.view first.old) objects.now }
    ensures first { Kept T.ready T.same T.waits T.remains T.numbers first.old first.new }
    ensures others { KeepEach T.ready T.same T.waits T.remains T.numbers others.old others.new }
    ensures idle { result ≡ Some ended.Idle → IsQuiet T.view T.remains objects.now first.new others.new }
    ensures stopped { result ≡ Some ended.Stopped → HasFoundCode false (T.view first.old) (T.view first.new) }
    ensures memory { result ≡ Some ended.Memory → HasFoundCode true (T.view first.old) (T.view first.new) }
{
    meet_all(first, others);
    match first.stopped() {
        Some(7) => return Some(PhasesEnd::Memory),
        Some(_) => return Some(PhasesEnd::Stopped),
        None => {}
    }
    if are_empty(first, objects) && !any_left(others) {
        return Some(PhasesEnd::Idle);
    }
    None
}

/// Runs the phases: between them the first lane meets all others and looks at the queues, and each lane at a `settle` passes
/// it or tries to. In a phase all lanes take turns, beside one another, each in a thread of its own, over as many rounds as there are
/// ([`Rounds`]). But for the first, a phase has a cause: a `settle` was passed, or the first lane sees an entry. Before the first all
/// lanes see what any of them has seen, so what they add from then on shows no word as it was before.
pub fn run_phases<R: Threads + Wait + Sync, T: PhaseLane + Send>(
    rt: &R,
    objects: &[u8],
    workers: &mut [T],
    rounds: &Rounds,
) -> PhasesEnd
    requires ready { AreReady T.ready workers.old }
    requires table { AreOneTable T.view objects.now workers.old }
    requires begins { HasFewRows T.numbers 0 workers.old }
    ensures ready { AreReady T.ready workers.new }
    ensures same { SameEach T.same workers.old workers.new }
    ensures rows { HasFewRows T.numbers 1 workers.new }
    ensures idle { result ≡ ended.Idle → HasEnded T.view T.remains objects.now workers.new }
    ensures stopped { result ≡ ended.Stopped → FirstFound T.view false workers.old workers.new }
    ensures memory { result ≡ ended.Memory → FirstFound T.view true workers.old workers.new }
    ensures floor { HasFloor T.view workers.old workers.new }
{
    level(workers);
    let mut begun = false;
    for _ in rt.forever() {
        match between(objects, workers, begun) {
            Next::Over(how) => return how,
            Next::Phase => {
                let manner = Staying::begin(objects, workers, rounds);
                run_lanes(rt, &manner, workers);
                begun = true;
            }
            Next::Again => {}
        }
    }
    unreachable!()
}

/// Lanes at a `settle` pass it or try to, and the first meets all and looks once more. The answer tells whether there is cause
/// for a phase.
fn prepare<T: PhaseLane>(first: &mut T, others: &mut [T], objects: &[u8], begun: bool) -> bool
    requires first_ready { T.ready first.old }
    requires others_ready { AreReady T.ready others.old }
    requires together { AreTogether T.view (T.view first.old) others.old }
    requires objects { AreObjects (T.view first.old) objects.now }
    requires few { HasFewRows T.numbers (one_where begun) (first.old ∷ others.old) }
    ensures first { Kept T.ready T.same T.waits T.remains T.numbers first.old first.new }
    ensures ready { AreReady T.ready others.new }
    ensures others { SameEach T.same others.old others.new }
    ensures few { HasFewRows T.numbers (one_where begun) (first.new ∷ others.new) }
    ensures cause { result ≡ true → PhaseHasCause T.numbers T.view objects.now (first.new ∷ others.new) }
{
    let passed = pass_all(first, others);
    meet_all(first, others);
    let empty = are_empty(first, objects);
    is_caused(passed, begun, empty)
}

/// Between two phases: whether the run has ended, and how, or whether there is cause for a phase. `begun` tells that there
/// has been one.
fn between<T: PhaseLane>(objects: &[u8], workers: &mut [T], begun: bool) -> Next
    requires ready { AreReady T.ready workers.old }
    requires table { AreOneTable T.view objects.now workers.old }
    requires few { HasFewRows T.numbers (one_where begun) workers.old }
    ensures ready { AreReady T.ready workers.new }
    ensures same { SameEach T.same workers.old workers.new }
    ensures few { HasFewRows T.numbers (one_where begun) workers.new }
    ensures cause { result ≡ next.Phase → PhaseHasCause T.numbers T.view objects.now workers.new }
    ensures idle { result ≡ next.Over ended.Idle → HasEnded T.view T.remains objects.now workers.new }
    ensures stopped { result ≡ next.Over ended.Stopped → FirstFound T.view false workers.old workers.new }
    ensures memory { result ≡ next.Over ended.Memory → FirstFound T.view true workers.old workers.new }
{
    let Some((first, others)) = workers.split_first_mut() else {
        return Next::Again;
    };
    match look(first, others, objects) {
        Some(how) => Next::Over(how),
        None => {
            if prepare(first, others, objects, begun) {
                Next::Phase
            } else {
                Next::Again
            }
        }
    }
}
