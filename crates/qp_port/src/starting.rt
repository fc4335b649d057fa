//! Starts, one after another, and then the phases.

ghost use Rattle.std.specs.Prelude.{◌≡◌, ◌⊎◌, ℕ, true, false};
ghost use Rattle.std.specs.List.{list_all};
ghost use Rattle.qp_port_phases.specs.declared.phases.PhasesEnd.TheVariants as ended;
ghost use Rattle.qp_port_phases.specs.Lanes.{AreOneTable, SameEach};
ghost use Rattle.qp_port_phases.specs.Quiet.{FirstFound, HasEnded};
ghost use Rattle.qp_port_phases.specs.Turns.{AreReady};
ghost use Rattle.qp_port_phases.specs.Starting.{StartFirst, StartInOrder};

use qp_port_phases::{PhaseLane, PhasesEnd, Rounds, run_phases};
use std::sync::Wait;
use std::thread::Threads;

/// The lane of a worker that has a start.
pub trait Starts: PhaseLane {
    /// It hasn't started.
    ghost fresh: { Self → Type 0 };

    /// Its lane has no more than its start, or what came of it.
    ghost alone: { Self → Type 0 };

    /// Its start came to its end, and its lane has no more.
    ghost started: { Self → Type 0 };

    /// Starts. Whether the start came to its end; if it didn't, the worker has ended.
    fn start(&mut self) -> bool
        requires { fresh self.old }
        ensures ready { Self.Worker.ready self.new }
        ensures same { Self.PhaseLane.same self.old self.new }
        ensures rests { Self.PhaseLane.rests self.new ≡ result }
        ensures alone { alone self.new }
        ensures started { result ≡ true → started self.new };

    ghost fresh_alone: { (a : Self) → fresh a → alone a };

    /// It looks at no queue twice without a step.
    ghost rows_none: { (a : Self) → (Self.PhaseLane.numbers a).rows ≡ 0 };
}

/// Workers whose run is over, and how.
pub(crate) struct Over<T> {
    pub(crate) workers: Vec<T>,
    pub(crate) how: PhasesEnd,
}

/// Starts these, in their order, up to the first whose start doesn't come to its end. Whether all did.
fn start_all<T: Starts>(workers: &mut [T]) -> bool
    requires { AreReady T.fresh workers.old }
    ensures each { AreReady (λ w. T.ready w ⊎ T.fresh w) workers.new }
    ensures same { SameEach T.same workers.old workers.new }
    ensures all { result ≡ true → AreReady T.ready workers.new }
    ensures some { result ≡ false → list_all T.rests workers.new ≡ false }
    ensures alone { AreReady T.alone workers.new }
    ensures started { result ≡ true → AreReady T.started workers.new }
    ensures order { StartInOrder T.started T.fresh workers.new }
{
    let Some((one, rest)) = workers.split_first_mut() else {
        return true;
    };
    if !one.start() {
        return false;
    }
    start_all(rest)
}

/// Starts all of them, and runs the phases where all starts came to their end.
fn run_all<R: Threads + Wait + Sync, T: Starts + Send>(
    rt: &R,
    objects: &[u8],
    workers: &mut [T],
    rounds: &Rounds,
) -> PhasesEnd
    requires fresh { AreReady T.fresh workers.old }
    requires table { AreOneTable T.view objects.now workers.old }
    ensures each { AreReady (λ w. T.ready w ⊎ T.fresh w) workers.new }
    ensures same { SameEach T.same workers.old workers.new }
    ensures ready { result ≡ ended.Idle → AreReady T.ready workers.new }
    ensures idle { result ≡ ended.Idle → HasEnded T.view T.remains objects.now workers.new }
    ensures stopped { result ≡ ended.Stopped → (list_all T.rests workers.new ≡ false) ⊎ FirstFound T.view false workers.old workers.new }
    ensures memory { result ≡ ended.Memory → FirstFound T.view true workers.old workers.new }
    ensures first { StartFirst T.view T.alone T.started T.same workers.old workers.new }
{
    if !start_all(workers) {
        return PhasesEnd::Stopped;
    }
    run_phases(rt, objects, workers, rounds)
}

/// The same of workers that are handed in and come back, in their order.
pub(crate) fn run_workers<R: Threads + Wait + Sync, T: Starts + Send>(
    rt: &R,
    objects: &[u8],
    mut workers: Vec<T>,
    rounds: &Rounds,
) -> Over<T>
    requires fresh { AreReady T.fresh workers.items }
    requires table { AreOneTable T.view objects.now workers.items }
    ensures each { AreReady (λ w. T.ready w ⊎ T.fresh w) result.workers.items }
    ensures same { SameEach T.same workers.items result.workers.items }
    ensures ready { result.how ≡ ended.Idle → AreReady T.ready result.workers.items }
    ensures idle { result.how ≡ ended.Idle → HasEnded T.view T.remains objects.now result.workers.items }
    ensures stopped { result.how ≡ ended.Stopped → (list_all T.rests result.workers.items ≡ false) ⊎ FirstFound T.view false workers.items result.workers.items }
    ensures memory { result.how ≡ ended.Memory → FirstFound T.view true workers.items result.workers.items }
    ensures first { StartFirst T.view T.alone T.started T.same workers.items result.workers.items }
{
    let how = run_all(rt, objects, workers.as_mut_slice(), rounds);
    Over { workers, how }
}
