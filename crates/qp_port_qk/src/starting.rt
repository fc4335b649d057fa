//! The start of the first of several workers, and then the phases.

ghost use Rattle.std.specs.Prelude.{◌≡◌, ◌⊎◌, ℕ, None, Some, true, false};
ghost use Rattle.std.specs.List.{list_all};
ghost use Rattle.qp_port_phases.specs.declared.phases.PhasesEnd.{PhasesEnd};
ghost use Rattle.qp_port_phases.specs.declared.phases.PhasesEnd.TheVariants as ended;
ghost use Rattle.qp_port_phases.specs.Lanes.{AreOneTable, SameEach};
ghost use Rattle.qp_port_phases.specs.Quiet.{FirstFound, HasEnded};
ghost use Rattle.qp_port_phases.specs.Rows.{HasFewRows};
ghost use Rattle.qp_port_phases.specs.Turns.{AreReady};
ghost use Rattle.qp_port_phases.specs.Starting.{StartFirst};
ghost use Rattle.qp_port_qk.specs.Workers.{FirstBegins, OthersAre};

use qp_port_phases::{PhaseLane, PhasesEnd, Rounds, run_phases};
use std::sync::Wait;
use std::thread::Threads;

/// The lane of a worker that has a start.
pub trait QkStarts: PhaseLane {
    /// It hasn't started.
    ghost begins: { Self → Type 0 };

    /// It takes no more turns.
    ghost ended: { Self → Type 0 };

    /// Nothing starts in its lane, and nothing stands there.
    ghost blank: { Self → Type 0 };

    /// Its lane has no more than its starts, or what came of them.
    ghost alone: { Self → Type 0 };

    /// Its starts came to their end, and its lane has no more.
    ghost started: { Self → Type 0 };

    /// Starts. Whether the start came to its end.
    fn start(&mut self) -> bool
        requires { begins self.old }
        ensures ended { ended self.new }
        ensures ready { result ≡ true → Self.Worker.ready self.new }
        ensures same { Self.PhaseLane.same self.old self.new }
        ensures rests { Self.PhaseLane.rests self.new ≡ result }
        ensures none { (Self.PhaseLane.numbers self.new).lost ≡ false → (Self.PhaseLane.numbers self.new).rows ≡ 0 }
        ensures alone { alone self.new }
        ensures started { result ≡ true → started self.new };

    ghost blank_alone: { (a : Self) → blank a → alone a };

    ghost blank_started: { (a : Self) → blank a → started a };
}

/// Starts the first of these. Whether its start came to its end.
fn start_first<T: QkStarts>(workers: &mut [T]) -> bool
    requires begins { FirstBegins T.begins T.ready workers.old }
    requires blank { OthersAre T.blank workers.old }
    ensures alone { AreReady T.alone workers.new }
    ensures started { result ≡ true → AreReady T.started workers.new }
    ensures each { AreReady (λ w. T.ready w ⊎ T.ended w) workers.new }
    ensures same { SameEach T.same workers.old workers.new }
    ensures ready { result ≡ true → AreReady T.ready workers.new }
    ensures rows { (more : ℕ) → HasFewRows T.numbers more workers.new }
    ensures some { result ≡ false → list_all T.rests workers.new ≡ false }
{
    let Some((first, _others)) = workers.split_first_mut() else {
        return false;
    };
    first.start()
}

/// Starts the first of these, and runs the phases where its start came to its end; None where it did not.
pub(crate) fn start_and_run<R: Threads + Wait + Sync, T: QkStarts + Send>(
    rt: &R,
    objects: &[u8],
    workers: &mut [T],
    rounds: &Rounds,
) -> Option<PhasesEnd>
    requires begins { FirstBegins T.begins T.ready workers.old }
    requires blank { OthersAre T.blank workers.old }
    requires table { AreOneTable T.view objects.now workers.old }
    ensures first { StartFirst T.view T.alone T.started T.same workers.old workers.new }
    ensures each { AreReady (λ w. T.ready w ⊎ T.ended w) workers.new }
    ensures same { SameEach T.same workers.old workers.new }
    ensures ready { (how : PhasesEnd) → result ≡ Some how → AreReady T.ready workers.new }
    ensures rows { HasFewRows T.numbers 1 workers.new }
    ensures idle { result ≡ Some ended.Idle → HasEnded T.view T.remains objects.now workers.new }
    ensures none { result ≡ None → list_all T.rests workers.new ≡ false }
    ensures stopped { result ≡ Some ended.Stopped → FirstFound T.view false workers.old workers.new }
    ensures memory { result ≡ Some ended.Memory → FirstFound T.view true workers.old workers.new }
{
    if start_first(workers) {
        Some(run_phases(rt, objects, workers, rounds))
    } else {
        None
    }
}
