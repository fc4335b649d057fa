//! Turns of several workers, each in a thread of its own.

ghost use Rattle.std.specs.Prelude.{ℕ, ◌≡◌, ◌+◌, ◌<◌, ◌≤◌, length, slice_get, Some};
ghost use Rattle.std.specs.Thread.{IsSend, IsSync};
ghost use Rattle.qp_port_phases.specs.Turns.{AreReady, TurnEach};

use std::sync::Wait;
use std::thread::{Threads, join_mut};

/// What takes a turn in a thread of its own.
pub trait Worker {
    /// What a turn asks of the worker before it.
    ghost ready: { Self → Type 0 };

    /// The worker before a turn and after it.
    ghost turned: { Self → Self → Type 0 };

    /// Takes one turn.
    fn turn<R: Wait>(&mut self, rt: &R)
        requires { ready self.old }
        ensures { turned self.old self.new };
}

/// How workers take their turns.
pub trait Manner<T>: Sync {
    /// What a turn in this manner asks of the worker before it.
    ghost ready: { Self → T → Type 0 };

    /// The worker before such a turn and after it.
    ghost turned: { Self → T → T → Type 0 };

    /// Lets the worker take its turn.
    fn turn<R: Wait>(&self, rt: &R, worker: &mut T)
        requires { ready self.now worker.old }
        ensures { turned self.now worker.old worker.new };
}

/// Lets each of the workers take a turn in this manner, beside one another. Each is left in its place as its turn leaves it.
#[cycle(halves)]
pub fn run_lanes<R: Threads + Wait + Sync, M: Manner<T>, T: Send>(
    rt: &R,
    how: &M,
    workers: &mut [T],
)
    requires ready { AreReady (M.ready how.now) workers.old }
    ensures { TurnEach (M.turned how.now) workers.old workers.new }
{
    if workers.len() < 2 {
        run_first(rt, how, workers);
        return;
    }
    let (front, back) = workers.split_at_mut(workers.len() / 2);
    both_halves(rt, how, front, back);
}

/// Lets the one worker take its turn, if there is one.
fn run_first<R: Wait, M: Manner<T>, T>(rt: &R, how: &M, workers: &mut [T])
    requires few { length workers.old < 2 }
    requires ready { AreReady (M.ready how.now) workers.old }
    ensures { TurnEach (M.turned how.now) workers.old workers.new }
{
    if workers.len() == 1 {
        how.turn(rt, &mut workers[0]);
    }
}

/// Lets both halves take their turns, the first in a thread of its own.
#[cycle(halves)]
fn both_halves<R: Threads + Wait + Sync, M: Manner<T>, T: Send>(
    rt: &R,
    how: &M,
    front: &mut [T],
    back: &mut [T],
)
    requires front_some { 0 < length front.old }
    requires back_some { 0 < length back.old }
    requires front_ready { AreReady (M.ready how.now) front.old }
    requires back_ready { AreReady (M.ready how.now) back.old }
    ensures front { TurnEach (M.turned how.now) front.old front.new }
    ensures back { TurnEach (M.turned how.now) back.old back.new }
{
    let mut first = ||
        requires { IsSync R.row × IsSync M.row × IsSend T.row × AreReady (M.ready how.now) front.now }
        ensures { TurnEach (M.turned how.entry.now) front.entry.now front.exit.now }
    { run_lanes(rt, how, front) };
    let mut second = ||
        requires { IsSync R.row × IsSync M.row × IsSend T.row × AreReady (M.ready how.now) back.now }
        ensures { TurnEach (M.turned how.entry.now) back.entry.now back.exit.now }
    { run_lanes(rt, how, back) };
    join_mut(rt, &mut first, &mut second);
}
