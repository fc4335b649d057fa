//! Lanes that stay in their threads over the rounds of a phase.

ghost use Rattle.std.specs.Prelude.{ℕ, ◌≡◌, ◌⊎◌, IsTrue, true};
ghost use Rattle.qp_model.specs.WordLaw.{is_object};
ghost use Rattle.qp_port_phases.specs.Lanes.{AreObjects, KeepEach, Kept};
ghost use Rattle.qp_port_phases.specs.Rows.{PhaseHasCause, LaneSeesEntry};
ghost use Rattle.qp_port_phases.specs.Staying.{FirstIs, GoesOn, WorkerStays};
ghost use Rattle.qp_port_phases.specs.Turns.{AreReady};

use crate::lanes::PhaseLane;
use crate::looking::{are_empty, is_empty};
use crate::rounds::{Place, Round, Rounds};
use crate::running::Manner;
use std::sync::Wait;

/// Lanes of a system with these objects take turns over the rounds of a phase that has begun.
#[derive(Drop)]
pub(crate) struct Staying<'a> {
    objects: &'a [u8],
    rounds: &'a Rounds,
}

impl<'a> Staying<'a> {
    /// A phase begins, in which all sources take a turn; the first lane is told of them.
    pub(crate) fn begin<T: PhaseLane>(
        objects: &'a [u8],
        workers: &mut [T],
        rounds: &'a Rounds,
    ) -> Staying<'a>
        requires { AreReady T.ready workers.old }
        ensures objects { result.objects.now ≡ objects.now }
        ensures called { FirstIs (T.called rounds.now.sources) workers.old workers.new }
        ensures kept { KeepEach T.ready T.same T.waits T.remains T.numbers workers.old workers.new }
        ensures cause { PhaseHasCause T.numbers T.view objects.now workers.old → PhaseHasCause T.numbers T.view objects.now workers.new }
    {
        rounds.on_phase();
        let manner = Staying { objects, rounds };
        let Some((first, _others)) = workers.split_first_mut() else {
            return manner;
        };
        first.on_round(rounds.sources);
        manner
    }
}

impl<T: PhaseLane> Manner<T> for Staying<'_> {
    ghost ready = { λ how w. T.ready w × AreObjects (T.view w) how.objects.now };

    ghost turned = { λ how v w. WorkerStays T.turned T.ready T.same T.numbers v w };

    fn turn<R: Wait>(&self, rt: &R, lane: &mut T) {
        stay(rt, lane, self.objects, self.rounds);
    }
}

/// Each of these objects whose queue shows an entry is to have a turn.
fn wish_for_entries<T: PhaseLane>(lane: &mut T, objects: &[u8], rounds: &Rounds)
    requires ready { T.ready lane.old }
    requires objects { AreObjects (T.view lane.old) objects.now }
    ensures { Kept T.ready T.same T.waits T.remains T.numbers lane.old lane.new }
{
    let Some((one, rest)) = objects.split_first() else {
        return;
    };
    if !is_empty(lane, *one) {
        rounds.wish_for(*one);
    }
    wish_for_entries(lane, rest, rounds);
}

/// The last lane that came to the end of a round decides what comes next, while all others wait.
fn decide<T: PhaseLane>(lane: &mut T, objects: &[u8], rounds: &Rounds)
    requires ready { T.ready lane.old }
    requires objects { AreObjects (T.view lane.old) objects.now }
    ensures { Kept T.ready T.same T.waits T.remains T.numbers lane.old lane.new }
{
    if let Some(_) = lane.stopped() {
        rounds.end();
        return;
    }
    wish_for_entries(lane, objects, rounds);
    lane.on_round(rounds.sources_next());
    rounds.call();
}

/// The lane has come to the end of its part of the round.
fn arrive<T: PhaseLane>(lane: &mut T, objects: &[u8], rounds: &Rounds, place: &Place)
    requires ready { T.ready lane.old }
    requires objects { AreObjects (T.view lane.old) objects.now }
    ensures { Kept T.ready T.same T.waits T.remains T.numbers lane.old lane.new }
{
    if rounds.arrive(place, lane.at_settle()) {
        decide(lane, objects, rounds);
    }
}

/// Whether the lane may take a turn behind its first: it has just seen an entry, or its turns end no row of looks.
fn may_go<T: PhaseLane>(lane: &mut T, objects: &[u8]) -> bool
    requires ready { T.ready lane.old }
    requires objects { AreObjects (T.view lane.old) objects.now }
    ensures kept { Kept T.ready T.same T.waits T.remains T.numbers lane.old lane.new }
    ensures cause { result ≡ true → (T.rowless lane.new ≡ true) ⊎ ((p : ℕ) × IsTrue (is_object (T.view lane.new).sys p) × LaneSeesEntry (T.view lane.new) p) }
{
    lane.is_rowless() || !are_empty(lane, objects)
}

/// Takes a turn behind the first, if it may.
fn go<R: Wait, T: PhaseLane>(rt: &R, lane: &mut T, objects: &[u8])
    requires ready { T.ready lane.old }
    requires objects { AreObjects (T.view lane.old) objects.now }
    ensures { GoesOn T.ready T.same T.numbers lane.old lane.new }
{
    if may_go(lane, objects) {
        lane.turn(rt);
    }
}

/// Passes the `settle` at which the lane stands, or tries to.
fn pass<T: PhaseLane>(lane: &mut T)
    requires { T.ready lane.old }
    ensures { GoesOn T.ready T.same T.numbers lane.old lane.new }
{
    if lane.at_settle() {
        let _ = lane.pass_settle();
    }
}

/// What the lane is called to in a round. Whether that was something.
fn follow<R: Wait, T: PhaseLane>(rt: &R, lane: &mut T, objects: &[u8], round: Round) -> bool
    requires ready { T.ready lane.old }
    requires objects { AreObjects (T.view lane.old) objects.now }
    ensures { GoesOn T.ready T.same T.numbers lane.old lane.new }
{
    match round {
        Round::Turns => {
            go(rt, lane, objects);
            true
        }
        Round::Settles => {
            pass(lane);
            true
        }
        Round::Over => false,
    }
}

/// The end of one round and the next. Whether there was a next. Where the lane has ended, the phase is over for all.
fn go_round<R: Wait, T: PhaseLane>(
    rt: &R,
    lane: &mut T,
    objects: &[u8],
    rounds: &Rounds,
    place: &mut Place,
) -> bool
    requires ready { T.ready lane.old }
    requires objects { AreObjects (T.view lane.old) objects.now }
    ensures { GoesOn T.ready T.same T.numbers lane.old lane.new }
{
    if !lane.at_rest() {
        rounds.end();
        return false;
    }
    arrive(lane, objects, rounds, place);
    let round = rounds.wait(rt, place);
    follow(rt, lane, objects, round)
}

/// Goes on over the rounds behind the first turn, until the phase is over.
fn go_on<R: Wait, T: PhaseLane>(
    rt: &R,
    lane: &mut T,
    objects: &[u8],
    rounds: &Rounds,
    mut place: Place,
)
    requires ready { T.ready lane.old }
    requires objects { AreObjects (T.view lane.old) objects.now }
    ensures { GoesOn T.ready T.same T.numbers lane.old lane.new }
{
    for _ in rt.forever() {
        if !go_round(rt, lane, objects, rounds, &mut place) {
            return;
        }
    }
    unreachable!()
}

/// Takes a turn, and goes on over the rounds of the phase. Where a lane has no thread it takes the one turn alone. Behind the first each
/// turn has a cause: the lane has just seen an entry, or its turns end no row of looks.
pub(crate) fn stay<R: Wait, T: PhaseLane>(rt: &R, lane: &mut T, objects: &[u8], rounds: &Rounds)
    requires ready { T.ready lane.old }
    requires objects { AreObjects (T.view lane.old) objects.now }
    ensures { WorkerStays T.turned T.ready T.same T.numbers lane.old lane.new }
{
    match rounds.begin(rt, lane.serves()) {
        Some(place) => {
            lane.turn(rt);
            go_on(rt, lane, objects, rounds, place);
        }
        None => lane.turn(rt),
    }
}
