//! Two threads that share a pool and two queues.

ghost use Rattle.std.specs.Prelude.{◌≡◌, true};
ghost use Rattle.std.specs.Thread.{IsSend, IsSync};
ghost use Rattle.qp_model.specs.Sound.{IsSound};
ghost use Rattle.qp_calls.specs.Clauses.{IsEvent, event_of};
ghost use Rattle.qp_shared_tests.specs.Lanes.{IsPlayer, IsSame, MayPlay};

use crate::events::event;
use crate::judged::broken;
use crate::lanes::{seal_triple, triple};
use crate::objects::{has_object, stands_at};
use crate::players::{Player, Terms, drain};
use crate::systems::{TWO, stimuli, system};
use qp_base::Ev;
use qp_calls::Ops;
use qp_model::kernels::PORT;
use qp_model::{Journal, System, kinds};
use qp_port_phases::Worker;
use qp_shared::{Sealed, Shared};
use std::alloc::Global;
use std::sync::Wait;
use std::thread::{Threads, join_mut};

/// So many rounds each thread plays: in each it posts twice and takes twice.
const ROUNDS: u32 = 10_000;

/// Whether the system has objects 1 and 2, a static first signal, and blocks for the event.
fn may_play(sys: &System, ev: &Ev) -> bool
    requires sound { IsSound sys.now }
    requires event { IsEvent sys.now (event_of ev.now) }
    ensures { result ≡ true → MayPlay sys.now ev.now }
{
    stands_at(sys, 0, 1)
        && stands_at(sys, 1, 2)
        && has_object(sys, 1)
        && has_object(sys, 2)
        && sys.is_static(4)
        && !sys.is_static(u64::from(ev.sig))
}

/// A lane that plays, before its turn.
fn player<'a, O: Ops>(lane: O, at: Terms<'a>) -> Player<'a, O>
    ensures lane { result.lane ≡ lane }
    ensures at { result.at ≡ at.entry }
{
    Player {
        lane,
        at,
        rounds: ROUNDS,
        whole: false,
    }
}

/// Takes what is left behind a player's turn. Whether it played all its rounds, and the queue was empty then.
fn end<R: Wait, O: Ops>(rt: &R, player: Player<'_, O>) -> (O, bool)
    requires { IsPlayer player.at.sys.now player.at.ev.now player.at.me player.at.to (O.lane player.lane) }
    ensures { IsSame (O.lane player.entry.lane) (O.lane result.0) }
{
    let Player {
        mut lane,
        at,
        rounds: _,
        whole,
    } = player;
    let drained = drain(rt, &mut lane, &at);
    (lane, whole && drained)
}

/// Two players take their turns beside one another, the first in a thread of its own.
fn both_turn<R: Threads + Wait + Sync, T: Worker + Send>(rt: &R, one: &mut T, two: &mut T)
    requires one_ready { T.ready one.old }
    requires two_ready { T.ready two.old }
    ensures one { T.turned one.old one.new }
    ensures two { T.turned two.old two.new }
{
    let mut first = ||
        requires { IsSync R.row × IsSend T.row × T.ready one.now }
        ensures { T.turned one.entry.now one.exit.now }
    { one.turn(rt) };
    let mut second = ||
        requires { IsSync R.row × IsSend T.row × T.ready two.now }
        ensures { T.turned two.entry.now two.exit.now }
    { two.turn(rt) };
    join_mut(rt, &mut first, &mut second);
}

/// Two lanes play beside one another, each on a thread, and then take what is left. Whether they did so to the end.
fn beside<'a, R: Threads + Wait + Sync, O: Ops + Send>(
    rt: &R,
    one: Player<'a, O>,
    two: Player<'a, O>,
) -> (O, O, bool)
    requires one { IsPlayer one.at.sys.now one.at.ev.now one.at.me one.at.to (O.lane one.lane) }
    requires two { IsPlayer two.at.sys.now two.at.ev.now two.at.me two.at.to (O.lane two.lane) }
    ensures one { IsSame (O.lane one.entry.lane) (O.lane result.0) }
    ensures two { IsSame (O.lane two.entry.lane) (O.lane result.1) }
{
    let mut one = one;
    let mut two = two;
    both_turn(rt, &mut one, &mut two);
    let (one, first) = end(rt, one);
    let (two, second) = end(rt, two);
    (one, two, first && second)
}

/// Makes the three lanes of two objects, lets two of them play, and seals all.
fn contend<'x, R: Threads + Wait + Sync>(
    rt: &R,
    alloc: Global,
    sys: &'x System,
    ev: &'x Ev,
) -> Option<Sealed>
    requires { MayPlay sys.now ev.now }
{
    let Ok((shared, root)) = Shared::new(alloc, sys) else {
        return None;
    };
    let (first, second, last) = triple(&shared, root, sys)?;
    let one = player(
        second,
        Terms {
            sys,
            ev,
            me: 1,
            to: 2,
        },
    );
    let two = player(
        last,
        Terms {
            sys,
            ev,
            me: 2,
            to: 1,
        },
    );
    let (second, last, whole) = beside(rt, one, two);
    let sealed = seal_triple(alloc, &shared, first, second, last, PORT);
    only_if(whole, sealed)
}

fn only_if(whole: bool, sealed: Option<Sealed>) -> Option<Sealed> {
    if whole { sealed } else { None }
}

/// How many records of this kind the journal has.
fn count(journal: &Journal, kind: u8) -> u64 {
    let mut n: u64 = 0;
    for lane in journal.lanes.items.iter() {
        for rec in lane.items.iter() {
            if rec.kind == kind {
                n = n.saturating_add(1);
            }
        }
    }
    n
}

/// What is seen of two lanes that played: whether entries were posted, how many blocks didn't come back and how many entries weren't taken,
/// and the first law that is broken.
type Seen = (bool, u64, u64, Option<u8>);

fn seen_in(alloc: Global, sys: &System, journal: &Journal) -> Option<Seen>
    requires { IsSound sys.now }
{
    let stim = stimuli(alloc, sys, "")?;
    let posts = count(journal, kinds::POST);
    Some((
        posts > 0,
        count(journal, kinds::NEW).abs_diff(count(journal, kinds::BACK)),
        posts.abs_diff(count(journal, kinds::TOOK)),
        broken(alloc, sys, &stim, journal),
    ))
}

/// What is seen of two lanes that play in this system, if it has what they play with.
fn seen_of<R: Threads + Wait + Sync>(rt: &R, alloc: Global, sys: &System) -> Option<Seen>
    requires { IsSound sys.now }
{
    let ev = event(sys, 5, 7)?;
    if !may_play(sys, &ev) {
        return None;
    }
    let sealed = contend(rt, alloc, sys, &ev)?;
    seen_in(alloc, sys, sealed.journal())
}

fn seen<R: Threads + Wait + Sync>(rt: &R, alloc: Global) -> Option<Seen> {
    let sys = system(alloc, TWO)?;
    seen_of(rt, alloc, &sys)
}

/// Each block came back, each entry was taken, and no law of words is broken: those are tried before those of objects, of which the first is
/// broken, since bare takes are no steps of a chart.
#[test]
fn two_threads_share_a_pool_and_two_queues(rt: HostRuntime) {
    assert_eq!(rt; seen(&rt, rt.alloc()), Some((true, 0, 0, Some(15))));
}
