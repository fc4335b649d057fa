//! Two objects on threads of their own that share a pool and post to one another: both at any time, or in turns.

use crate::asked::{Failing, NOTHING, World};
use qp_process::Flow;
use std::alloc::Global;
use std::sync::Wait;
use std::thread::Threads;

/// Each object begins by itself, goes on for itself and for the other one with each event that it takes, and posts 1,500 in all.
const PAIR: &str = "qp = 1
pool = [{ size = 1, blocks = 8 }]
signal = [{ name = 'GO', static = true }, { name = 'N', params = 1 }]
object = [
  { name = 'left', chart = 'left', priority = 1, queue = 15 },
  { name = 'right', chart = 'right', priority = 2, queue = 15 },
]
[[chart]]
name = 'left'
init = 's'
vars = { n = 0 }
init_do = ['post right N(0)', 'post right N(0)', 'post me GO', 'n = 3']
state = [{ name = 's', row = [
  { on = 'N', when = 'n < 1500', do = ['n = n + 1', 'post right N(n)'] }, { on = 'N' },
  { on = 'GO', when = 'n < 1500', do = ['n = n + 1', 'post me GO'] }, { on = 'GO' },
] }]
[[chart]]
name = 'right'
init = 's'
vars = { n = 0 }
init_do = ['post left N(0)', 'post left N(0)', 'post me GO', 'n = 3']
state = [{ name = 's', row = [
  { on = 'N', when = 'n < 1500', do = ['n = n + 1', 'post left N(n)'] }, { on = 'N' },
  { on = 'GO', when = 'n < 1500', do = ['n = n + 1', 'post me GO'] }, { on = 'GO' },
] }]
";

/// Each object posts where the other one's event has come, and so finds its queue empty in between: 400 posts in all.
const RALLY: &str = "qp = 1
pool = [{ size = 1, blocks = 8 }]
signal = [{ name = 'GO', static = true }, { name = 'N', params = 1 }]
object = [
  { name = 'left', chart = 'left', priority = 1, queue = 15 },
  { name = 'right', chart = 'right', priority = 2, queue = 15 },
]
[[chart]]
name = 'left'
init = 's'
vars = { n = 0 }
init_do = ['post right N(0)', 'n = 1']
state = [{ name = 's', row = [{ on = 'N', when = 'n < 200', do = ['n = n + 1', 'post right N(n)'] }, { on = 'N' }] }]
[[chart]]
name = 'right'
init = 's'
state = [{ name = 's', row = [{ on = 'N', do = ['post left N(p1)'] }] }]
";

/// Whether a line is the record of a post by an object.
fn is_post(line: &str) -> bool {
    line.starts_with("post 1 ") || line.starts_with("post 2 ")
}

/// How many posts the objects made, by a journal.
fn posts(journal: &str) -> usize {
    journal.lines().filter(|line| is_post(line)).count()
}

/// How often an object found its queue empty, by a journal.
fn nils(journal: &str, head: &str) -> usize {
    journal
        .lines()
        .filter(|line| line.starts_with(head))
        .count()
}

/// Whether `check` calls a journal of the pair lawful.
fn is_lawful<R: Threads + Wait + Sync>(rt: &R, alloc: Global, journal: &str) -> bool {
    let world = World {
        files: &[("system", PAIR), ("stimuli", ""), ("journal", journal)],
        frames: &[],
        flow: Flow::Lines,
    };
    let words = ["check", "system", "stimuli", "journal"];
    world.is_so(rt, alloc, &words, &NOTHING, (0, b"lawful\n", ""))
}

/// Whether a run of the pair ends with nothing undone, leaves a sealed journal with all posts, and that is lawful.
fn is_played<R: Threads + Wait + Sync>(rt: &R, alloc: Global, kernel: &str) -> bool {
    let world = World {
        files: &[("system", PAIR), ("stimuli", "")],
        frames: &[],
        flow: Flow::Lines,
    };
    let words = ["run", "--kernel", kernel, "system", "stimuli"];
    let roomy = Failing {
        room: 1 << 22,
        ..NOTHING
    };
    let run = world.ask(rt, alloc, &words, &roomy);
    run.is_sealed() && posts(run.text()) == 3000 && is_lawful(rt, alloc, run.text())
}

/// Whether `check` calls a journal of the rally lawful.
fn is_lawful_rally<R: Threads + Wait + Sync>(rt: &R, alloc: Global, journal: &str) -> bool {
    let world = World {
        files: &[("system", RALLY), ("stimuli", ""), ("journal", journal)],
        frames: &[],
        flow: Flow::Lines,
    };
    let words = ["check", "system", "stimuli", "journal"];
    world.is_so(rt, alloc, &words, &NOTHING, (0, b"lawful\n", ""))
}

/// Whether each object found its queue empty three times, by a journal.
fn waits(journal: &str) -> bool {
    nils(journal, "nil 1 ") >= 3 && nils(journal, "nil 2 ") >= 3
}

/// Whether a run of the rally ends with nothing undone, leaves a sealed journal with all posts in which each object waited, and that is
/// lawful.
fn is_rallied<R: Threads + Wait + Sync>(rt: &R, alloc: Global) -> bool {
    let world = World {
        files: &[("system", RALLY), ("stimuli", "")],
        frames: &[],
        flow: Flow::Lines,
    };
    let words = ["run", "--kernel", "wait", "system", "stimuli"];
    let run = world.ask(rt, alloc, &words, &NOTHING);
    run.is_sealed()
        && posts(run.text()) == 400
        && waits(run.text())
        && is_lawful_rally(rt, alloc, run.text())
}

#[test]
fn two_threads_post_to_one_another_under_port(rt: HostRuntime) {
    assert!(rt; is_played(&rt, rt.alloc(), "port"));
}

#[test]
fn two_threads_post_to_one_another_under_wait(rt: HostRuntime) {
    assert!(rt; is_played(&rt, rt.alloc(), "wait"));
}

/// Of the `nil` records of a turn all but the last are parks, each of which a post of the other thread ends; a run without sources has
/// at most two phases.
#[test]
fn a_turn_that_parks_is_woken_by_a_post_of_another_thread(rt: HostRuntime) {
    assert!(rt; is_rallied(&rt, rt.alloc()));
}
