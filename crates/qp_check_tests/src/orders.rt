//! Orders and cycles of the records of small journals.

use qp_check_lanes::keys::key_of;
use qp_model::{Journal, Rec, Touched};
use qp_replay::{At, Replayed, is_small, ordered};
use qp_text::read_journal;
use std::alloc::Global;

/// One lamp that a source switches on.
const LAMP: &[u8] =
    b"qp 1 0 100000\nlane 0\nbegin 1\nenter 1 1\ndone 1\nlook 0 1 0\nseen 0 1 1 0 0\ntook 1 1 0 1 0 4 0\nrun 1 1 1\nexit 1 1\nenter 1 2\ndone 1\nlook 0 2 0\nseen 0 1 1 0 1\nlane 1\nstim 0 1 1\npost 0 1 1 0 0 0 4 0\nend 0\n";

/// Two sources that each post to an object of their own and then find both queues empty, the other's before its post.
const ROUND: &[u8] =
    b"qp 1 2 100000\nlane 0\nlane 1\nbegin 1\nenter 1 1\ndone 1\ntook 1 1 0 1 0 6 0\nnone 1\ndone 1\nlane 2\nbegin 2\nenter 2 1\ndone 2\ntook 2 1 0 1 0 6 0\nnone 2\ndone 2\nlane 3\nstim 0 1 0\npost 0 1 1 0 0 0 6 0\nstim 0 2 0\nsettle 0\nseen 0 1 1 0 1\nseen 0 2 0 0 0\nlane 4\nstim 0 1 0\npost 0 2 1 0 0 0 6 0\nstim 0 2 0\nsettle 0\nseen 0 1 0 0 0\nseen 0 2 1 0 1\nend 0\n";

/// A lane that shows a post before it makes it.
const EARLY: &[u8] = b"qp 1 2 1\nlane 0\nseen 0 1 1 0 0\npost 0 1 1 0 0 0 4 0\nend 0\n";

/// Lanes that have nothing to do with one another.
const APART: &[u8] = b"qp 1 2 1\nlane 0\nlane 1\nbegin 1\ndone 1\nlane 2\nbegin 2\nend 0\n";

/// A look that must stand before the second of two posts, and behind the first.
const BETWEEN: &[u8] =
    b"qp 1 2 1\nlane 0\npost 0 1 1 0 0 0 4 0\npost 0 1 2 0 0 0 4 0\nlane 1\nsay 1 5\nseen 0 1 1 0 0\nend 0\n";

/// Numbers that no run draws: one twice, and one that isn't the next.
const STRANGE: &[u8] =
    b"qp 1 2 1\nlane 0\nsub 1 5 7\nlane 1\nsub 2 5 3\nlane 2\nsub 3 5 3\nsame 3 5 4\nend 0\n";

/// Lanes without a record.
const EMPTY: &[u8] = b"qp 1 0 1\nlane 0\nlane 1\nend 0\n";

/// The order of the lamp's records: the lane and the place of each.
const OF_LAMP: [(u32, u32); 14] = [
    (0, 0),
    (0, 1),
    (0, 2),
    (0, 3),
    (1, 0),
    (1, 1),
    (0, 4),
    (0, 5),
    (0, 6),
    (0, 7),
    (0, 8),
    (0, 9),
    (0, 10),
    (0, 11),
];

/// What is answered of a journal; None where it is too large, or there is no memory.
fn replayed(alloc: Global, journal: &Journal) -> Option<Replayed> {
    if is_small(&journal.lanes) {
        ordered(alloc, &journal.lanes).ok()
    } else {
        None
    }
}

fn is_same(order: &[At], want: &[(u32, u32)]) -> bool {
    let mut same = order.len() == want.len();
    for (at, place) in order.iter().zip(want) {
        same = same && at.lane == place.0 && at.place == place.1;
    }
    same
}

fn has_order(alloc: Global, journal: &Journal, want: &[(u32, u32)]) -> bool {
    match replayed(alloc, journal) {
        Some(Replayed::Order(order)) => is_same(&order.items, want),
        _ => false,
    }
}

/// Whether the text is a journal, and the order of its records this one, by lanes and places.
fn is_order(alloc: Global, text: &[u8], want: &[(u32, u32)]) -> bool {
    match read_journal(alloc, text) {
        Ok(found) => has_order(alloc, &found.journal, want),
        Err(_) => false,
    }
}

/// A journal of `sim` gives the order in which it was made.
#[test]
fn one_lamp_has_the_order_of_its_run(rt: HostRuntime) {
    assert!(rt; is_order(rt.alloc(), LAMP, &OF_LAMP));
}

/// Lanes that share no word stand one behind the other, the lowest first.
#[test]
fn lanes_apart_come_one_after_another(rt: HostRuntime) {
    assert!(rt; is_order(rt.alloc(), APART, &[(1, 0), (1, 1), (2, 0)]));
    assert!(rt; is_order(rt.alloc(), EMPTY, &[]));
}

/// A record that shows a word stands behind the operations that it shows, and before the next one.
#[test]
fn a_look_stands_between_what_it_shows_and_what_it_does_not(rt: HostRuntime) {
    assert!(rt; is_order(rt.alloc(), BETWEEN, &[(0, 0), (1, 0), (1, 1), (0, 1)]));
    assert!(rt; is_order(rt.alloc(), STRANGE, &[(1, 0), (2, 0), (2, 1), (0, 0)]));
}

/// By the definition: the first draws a lower number, or one that the second shows, or shows none of the second's.
fn touches_first(a: &Rec, b: &Rec) -> bool {
    match (Touched::by(a), Touched::by(b)) {
        (Touched::Draws { word: v, mark: m }, Touched::Draws { word: w, mark: n }) => {
            key_of(v) == key_of(w) && m < n
        }
        (Touched::Draws { word: v, mark: m }, Touched::Shows { word: w, mark: n }) => {
            key_of(v) == key_of(w) && m <= n
        }
        (Touched::Shows { word: v, mark: m }, Touched::Draws { word: w, mark: n }) => {
            key_of(v) == key_of(w) && m < n
        }
        _ => false,
    }
}

fn record(j: &Journal, at: At) -> Option<&Rec> {
    j.lanes
        .items
        .get(at.lane as usize)?
        .items
        .get(at.place as usize)
}

fn must_precede(j: &Journal, x: At, y: At) -> bool {
    match (record(j, x), record(j, y)) {
        (Some(a), Some(b)) => (x.lane == y.lane && x.place < y.place) || touches_first(a, b),
        _ => false,
    }
}

/// The records of a cycle, which has this many at least, are tried one by one.
fn goes_round(j: &Journal, cycle: &[At]) -> bool {
    let Some(first) = cycle.first() else {
        return false;
    };
    let Some(last) = cycle.last() else {
        return false;
    };
    let mut holds = cycle.len() >= 2 && must_precede(j, *last, *first);
    for pair in cycle.windows(2) {
        match pair {
            [x, y] => holds = holds && must_precede(j, *x, *y),
            _ => holds = false,
        }
    }
    holds
}

/// Whether a cycle is answered of the journal, and is one.
fn has_cycle(alloc: Global, journal: &Journal) -> bool {
    match replayed(alloc, journal) {
        Some(Replayed::Cycle(cycle)) => goes_round(journal, &cycle.items),
        _ => false,
    }
}

fn is_cycle(alloc: Global, text: &[u8]) -> bool {
    match read_journal(alloc, text) {
        Ok(found) => has_cycle(alloc, &found.journal),
        Err(_) => false,
    }
}

/// Journals without an order give a cycle.
#[test]
fn looks_past_one_another_go_round(rt: HostRuntime) {
    assert!(rt; is_cycle(rt.alloc(), ROUND));
    assert!(rt; is_cycle(rt.alloc(), EARLY));
}
