//! Records: each kind made once, and the word and number that it shows.

use arrayvec::ArrayVec;
use qp_base::Ev;
use qp_model::{Body, Entry, Rec, Word};

fn is_on(rec: &Rec, word: Word, number: u64) -> bool {
    match (rec.word(), rec.number()) {
        (Some(found), Some(shown)) => found == word && shown == number,
        _ => false,
    }
}

fn is_note(rec: &Rec) -> bool {
    rec.word().is_none() && rec.number().is_none()
}

const ENTRY: Entry = Entry {
    pool: 1,
    block: 2,
    name: 3,
};

/// Whether each of these shows no word.
fn are_notes(records: &[Rec]) -> bool {
    for rec in records {
        if !is_note(rec) {
            return false;
        }
    }
    true
}

/// Whether each of these shows this word with its number.
fn are_on(word: Word, records: &[(u64, Rec)]) -> bool {
    for (number, rec) in records {
        if !is_on(rec, word, *number) {
            return false;
        }
    }
    true
}

/// Notes of a step show no word.
#[test]
fn notes_of_steps(rt: HostRuntime) {
    let notes = [
        Rec::begin(1),
        Rec::run(1, 2, 1),
        Rec::none(1),
        Rec::exit(1, 2),
        Rec::enter(1, 2),
        Rec::init(1, 2),
        Rec::say(1, -5),
        Rec::done(1),
        Rec::lock(1, 3),
        Rec::unlock(1, 0),
    ];
    assert!(rt; are_notes(&notes));
}

/// Nor do those of deferral, of the kernel and of sources.
#[test]
fn other_notes(rt: HostRuntime) {
    let notes = [
        Rec::defer(1, ENTRY),
        Rec::no_defer(1),
        Rec::recall(1, ENTRY),
        Rec::no_recall(1),
        Rec::flush(1, ENTRY),
        Rec::stim(1, 7),
        Rec::settle(),
        Rec::bad_ticks(1, 1, 0, 0),
        Rec::spent(1),
        Rec::spill(1000000),
        Rec::look(2, 0),
        Rec::rest(2),
    ];
    assert!(rt; are_notes(&notes));
}

/// A queue that is shown has had as many operations as its counts add up to; one that changes drew the last of them.
#[test]
fn records_of_queues(rt: HostRuntime) {
    let of_1 = [
        (5, Rec::took(1, 3, 1, 2, ENTRY)),
        (8, Rec::nil(1, 3, 1, 4)),
        (5, Rec::lifo(1, 3, 1, 2, ENTRY)),
        (6, Rec::no_lifo(1, 1, 3, 1, 2)),
    ];
    assert!(rt; are_on(Word::Queue(1), &of_1));
    let of_2 = [
        (0, Rec::seen(2, 0, 0, 0)),
        (5, Rec::post(1, 2, 3, 1, 2, ENTRY)),
        (6, Rec::full(1, 2, 3, 1, 2, 9)),
        (6, Rec::no_entry(1, 2, 3, 1, 2)),
    ];
    assert!(rt; are_on(Word::Queue(2), &of_2));
}

#[test]
fn records_of_pools_and_blocks(rt: HostRuntime) {
    let event = Ev {
        sig: 4,
        pars: ArrayVec::new(),
    };
    let of_pool = [
        (7, Rec::new(1, 2, 7, 3, 0, &event)),
        (7, Rec::short(1, 2, 7, 3, 4)),
        (8, Rec::back(1, 2, 8, 3, 6)),
        (9, Rec::no_block(1, 2, 9)),
    ];
    assert!(rt; are_on(Word::Pool(2), &of_pool));
    let of_block = [(5, Rec::inc(1, 2, 3, 5)), (6, Rec::dec(1, 2, 3, 6, 5))];
    assert!(rt; are_on(Word::Block(2, 3), &of_block));
}

#[test]
fn records_of_signals(rt: HostRuntime) {
    let records = [
        (2, Rec::publish(1, 4, 2, 1)),
        (1, Rec::sub(1, 4, 1)),
        (2, Rec::unsub(1, 4, 2)),
        (3, Rec::same(1, 4, 3)),
    ];
    assert!(rt; are_on(Word::Signal(4), &records));
}

#[test]
fn records_of_time_events(rt: HostRuntime) {
    let records = [
        (1, Rec::arm(1, 2, 1, 5, 0)),
        (2, Rec::disarm(1, 2, 2, 5)),
        (3, Rec::rearm(1, 2, 3, 5, 6)),
        (4, Rec::idle(1, 2, 4)),
        (5, Rec::tick(2, 5, 4)),
        (6, Rec::fire(2, 6, 0)),
        (7, Rec::armed(1, 2, 7, 3)),
    ];
    assert!(rt; are_on(Word::Timer(2), &records));
}

/// A record reads back as what it was made of.
#[test]
fn a_record_reads_back(rt: HostRuntime) {
    assert!(rt; matches!(Rec::exit(1, 2).body(), Body::Exit { state: 2 }));
}
