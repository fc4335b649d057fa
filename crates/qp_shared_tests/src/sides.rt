//! Calls on the side table: those of a worked example, and each other one.

ghost use Rattle.std.specs.Prelude.{◌≡◌, ◌+◌, ◌<◌, ◌≤◌, IsTrue, length};
ghost use Rattle.qp_model.specs.Sound.{IsSound};
ghost use Rattle.qp_side.specs.Seat.{StaysAs, side_recs, serves_object};

use crate::seats::{Call, first_seat, make};
use crate::stops::stop_and_end;
use crate::systems::system;
use qp_base::Steps;
use qp_model::{Rec, System, kinds};
use qp_side::{Side, SideSeat};
use std::alloc::Global;
use std::marker::Brand;
use std::sync::ledger::{Blank, Ledger};

/// One object with two time events A and B; signals 4 to 6 are GO, TA and TB.
const ONE: &str =
    "qp = 1\n[[signal]]\nname = \"GO\"\nstatic = true\n[[signal]]\nname = \"TA\"\nstatic = true\n[[signal]]\nname = \"TB\"\nstatic = true\n[[chart]]\nname = \"c\"\ninit = \"s\"\nstate = [{ name = \"s\" }]\ntimer = [{ name = \"A\", signal = \"TA\", rate = 0 }, { name = \"B\", signal = \"TB\", rate = 0 }]\n[[object]]\nname = \"lamp\"\nchart = \"c\"\npriority = 1\nqueue = 3\n";

/// A call, and the record that it answers: its kind, its object and its numbers.
#[derive(Clone, Copy)]
struct Made {
    call: Call,
    kind: u8,
    of: u8,
    nums: &'static [u64],
}

fn is(rec: &Rec, made: &Made) -> bool {
    rec.kind == made.kind && rec.of == made.of && rec.nums.as_slice() == made.nums
}

/// Whether the call answered its record.
fn is_made(answered: Option<Rec>, made: &Made) -> bool {
    match answered {
        Some(rec) => is(&rec, made),
        None => false,
    }
}

/// The calls on time events of a worked example: two are armed at the start, each ticks twice, and then one is disarmed that isn't armed, and one armed
/// that is.
const WORKED: &[Made] = &[
    Made {
        call: Call::Arm {
            t: 1,
            ticks: 2,
            interval: 0,
        },
        kind: kinds::ARM,
        of: 1,
        nums: &[1, 0, 2, 0],
    },
    Made {
        call: Call::Arm {
            t: 2,
            ticks: 2,
            interval: 2,
        },
        kind: kinds::ARM,
        of: 1,
        nums: &[2, 0, 2, 2],
    },
    Made {
        call: Call::Tick { t: 1 },
        kind: kinds::TICK,
        of: 0,
        nums: &[1, 1, 1],
    },
    Made {
        call: Call::Tick { t: 2 },
        kind: kinds::TICK,
        of: 0,
        nums: &[2, 1, 1],
    },
    Made {
        call: Call::Tick { t: 1 },
        kind: kinds::FIRE,
        of: 0,
        nums: &[1, 2, 0],
    },
    Made {
        call: Call::Tick { t: 2 },
        kind: kinds::FIRE,
        of: 0,
        nums: &[2, 2, 2],
    },
    Made {
        call: Call::Disarm { t: 1 },
        kind: kinds::IDLE,
        of: 1,
        nums: &[1, 3],
    },
    Made {
        call: Call::Arm {
            t: 2,
            ticks: 1,
            interval: 0,
        },
        kind: kinds::ASSERT,
        of: 1,
        nums: &[3, 2, 3, 2],
    },
];

/// Every other record, on another seat.
const OTHERS: &[Made] = &[
    Made {
        call: Call::Subscribers { sig: 4 },
        kind: kinds::PUB,
        of: 1,
        nums: &[4, 0, 0],
    },
    Made {
        call: Call::Subscribe { sig: 4 },
        kind: kinds::SUB,
        of: 1,
        nums: &[4, 0],
    },
    Made {
        call: Call::Subscribe { sig: 4 },
        kind: kinds::SAME,
        of: 1,
        nums: &[4, 1],
    },
    Made {
        call: Call::Subscribers { sig: 4 },
        kind: kinds::PUB,
        of: 1,
        nums: &[4, 1, 1],
    },
    Made {
        call: Call::Unsubscribe { sig: 4 },
        kind: kinds::UNSUB,
        of: 1,
        nums: &[4, 1],
    },
    Made {
        call: Call::Unsubscribe { sig: 4 },
        kind: kinds::SAME,
        of: 1,
        nums: &[4, 2],
    },
    Made {
        call: Call::Subscribers { sig: 4 },
        kind: kinds::PUB,
        of: 1,
        nums: &[4, 2, 0],
    },
    Made {
        call: Call::Rearm { t: 1, ticks: 5 },
        kind: kinds::REARM,
        of: 1,
        nums: &[1, 0, 0, 5],
    },
    Made {
        call: Call::Disarm { t: 1 },
        kind: kinds::DISARM,
        of: 1,
        nums: &[1, 1, 5],
    },
    Made {
        call: Call::Tick { t: 1 },
        kind: kinds::IDLE,
        of: 0,
        nums: &[1, 2],
    },
];

/// Makes calls on a seat until one doesn't answer its record. Answers how many did.
fn play<L: Ledger>(seat: &mut SideSeat<'_>, sys: &System, calls: &[Made], blank: Blank) -> usize
    requires name { blank.name ≡ L.name }
    requires parts { blank.parts ≡ L.parts }
    requires some { 0 < blank.parts }
    requires its { seat.old.words.now.shared.key ≡ sys.now }
    requires serves { IsTrue (serves_object seat.old.seat.me.0 1) }
    requires none { length (side_recs seat.old.seat.me.0) ≡ 0 }
    requires few { length calls.now ≤ 1000000 }
    ensures { StaysAs seat.old.seat.me.0 seat.new.seat.me.0 }
{
    let mut steps = Steps::<L>::open(blank);
    let mut good = 0;
    for made in calls {
        let answered = make(seat, sys, made.call, &mut steps);
        if !is_made(answered, made) {
            return good;
        }
        good += 1;
    }
    good
}

/// The calls on one seat answer their records, and so the seat ends.
fn see(alloc: Global, sys: &System, calls: &[Made]) -> Option<usize>
    requires sound { IsSound sys.now }
    requires few { length calls.now ≤ 1000000 }
{
    let Ok((side, root)) = Side::new(alloc, sys) else {
        return None;
    };
    let mut root = root;
    let mut seat = first_seat(&side, &mut root, sys)?;
    let good = play::<Brand>(&mut seat, sys, calls, Blank::new(1));
    Some(good)
}

/// How many calls answer their records, over the system.
fn good(alloc: Global, calls: &[Made]) -> Option<usize>
    requires few { length calls.now ≤ 1000000 }
{
    let sys = system(alloc, ONE)?;
    see(alloc, &sys, calls)
}

/// What the seats find of a code, over the system.
fn found(alloc: Global) -> Option<(Option<u8>, Option<u8>, Option<u8>)> {
    let sys = system(alloc, ONE)?;
    stop_and_end(alloc, &sys)
}

#[test]
fn a_seat_answers_the_records_of_the_worked_example(rt: HostRuntime) {
    assert_eq!(rt; good(rt.alloc(), WORKED), Some(WORKED.len()));
}

#[test]
fn each_other_call_answers_its_record(rt: HostRuntime) {
    assert_eq!(rt; good(rt.alloc(), OTHERS), Some(OTHERS.len()));
}

#[test]
fn the_stop_word_keeps_its_first_code_up_to_the_end_of_all_seats(rt: HostRuntime) {
    assert_eq!(rt; found(rt.alloc()), Some((None, Some(6), Some(6))));
}
