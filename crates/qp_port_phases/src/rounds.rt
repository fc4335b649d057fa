//! The rounds of a phase.

ghost use Rattle.std.specs.Prelude.{◌≡◌, IfOk};

use crate::seats::{Seat, Serves, Wish, nap};
use std::alloc::{AllocError, Global};
use std::hint::spin_loop;
use std::sync::Wait;
use std::sync::atomic::{AtomicU64, Ordering};

/// What the lanes that are called do in a round.
#[derive(Clone, Copy)]
pub(crate) enum Round {
    /// Each takes a turn.
    Turns,
    /// Each passes the `settle` at which it stands.
    Settles,
    /// Nothing: the phase is over.
    Over,
}

/// How often a lane looks for the others to begin before it naps between two looks.
const SPINS: u32 = 1_000;

/// How often it naps before it gives up: a second in all.
const NAPS: u32 = 100;

/// What a lane that gives up adds to the number of those that have begun.
const GIVEN_UP: u64 = 1 << 32;

/// The words by which the lanes of a phase wait for one another. No clause speaks of them.
///
/// All lanes begin together. In a round those that were called take a turn, or pass a `settle`, while the others wait. The last that
/// comes to the end of its part decides what comes next, while all others wait, and calls the lanes for it. Once a lane has ended for
/// good the phase is over for all.
///
/// Where the system makes no thread for a lane, it stands behind another one in the same thread, which would wait for it for ever.
/// So a lane waits a second for the others to begin. Where one doesn't, each lane takes one turn in a phase from then on, and waits
/// for none.
#[derive(Drop)]
pub struct Rounds {
    pub sources: u32,
    objects_go_together: bool,
    begun: AtomicU64,
    left: AtomicU64,
    settles: AtomicU64,
    over: AtomicU64,
    seats: Vec<Seat>,
}

/// The place of a lane in a phase: its seat, how often it was called there, and to what.
#[derive(Drop)]
pub(crate) struct Place {
    seat: usize,
    calls: u64,
    round: Round,
}

fn new_seats(alloc: Global, lanes: usize) -> Result<Vec<Seat>, AllocError> {
    let mut seats = Vec::new(alloc);
    for _lane in 0..lanes {
        seats.push(Seat::new())?;
    }
    Ok(seats)
}

impl Rounds {
    /// For so many lanes, of which so many are of sources. Where objects go together, none takes a turn without all others.
    pub fn new(
        alloc: Global,
        lanes: usize,
        sources: u32,
        objects_go_together: bool,
    ) -> Result<Rounds, AllocError>
        ensures { IfOk result (λ rounds. rounds.sources ≡ sources) }
    {
        let seats = new_seats(alloc, lanes)?;
        Ok(Rounds {
            sources,
            objects_go_together,
            begun: AtomicU64::new(0),
            left: AtomicU64::new(0),
            settles: AtomicU64::new(0),
            over: AtomicU64::new(0),
            seats,
        })
    }

    /// Whether lanes wait for none, since one had no thread.
    pub fn are_given_up(&self) -> bool {
        self.begun.load(Ordering::SeqCst) >= GIVEN_UP
    }

    /// A phase begins: no lane has begun, and each is called to a turn.
    pub(crate) fn on_phase(&self) {
        if self.are_given_up() {
            return;
        }
        for seat in self.seats.iter() {
            seat.clear();
        }
        self.begun.store(0, Ordering::SeqCst);
        self.left.store(self.seats.len() as u64, Ordering::SeqCst);
        self.settles.store(0, Ordering::SeqCst);
        self.over.store(0, Ordering::SeqCst);
    }

    /// A lane that takes these entries begins. Its place, once all lanes have begun; None where one doesn't.
    pub(crate) fn begin<R: Wait>(&self, rt: &R, serves: Serves) -> Option<Place> {
        let number = self.begun.fetch_add(1, Ordering::SeqCst) as usize;
        let seat = self.seats.get(number)?;
        seat.take(serves);
        if self.all_have_begun(rt) {
            return Some(Place {
                seat: number,
                calls: 0,
                round: Round::Turns,
            });
        }
        None
    }

    /// Whether all lanes have begun. The answer is the same for each of them.
    fn all_have_begun<R: Wait>(&self, rt: &R) -> bool {
        let all = self.seats.len() as u64;
        let mut looks: u32 = 0;
        for _ in rt.forever() {
            let begun = self.begun.load(Ordering::SeqCst);
            if begun >= all {
                self.begun.wake_all();
                return begun < GIVEN_UP;
            }
            self.wait_to_begin(rt, begun, looks);
            looks = looks.saturating_add(1);
        }
        unreachable!()
    }

    /// Behind so many looks, the last of which showed that so many have begun.
    fn wait_to_begin<R: Wait>(&self, rt: &R, begun: u64, looks: u32) {
        if looks < SPINS {
            spin_loop();
        } else if looks < SPINS + NAPS {
            nap(rt, &self.begun, begun);
        } else {
            let given_up = begun.wrapping_add(GIVEN_UP);
            let _ = self
                .begun
                .compare_exchange(begun, given_up, Ordering::SeqCst, Ordering::SeqCst);
        }
    }

    /// A lane has come to the end of its part, and may stand at a `settle` there. Whether it is the last one, which then decides.
    pub(crate) fn arrive(&self, place: &Place, at_settle: bool) -> bool {
        let wish = match place.round {
            _ if at_settle => Wish::Settle,
            Round::Settles => Wish::Turn,
            _ => Wish::None,
        };
        match self.seats.get(place.seat) {
            Some(seat) => seat.set_wish(wish),
            None => {}
        }
        self.left.fetch_sub(1, Ordering::SeqCst) == 1
    }

    /// The lane that takes the entries of object `p` is to take a turn.
    pub(crate) fn wish_for(&self, p: u8) {
        for seat in self.seats.iter() {
            if seat.serves(p) {
                seat.set_wish(Wish::Turn);
            }
        }
    }

    fn count(&self, wish: Wish) -> u64 {
        self.seats.iter().filter(|seat| seat.wishes(wish)).count() as u64
    }

    /// How many sources are to take a turn.
    pub(crate) fn sources_next(&self) -> u32 {
        let mut sources: u32 = 0;
        for seat in self.seats.iter() {
            if seat.wishes(Wish::Turn) && !seat.serves_any() {
                sources = sources.saturating_add(1);
            }
        }
        sources
    }

    /// Calls the lanes for the next round, all of which wait.
    pub(crate) fn call(&self) {
        if self.count(Wish::Turn) > 0 {
            if self.objects_go_together {
                self.wish_for_all_objects();
            }
            self.settles.store(0, Ordering::SeqCst);
            self.call_those(Wish::Turn);
        } else if self.count(Wish::Settle) > 0 {
            self.settles.store(1, Ordering::SeqCst);
            self.call_those(Wish::Settle);
        } else {
            self.end();
        }
    }

    fn wish_for_all_objects(&self) {
        for seat in self.seats.iter() {
            if seat.serves_any() {
                seat.set_wish(Wish::Turn);
            }
        }
    }

    /// Takes the wishes of those that ask for this: a bit for each seat. A system has 49 lanes at most.
    fn take_wishes(&self, wish: Wish) -> u64 {
        let mut taken: u64 = 0;
        let mut bit: u64 = 1;
        for seat in self.seats.iter() {
            if seat.wishes(wish) {
                seat.set_wish(Wish::None);
                taken |= bit;
            }
            bit = bit.wrapping_add(bit);
        }
        taken
    }

    /// Calls those that ask for this. No wish is looked at once the first is called: the others may have come to the end of the round
    /// before this lane gets on, and what they ask for then is for another one to decide.
    fn call_those(&self, wish: Wish) {
        self.left.store(self.count(wish), Ordering::SeqCst);
        let taken = self.take_wishes(wish);
        let mut bit: u64 = 1;
        for seat in self.seats.iter() {
            if taken & bit != 0 {
                seat.call();
            }
            bit = bit.wrapping_add(bit);
        }
    }

    /// The phase is over for all lanes.
    pub(crate) fn end(&self) {
        self.over.store(1, Ordering::SeqCst);
        for seat in self.seats.iter() {
            seat.call();
        }
    }

    /// Waits until the lane is called. What it is called to.
    pub(crate) fn wait<R: Wait>(&self, rt: &R, place: &mut Place) -> Round {
        if let Some(seat) = self.seats.get(place.seat) {
            place.calls = seat.wait(rt, place.calls);
        }
        place.round = self.round();
        place.round
    }

    fn round(&self) -> Round {
        if self.over.load(Ordering::SeqCst) != 0 {
            Round::Over
        } else if self.settles.load(Ordering::SeqCst) != 0 {
            Round::Settles
        } else {
            Round::Turns
        }
    }
}
