//! What is left of a tick.

ghost use Rattle.std.specs.Prelude.{◌≡◌, ◌+◌, ◌-◌, ◌^◌, ◌<◌, ⊤, [], ◌∷◌, length, drop, MatchOption};
ghost use Rattle.std.specs.Option.{option_map};
ghost use Rattle.qp_model.specs.declared.systems.System.{System};
ghost use Rattle.qp_check_ends.specs.TickState.{dues, reach_next, fired_next, Reaching, tick_next, tick_done, tick_asserted, tick_open};
ghost use Rattle.qp_model.specs.Sites.{ring_of};
ghost use Rattle.qp_check_ends.specs.AsStates.{dues_from, as_tick};

use crate::scene::had_room;
use qp_check_calls::{Known, Told};
use qp_model::{Body, System, TimerDef};

/// What is left of a tick.
#[derive(Clone, Copy, Drop)]
pub enum TickState {
    /// The timers of the rate from this place on are yet to be reached.
    Reaching {
        rate: u8,
        at: usize,
    },
    /// A timer of this object and signal fired: its post comes next, and then the timers from this place on.
    Fired {
        rate: u8,
        object: u8,
        sig: u16,
        at: usize,
    },
    /// A timer fired in vain, and nothing follows.
    Vain,
}

/// The place, the object and the signal of a timer.
#[derive(Clone, Copy, Drop)]
struct Due {
    place: usize,
    object: u8,
    sig: u16,
}

/// The first of these timers that has a rate, from a place on.
fn due_among(timers: &[TimerDef], rate: u8, from: usize) -> Option<Due>
    ensures first { MatchOption result (dues rate (from + 1) (drop from timers.now) ≡ [])
        (λ d. dues rate (from + 1) (drop from timers.now) ≡ record { t = d.place + 1; object = d.object; sig = d.sig } ∷ dues rate
        (d.place + 1 + 1) (drop (d.place + 1) timers.now)) }
    ensures inside { MatchOption result ⊤ (λ d. d.place < length timers.now) }
{
    for place in from..timers.len() {
        let d = &timers[place];
        if d.rate == rate {
            return Some(Due {
                place,
                object: d.object,
                sig: d.sig,
            });
        }
    }
    None
}

/// The first timer of a rate, from a place on.
#[tactic(auto, unfolding(crate::specs::AsStates::dues_from))]
fn next_due(sys: &System, rate: u8, from: usize) -> Option<Due>
    ensures first { MatchOption result (dues_from sys.now rate from ≡ []) (λ d. dues_from sys.now rate from ≡ record
        { t = d.place + 1; object = d.object; sig = d.sig } ∷ dues_from sys.now rate (d.place + 1)) }
    ensures inside { MatchOption result ⊤ (λ d. d.place < 2 ^ 64 - 1) }
{
    due_among(&sys.timers.items, rate, from)
}

/// What is left behind the record of a timer that is reached.
fn reached(rate: u8, due: Due, told: &Told) -> Option<TickState>
    requires { due.place < 2 ^ 64 - 1 }
    ensures { (sys : System) → option_map (as_tick sys) result ≡ reach_next (record
        { t = due.place + 1; object = due.object; sig = due.sig }) (dues_from sys rate (due.place + 1)) told.now.body told.now.known }
{
    let at = due.place + 1;
    match (&told.body, &told.known) {
        (Body::Idle { t, .. } | Body::Tick { t, .. }, Known::Nothing) => {
            if *t == at as u64 {
                Some(TickState::Reaching { rate, at })
            } else {
                None
            }
        }
        (Body::Fire { t, .. }, Known::Nothing) => {
            if *t == at as u64 {
                Some(TickState::Fired {
                    rate,
                    object: due.object,
                    sig: due.sig,
                    at,
                })
            } else {
                None
            }
        }
        _ => None,
    }
}

/// What is left behind the post of a timer that fired.
fn posted(sys: &System, rate: u8, object: u8, sig: u16, at: usize, told: &Told) -> Option<TickState>
    ensures { option_map (as_tick sys.now) result ≡ fired_next (ring_of sys.now object) object sig (dues_from sys.now rate at) told.now.body
        told.now.known }
{
    match (&told.body, &told.known) {
        (Body::Post { a, f, l, m, entry }, Known::Nothing) => {
            let is_its_entry = entry.pool == 0 && entry.block == u64::from(sig) && entry.name == 0;
            if *a == u64::from(object) && is_its_entry && had_room(sys, object, *f, *l, *m) {
                Some(TickState::Reaching { rate, at })
            } else {
                None
            }
        }
        (Body::NoEntry { a, .. }, Known::Nothing) => {
            if *a == u64::from(object) {
                Some(TickState::Vain)
            } else {
                None
            }
        }
        _ => None,
    }
}

/// What is left behind the record of the next timer of a rate.
#[tactic(auto, unfolding(crate::specs::TickState::tick_next))]
fn reaching(sys: &System, rate: u8, at: usize, told: &Told) -> Option<TickState>
    ensures { option_map (as_tick sys.now) result ≡ tick_next sys.now (Reaching (dues_from sys.now rate at)) told.now }
{
    reached(rate, next_due(sys, rate, at)?, told)
}

impl TickState {
    /// What is left behind the next record.
    #[tactic(auto, unfolding(crate::specs::TickState::tick_next))]
    pub fn next(self, sys: &System, told: &Told) -> Option<TickState>
        ensures { option_map (as_tick sys.now) result ≡ tick_next sys.now (as_tick sys.now self) told.now }
    {
        match self {
            TickState::Reaching { rate, at } => reaching(sys, rate, at, told),
            TickState::Fired {
                rate,
                object,
                sig,
                at,
            } => posted(sys, rate, object, sig, at, told),
            TickState::Vain => None,
        }
    }

    /// Whether it is done.
    pub fn is_done(self, sys: &System) -> bool
        ensures { result ≡ tick_done (as_tick sys.now self) }
    {
        match self {
            TickState::Reaching { rate, at } => next_due(sys, rate, at).is_none(),
            TickState::Fired { .. } | TickState::Vain => false,
        }
    }

    /// Whether it ended in an assertion.
    pub fn is_asserted(self, sys: &System) -> bool
        ensures { result ≡ tick_asserted (as_tick sys.now self) }
    {
        match self {
            TickState::Vain => true,
            TickState::Reaching { .. } | TickState::Fired { .. } => false,
        }
    }

    /// Whether more records may follow.
    pub fn is_open(self, sys: &System) -> bool
        ensures { result ≡ tick_open (as_tick sys.now self) }
    {
        match self {
            TickState::Reaching { rate, at } => next_due(sys, rate, at).is_some(),
            TickState::Fired { .. } => true,
            TickState::Vain => false,
        }
    }
}
