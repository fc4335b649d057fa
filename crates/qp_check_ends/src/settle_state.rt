//! What is left of a settle.

ghost use Rattle.std.specs.Prelude.{◌≡◌, ◌+◌, ◌-◌, ◌^◌, ◌<◌, ⊤, [], ◌∷◌, length, drop, map, MatchOption};
ghost use Rattle.std.specs.Option.{option_map};
ghost use Rattle.qp_model.specs.declared.systems.System.{System};
ghost use Rattle.qp_check_ends.specs.SettleState.{Seeing, behind_seen, settle_seen_next, before_next, settle_next, settle_done, settle_tried, settle_open};
ghost use Rattle.qp_check_ends.specs.AsStates.{objects_from, as_settle};
ghost use Rattle.qp_model.specs.Sources.{priorities};

use qp_check_calls::{Known, Told};
use qp_model::kernels::may_try;
use qp_model::{Body, ObjectDef, System};

/// What is left of a settle.
#[derive(Clone, Copy, Drop)]
pub enum SettleState {
    /// A `settle` comes next; a try may stand before it.
    Before { tried: bool },
    /// The queues of the objects from this place on are yet to be seen.
    Seeing { at: usize },
}

/// What is left behind a `settle`.
#[tactic(auto, unfolding(crate::specs::AsStates::objects_from))]
fn before_next(sys: &System, told: &Told) -> Option<SettleState>
    ensures { option_map (as_settle sys.now) result ≡ before_next (priorities sys.now) told.now.body told.now.known }
{
    match (&told.body, &told.known) {
        (Body::Settle, Known::Nothing) => Some(SettleState::Seeing { at: 0 }),
        _ => None,
    }
}

/// What is left behind a queue that was seen, with this place behind its object's.
fn behind_seen(kernel: u8, at: usize, posted: u128, taken: u64) -> Option<SettleState>
    ensures { (sys : System) → option_map (as_settle sys) result ≡ behind_seen kernel (objects_from sys at) posted taken }
{
    if posted == u128::from(taken) {
        Some(SettleState::Seeing { at })
    } else if u128::from(taken) < posted && may_try(kernel) {
        Some(SettleState::Before { tried: true })
    } else {
        None
    }
}

fn seen_next(kernel: u8, object: u8, behind: usize, told: &Told) -> Option<SettleState>
    ensures { (sys : System) → option_map (as_settle sys) result ≡ settle_seen_next kernel object (objects_from sys behind) told.now.body
        told.now.known }
{
    match (&told.body, &told.known) {
        (Body::Seen { p, f, l, m }, Known::Nothing) => {
            if *p == u64::from(object) {
                behind_seen(kernel, behind, u128::from(*f) + u128::from(*l), *m)
            } else {
                None
            }
        }
        _ => None,
    }
}

/// The priority of the object at a place.
fn priority_among(objects: &[ObjectDef], at: usize) -> Option<u8>
    ensures first { MatchOption result (drop at (map (λ d. d.priority) objects.now) ≡ [])
        (λ o. drop at (map (λ d. d.priority) objects.now) ≡ o ∷ drop (at + 1) (map (λ d. d.priority) objects.now)) }
    ensures inside { MatchOption result ⊤ (λ o. at < length objects.now) }
{
    match objects.get(at) {
        Some(d) => Some(d.priority),
        None => None,
    }
}

#[tactic(auto, unfolding(crate::specs::AsStates::objects_from))]
fn priority_at(sys: &System, at: usize) -> Option<u8>
    ensures first { MatchOption result (objects_from sys.now at ≡ []) (λ o. objects_from sys.now at ≡ o ∷ objects_from sys.now (at + 1)) }
    ensures inside { MatchOption result ⊤ (λ o. at < 2 ^ 64 - 1) }
{
    priority_among(&sys.objects.items, at)
}

/// What is left behind the queue of the object at this place.
#[tactic(auto, unfolding(crate::specs::SettleState::settle_next))]
fn seeing_next(sys: &System, kernel: u8, at: usize, told: &Told) -> Option<SettleState>
    ensures { option_map (as_settle sys.now) result ≡ settle_next sys.now kernel (Seeing (objects_from sys.now at)) told.now }
{
    let object = priority_at(sys, at)?;
    seen_next(kernel, object, at + 1, told)
}

impl SettleState {
    /// What is left behind the next record.
    #[tactic(auto, unfolding(crate::specs::SettleState::settle_next))]
    pub fn next(self, sys: &System, kernel: u8, told: &Told) -> Option<SettleState>
        ensures { option_map (as_settle sys.now) result ≡ settle_next sys.now kernel (as_settle sys.now self) told.now }
    {
        match self {
            SettleState::Before { .. } => before_next(sys, told),
            SettleState::Seeing { at } => seeing_next(sys, kernel, at, told),
        }
    }

    /// Whether it is done.
    pub fn is_done(self, sys: &System) -> bool
        ensures { result ≡ settle_done (as_settle sys.now self) }
    {
        match self {
            SettleState::Before { .. } => false,
            SettleState::Seeing { at } => priority_at(sys, at).is_none(),
        }
    }

    /// Whether a try has just ended.
    pub fn is_tried(self, sys: &System, kernel: u8) -> bool
        ensures { result ≡ settle_tried kernel (as_settle sys.now self) }
    {
        match self {
            SettleState::Before { tried } => tried && may_try(kernel),
            SettleState::Seeing { .. } => false,
        }
    }

    /// Whether more records may follow.
    pub fn is_open(self, sys: &System) -> bool
        ensures { result ≡ settle_open (as_settle sys.now self) }
    {
        !self.is_done(sys)
    }
}
