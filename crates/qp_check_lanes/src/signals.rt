//! What the word of a signal holds.

ghost use Rattle.std.specs.Prelude.{◌≡◌, ◌==◌, ◌^◌, ◌/◌, ◌<◌, [], IfOk, IfSome, IsNone};
ghost use Rattle.qp_model.specs.Subscribers.{Subscribers, bits_of_set, subscribers};

use crate::numbers::{has, take_out};
use crate::word_state::WordState;
use qp_model::Body;
use std::alloc::{AllocError, Global};
use std::marker::Model;

/// The subscribers of a signal after so many operations, the newest first. There are at most as many as
/// objects, so each operation on the list is short.
#[derive(Drop)]
pub struct Members {
    count: u64,
    members: Vec<u64>,
}

impl Members {
    /// None subscribes.
    pub fn new(alloc: Global) -> Self
        ensures { (result.count ≡ 0) × (result.members.items ≡ []) }
    {
        Members {
            count: 0,
            members: Vec::new(alloc),
        }
    }

    /// The subscribers now, as a list of its own.
    pub fn listed(&self, alloc: Global) -> Result<Subscribed, AllocError>
        ensures { IfOk result (λ s. s ≡ self.now.members.items) }
    {
        Ok(Subscribed {
            items: Vec::from_slice(alloc, &self.members)?,
        })
    }
}

/// The subscribers of a signal at some time. Contracts see the list.
#[derive(Drop)]
pub struct Subscribed {
    pub items: Vec<u64>,
}

impl Model for Subscribed {
    ghost use Rattle.std.specs.Prelude.{List, ℕ};

    ghost Value = { List ℕ };

    ghost view = { λ b. b.items.items };
}

/// Whether these bits are the set: bit p - 1 for object p, and none for 0.
fn are_bits_of(set: u64, members: &[u64]) -> bool
    ensures { result ≡ (bits_of_set members.now == set) }
{
    let mut left = set;
    for p in members {
        let bit = match bit_of(*p) {
            Some(bit) => bit,
            None => return false,
        };
        if bit > left {
            return false;
        }
        left -= bit;
    }
    left == 0
}

/// The bit of an object, if it is below 2 ^ 64.
fn bit_of(p: u64) -> Option<u64>
    ensures some { IfSome result (λ b. b ≡ 2 ^ p / 2) }
    ensures none { IsNone result → 64 < p }
{
    if p == 0 {
        Some(0)
    } else if p <= 64 {
        Some(1 << (p - 1))
    } else {
        None
    }
}

impl WordState for Members {
    ghost State = { Subscribers };

    ghost machine = { λ _. subscribers };

    ghost state = { λ s. record { count = s.count; members = s.members.items } };

    fn allows(&self, of: u8, body: &Body) -> bool {
        match body {
            Body::Sub { n, .. } => *n == self.count && !has(&self.members, u64::from(of)),
            Body::Unsub { n, .. } => *n == self.count && has(&self.members, u64::from(of)),
            _ => false,
        }
    }

    fn apply(&mut self, of: u8, body: &Body) -> Result<(), AllocError> {
        match body {
            Body::Sub { .. } => {
                take_out(&mut self.members, u64::from(of));
                self.members.insert(0, u64::from(of))?;
                self.count += 1;
            }
            Body::Unsub { .. } => {
                take_out(&mut self.members, u64::from(of));
                self.count += 1;
            }
            _ => {}
        }
        Ok(())
    }

    fn says(&self, body: &Body) -> bool {
        match body {
            Body::Pub { set, .. } => are_bits_of(*set, &self.members),
            Body::Same { .. } => true,
            _ => false,
        }
    }
}
