//! What the word of a queue holds.

ghost use Rattle.std.specs.Prelude.{◌≡◌, ◌+◌, ◌-◌, [], ◌==◌, ◌&&◌, length};
ghost use Rattle.qp_model.specs.Line.{Line, line, is_front};

use crate::word_state::WordState;
use qp_model::{Body, Entry};
use std::alloc::{AllocError, Global};
use std::collections::VecDeque;

/// The entries of a queue after so many posts, last-in posts and takes.
#[derive(Drop)]
pub struct Queue {
    ring: u8,
    pub entries: VecDeque<Entry>,
    f: u64,
    l: u64,
    m: u64,
}

impl Queue {
    /// An empty one.
    pub fn new(alloc: Global, ring: u8) -> Self
        ensures { (result.ring ≡ ring) × (result.entries.items ≡ []) × (result.f ≡ 0) × (result.l ≡ 0) × (result.m ≡ 0) }
    {
        Queue {
            ring,
            entries: VecDeque::new(alloc),
            f: 0,
            l: 0,
            m: 0,
        }
    }

    pub fn is_empty(&self) -> bool
        ensures { result ≡ (length self.now.entries.items == 0) }
    {
        self.entries.is_empty()
    }

    fn counts_are(&self, f: u64, l: u64, m: u64) -> bool
        ensures { result ≡ ((self.now.f == f) && (self.now.l == l) && (self.now.m == m)) }
    {
        self.f == f && self.l == l && self.m == m
    }
}

fn is_front(entry: &Entry, entries: &VecDeque<Entry>) -> bool
    ensures { result ≡ is_front entry.now entries.now.items }
{
    match entries.front() {
        Some(x) => x.is_same(*entry),
        None => false,
    }
}

/// How many entries stand at these counts.
fn standing(f: u64, l: u64, m: u64) -> u128
    ensures { result ≡ f + l - m }
{
    (u128::from(f) + u128::from(l)).saturating_sub(u128::from(m))
}

/// How many entries a ring of this length and the place of the front have free.
fn free(ring: u8, f: u64, l: u64, m: u64) -> u128
    ensures { result ≡ ring + 1 - (f + l - m) }
{
    (u128::from(ring) + 1).saturating_sub(standing(f, l, m))
}

impl WordState for Queue {
    ghost State = { Line };

    ghost machine = { λ s. line s.ring };

    ghost state = { λ s. record { entries = s.entries.items; f = s.f; l = s.l; m = s.m } };

    fn allows(&self, _of: u8, body: &Body) -> bool {
        let has_room = self.entries.len() <= usize::from(self.ring);
        match body {
            Body::Post { f, l, m, .. } => { *f > 0 && self.counts_are(*f - 1, *l, *m) && has_room }
            Body::Lifo { f, l, m, .. } => { *l > 0 && self.counts_are(*f, *l - 1, *m) && has_room }
            Body::Took { f, l, m, entry } => {
                *m > 0 && self.counts_are(*f, *l, *m - 1) && is_front(entry, &self.entries)
            }
            _ => false,
        }
    }

    fn apply(&mut self, _of: u8, body: &Body) -> Result<(), AllocError> {
        match body {
            Body::Post { entry, .. } => {
                self.entries.push_back(*entry)?;
                self.f += 1;
            }
            Body::Lifo { entry, .. } => {
                self.entries.push_front(*entry)?;
                self.l += 1;
            }
            Body::Took { .. } => {
                let _ = self.entries.pop_front();
                self.m += 1;
            }
            _ => {}
        }
        Ok(())
    }

    fn says(&self, body: &Body) -> bool {
        match body {
            Body::Nil { f, l, m } => self.counts_are(*f, *l, *m) && f.checked_add(*l) == Some(*m),
            Body::Seen { f, l, m, .. } => self.counts_are(*f, *l, *m),
            Body::Full {
                f,
                l,
                m,
                margin,
                ..
            } => {
                self.counts_are(*f, *l, *m) && free(self.ring, *f, *l, *m) <= u128::from(*margin)
            }
            Body::NoEntry { f, l, m, .. } | Body::NoLifo { f, l, m, .. } => {
                self.counts_are(*f, *l, *m) && standing(*f, *l, *m) == u128::from(self.ring) + 1
            }
            _ => false,
        }
    }
}
