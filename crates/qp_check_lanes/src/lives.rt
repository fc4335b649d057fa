//! The lives of a block, from its pool's operations on it and from where its references are none.

ghost use Rattle.std.specs.Prelude.{◌≡◌, ◌<◌, ◌+◌, ℕ, List, true, false, ◌||◌, ◌==◌, not, length, get_or, IfOk, IfSome, MatchOption};
ghost use Rattle.qp_chart.specs.StateTree.{has};
ghost use Rattle.qp_model.specs.Record.{Item};
ghost use Rattle.qp_model.specs.Machine.{after, is_allowed};
ghost use Rattle.qp_model.specs.Lives.{Life, edge_of, edges, has_lives, life_may, life_next, life_of};
ghost use Rattle.qp_check_lanes.specs.Standing.{empties};
ghost use Rattle.qp_check_lanes.specs.BlockLives.{are_empty, are_referred, life_at};

use crate::groups::Group;
use qp_model::Body;
use std::alloc::{AllocError, Global};

/// Whether a block is given out, and where its last life began or ended.
#[derive(Clone, Copy)]
pub struct LifeNow {
    out: bool,
    edge: u64,
}

impl LifeNow {
    fn allows(&self, b: u64, body: &Body) -> bool
        ensures { result ≡ life_may b (life_at self.now.out self.now.edge) body.now }
    {
        match body {
            Body::New { b: c, from, .. } => *c != b || (!self.out && *from == self.edge),
            Body::Back { b: c, to, .. } => *c != b || (self.out && self.edge < *to),
            _ => true,
        }
    }

    /// Whether all of a block's operations, which are so many, lie in its lives.
    fn covers(&self, count: usize) -> bool
        ensures { result ≡ (self.now.out || (self.now.edge == count)) }
    {
        self.out || self.edge == count as u64
    }

    fn after(&self, b: u64, body: &Body) -> LifeNow
        ensures { life_at result.out result.edge ≡ life_next b (life_at self.now.out self.now.edge) body.now }
    {
        match body {
            Body::New { b: c, from, .. } if *c == b => LifeNow {
                out: true,
                edge: *from,
            },
            Body::Back { b: c, to, .. } if *c == b => LifeNow {
                out: false,
                edge: *to,
            },
            _ => *self,
        }
    }
}

/// What the pool's operations on block `b` leave; None where they don't alternate.
fn last_life(b: u64, own: &Group) -> Option<LifeNow>
    ensures { MatchOption result (is_allowed (life_of b) own.now ≡ false) (λ l. (is_allowed (life_of b) own.now ≡ true) ×
        (life_at l.out l.edge ≡ after (life_of b) own.now)) }
{
    let mut life = LifeNow {
        out: false,
        edge: 0,
    };
    for r in &own.items {
        let body = r.body();
        if !life.allows(b, &body) {
            return None;
        }
        life = life.after(b, &body);
    }
    Some(life)
}

fn edge_of(b: u64, body: &Body) -> Option<u64>
    ensures { result ≡ edge_of b body.now }
{
    match body {
        Body::New {
            b: c,
            from: edge,
            ..
        }
        | Body::Back { b: c, to: edge, .. }
            if *c == b => { Some(*edge) }
        _ => None,
    }
}

/// Where the lives of block `b` begin and end.
fn edges(alloc: Global, b: u64, own: &Group) -> Result<Vec<u64>, AllocError>
    ensures { IfOk result (λ v. v.items ≡ edges b own.now) }
{
    let mut edges = Vec::new(alloc);
    for r in &own.items {
        match edge_of(b, &r.body()) {
            Some(edge) => edges.push(edge)?,
            None => {}
        }
    }
    Ok(edges)
}

fn flag(flags: &[bool], n: usize) -> bool
    ensures { result ≡ get_or flags.now n false }
{
    match flags.get(n) {
        Some(b) => *b,
        None => false,
    }
}

/// Whether no reference stands at each of these places.
fn are_empty(flags: &[bool], places: &[u64]) -> bool
    ensures { result ≡ are_empty flags.now places.now }
{
    for n in places {
        if !flag(flags, *n as usize) {
            return false;
        }
    }
    true
}

/// Whether each number below `count` is one of these places.
pub fn marked(alloc: Global, places: &[u64], count: usize) -> Result<Vec<bool>, AllocError>
    ensures { IfOk result (λ v. (length v.items ≡ count) × ((n : ℕ) → n < count → get_or v.items n false ≡ has places.now n)) }
{
    let mut marks = vec![in alloc; false; count]?;
    for n in places {
        let at = *n as usize;
        if at < marks.len() {
            marks[at] = true;
        }
    }
    Ok(marks)
}

/// Whether each place below `marks`'s length is marked or has a reference.
fn are_referred(flags: &[bool], marks: &[bool]) -> bool
    ensures { (places : List ℕ) → ((n : ℕ) → n < length marks.now → get_or marks.now n false ≡ has places n) → result ≡ are_referred
        flags.now (length marks.now) places }
{
    for n in 0..marks.len() {
        if !marks[n] && flag(flags, n) {
            return false;
        }
    }
    true
}

/// Whether the lives of block `b` are as they must be. `own` has its pool's operations on it, and
/// `flags` say before each of its own operations, and after the last, whether no reference stands.
pub fn has_lives(alloc: Global, b: u64, own: &Group, flags: &[bool]) -> Result<bool, AllocError>
    ensures { IfOk result (λ r. (block : List Item) → flags.now ≡ empties block → r ≡ has_lives b own.now block) }
{
    let life = match last_life(b, own) {
        Some(life) => life,
        None => return Ok(false),
    };
    let edges = edges(alloc, b, own)?;
    let count = flags.len().saturating_sub(1);
    if !are_empty(flags, &edges) {
        return Ok(false);
    }
    if !life.covers(count) {
        return Ok(false);
    }
    let marks = marked(alloc, &edges, count)?;
    Ok(are_referred(flags, &marks))
}
