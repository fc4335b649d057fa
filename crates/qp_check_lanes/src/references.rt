//! The references to a block, run over its history.

ghost use Rattle.std.specs.Prelude.{◌≡◌, ◌≤◌, ◌+◌, true, false, length, get_or, set, IfOk, OnOk, MatchOption};
ghost use Rattle.qp_model.specs.Machine.{is_allowed};
ghost use Rattle.qp_model.specs.References.{Refs, references, refs_may, refs_next};
ghost use Rattle.qp_check_lanes.specs.Standing.{ReferencesStand, empties};

use crate::groups::Group;
use qp_model::Body;
use std::alloc::{AllocError, Global};

/// The references that stand, by the numbers of the operations that made them.
#[derive(Drop)]
struct References {
    flags: Vec<bool>,
    standing: usize,
}

impl References {
    fn new(alloc: Global) -> Self
        ensures stands { ReferencesStand references.first result.flags.items result.standing }
        ensures bounded { result.standing ≤ length result.flags.items }
    {
        References {
            flags: Vec::new(alloc),
            standing: 0,
        }
    }

    /// Whether the reference made by operation `k` stands.
    fn has(&self, k: u64) -> bool
        ensures { result ≡ get_or self.now.flags.items k false }
    {
        match self.flags.get(k as usize) {
            Some(stands) => *stands,
            None => false,
        }
    }

    fn allows(&self, body: &Body) -> bool
        ensures { (s : Refs) → ReferencesStand s self.now.flags.items self.now.standing → result ≡ refs_may s body.now }
    {
        let count = self.flags.len() as u64;
        match body {
            Body::Inc { r, .. } => *r == count,
            Body::Dec { d, k, .. } => *d == count && self.has(*k),
            _ => false,
        }
    }

    /// Makes an operation that is allowed.
    fn apply(&mut self, body: &Body) -> Result<(), AllocError>
        requires { self.old.standing ≤ length self.old.flags.items }
        ensures stands { OnOk result ((s : Refs) → ReferencesStand s self.old.flags.items self.old.standing → refs_may s body.now ≡ true → ReferencesStand
            (refs_next s body.now) self.new.flags.items self.new.standing) }
        ensures bounded { OnOk result (self.new.standing ≤ length self.new.flags.items) }
    {
        match body {
            Body::Inc { .. } => {
                self.flags.push(true)?;
                self.standing += 1;
            }
            Body::Dec { k, .. } => {
                self.drop_flag(*k as usize);
                self.flags.push(false)?;
                self.standing = self.standing.saturating_sub(1);
            }
            _ => {}
        }
        Ok(())
    }

    fn drop_flag(&mut self, k: usize)
        ensures flags { self.new.flags.items ≡ set self.old.flags.items k false }
        ensures standing { self.new.standing ≡ self.old.standing }
    {
        if k < self.flags.len() {
            self.flags[k] = false;
        }
    }
}

/// Whether no reference stands, before each operation and after the last; None where one isn't allowed.
pub fn empties(alloc: Global, history: &Group) -> Result<Option<Vec<bool>>, AllocError>
    ensures { IfOk result (λ o. MatchOption o (is_allowed references history.now ≡ false)
        (λ v. (is_allowed references history.now ≡ true) × (v.items ≡ empties history.now))) }
{
    let mut refs = References::new(alloc);
    let mut empties = Vec::new(alloc);
    for r in &history.items {
        let body = r.body();
        if !refs.allows(&body) {
            return Ok(None);
        }
        empties.push(refs.standing == 0)?;
        refs.apply(&body)?;
    }
    empties.push(refs.standing == 0)?;
    Ok(Some(empties))
}
