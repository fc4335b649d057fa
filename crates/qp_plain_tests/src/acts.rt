//! Deeds and systems of the tests.

use crate::deeds::Deed;
use crate::desk::Act;
use crate::systems::{many, one};
use std::alloc::{AllocError, Global};

/// Static signals, and N, which has one parameter.
pub(crate) const GO: u16 = 4;

pub(crate) const N: u16 = 5;

pub(crate) const X: u16 = 6;

/// A post to object 1 without margin or reserve.
pub(crate) const GO_POST: Deed = Deed::Post(1, GO, &[], None, None);

pub(crate) const X_POST: Deed = Deed::Post(1, X, &[], None, None);

/// A system of the tests.
#[derive(Clone, Copy)]
pub(crate) enum Kind {
    /// One object with this queue, and so many blocks.
    One(u8, u8),
    /// So many objects.
    Many(u8),
}

impl Kind {
    /// The system's file.
    pub(crate) fn file(self, alloc: Global) -> Result<String, AllocError> {
        match self {
            Kind::One(queue, blocks) => one(alloc, queue, blocks),
            Kind::Many(objects) => many(alloc, objects),
        }
    }
}

/// What happens in a system, with the records that it leaves. Deferred entries are in a list of the capacity `defer`.
#[derive(Clone, Copy)]
pub(crate) struct Run<'a> {
    pub(crate) name: &'a str,
    pub(crate) system: Kind,
    pub(crate) defer: u8,
    pub(crate) acts: &'a [Act<'a>],
}
