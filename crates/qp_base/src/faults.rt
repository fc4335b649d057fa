//! The error of calls that can only run out of memory.

/// Memory was refused. It is the error of a call that has no other refusal.
#[derive(Clone, Copy, PartialEq, Eq, Debug)]
pub struct Memory;
