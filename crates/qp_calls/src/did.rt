//! What became of a group of calls.

/// What `ok` becomes, or an assertion by its code.
#[derive(Drop)]
pub enum Did {
    Value(u16),
    Assert { code: u8 },
}
