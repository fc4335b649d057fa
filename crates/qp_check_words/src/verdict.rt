//! The answer of the judge.

/// Whether a journal is lawful, or the first definition that fails and where.
#[derive(Clone, Copy, PartialEq, Eq, Debug)]
pub enum Verdict {
    Lawful,
    Broken { definition: u8, site: Site },
}

/// Where a definition fails: a word by its kind and numbers, an object by its priority, a lane, or the
/// journal as a whole.
#[derive(Clone, Copy, PartialEq, Eq, Debug)]
pub enum Site {
    Pool(u8),
    Block(u8, u8),
    Queue(u8),
    Signal(u16),
    Timer(u8),
    Object(u8),
    Lane(u32),
    Whole,
}

/// A definition that fails, by its number, and its first site.
#[derive(Clone, Copy, PartialEq, Eq, Debug)]
pub struct Broken {
    pub definition: u8,
    pub site: Site,
}
