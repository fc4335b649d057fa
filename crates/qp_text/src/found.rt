//! What a reader of journals answers.

use qp_model::Journal;

/// A journal that was read, and the form that it was written in.
#[derive(Drop)]
pub struct Found {
    pub form: u8,
    pub journal: Journal,
}

/// Why a text is no journal: memory was refused, or this line is the first that is wrong, with its lowest code.
#[derive(Clone, Copy, PartialEq, Eq, Debug)]
pub enum TextFault {
    Memory,
    Line { number: u64, code: u8 },
}
