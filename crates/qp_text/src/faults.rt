//! Why a line or its item is not read.

/// Why a line or its item is not read: memory was refused, or it has this code.
#[derive(Clone, Copy, Debug, PartialEq, Eq)]
pub enum LineFault {
    Memory,
    Code(u8),
}
