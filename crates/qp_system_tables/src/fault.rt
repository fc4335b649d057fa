//! Why a system file is refused.

ghost use Rattle.std.specs.Prelude.{◌≡◌};
ghost use Rattle.qp_system_tables.specs.declared.fault.SystemFault.TheVariants.{Memory};

use qp_chart::Path;
use std::alloc::{AllocError, AllocFailed};
use thiserror::Error;

/// Why a system could not be read.
#[derive(Debug, Drop, Error)]
pub enum SystemFault {
    /// No memory was left.
    #[error("out of memory")]
    Memory,
    /// The bytes are no TOML.
    #[error("not TOML")]
    NotToml,
    /// The first fault in the order of the file, with the path to its place.
    #[error("{path}: code {code}")]
    At { code: u8, path: Path },
}

impl From<AllocError> for SystemFault {
    ghost from_gives = { λ _ e. e ≡ Memory };

    fn from(_e: AllocError) -> SystemFault {
        SystemFault::Memory
    }
}

impl<T: Drop> From<AllocFailed<T>> for SystemFault {
    ghost from_gives = { λ _ e. e ≡ Memory };

    fn from(_e: AllocFailed<T>) -> SystemFault {
        SystemFault::Memory
    }
}
