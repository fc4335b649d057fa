//! Why a stimulus file is refused.

ghost use Rattle.std.specs.Prelude.{◌≡◌};
ghost use Rattle.qp_stim.specs.declared.fault.StimFault.TheVariants.{Memory};

use std::alloc::{AllocError, AllocFailed};
use thiserror::Error;

/// Why stimuli could not be read.
#[derive(Debug, Drop, Error)]
pub enum StimFault {
    /// No memory was left.
    #[error("out of memory")]
    Memory,
    /// The first line that is refused, counted from 1 over all lines, and the lowest code that holds there:
    /// 1 not in the grammar, 2 not declared, 3 out of range, 4 a source that is not the next or is missing,
    /// 5 the wrong number of parameters.
    #[error("line {number}: code {code}")]
    Line { number: u64, code: u8 },
}

impl From<AllocError> for StimFault {
    ghost from_gives = { λ _ e. e ≡ Memory };

    fn from(_e: AllocError) -> StimFault {
        StimFault::Memory
    }
}

impl<T: Drop> From<AllocFailed<T>> for StimFault {
    ghost from_gives = { λ _ e. e ≡ Memory };

    fn from(_e: AllocFailed<T>) -> StimFault {
        StimFault::Memory
    }
}
