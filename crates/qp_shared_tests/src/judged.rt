//! What the judge says of a journal.

ghost use Rattle.qp_model.specs.Sound.{IsSound};
ghost use Rattle.qp_stim.specs.Rules.{StimuliFit};

use qp_check::{Verdict, check};
use qp_model::{Journal, Stimuli, System};
use std::alloc::Global;

/// The first definition that a journal breaks, 0 where it is lawful. None for want of memory.
pub(crate) fn broken(alloc: Global, sys: &System, stim: &Stimuli, journal: &Journal) -> Option<u8>
    requires sound { IsSound sys.now }
    requires fit { StimuliFit sys.now stim.now }
{
    match check(alloc, sys, stim, journal) {
        Ok(Verdict::Lawful) => Some(0),
        Ok(Verdict::Broken { definition, .. }) => Some(definition),
        Err(_) => None,
    }
}
