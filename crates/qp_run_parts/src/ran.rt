//! Runs that have ended, and what of them is kept.

ghost use Rattle.std.specs.Prelude.{◌≡◌, option_map};
ghost use Rattle.qp_run_parts.specs.Sealed.{journal_of_run, kept_seal, rests_of, sealed_in};

use crate::status::Status;
use qp_kernel_end::Rest;
use qp_kernel_runs::Simulated;
use qp_model::Journal;
use qp_wait_runs::{Sealed, Threaded};

/// A run that has ended: its journal, and where its objects rest.
#[derive(Drop)]
pub(crate) enum Ran {
    /// In one thread.
    Alone(Simulated),
    /// With threads; its journal is sealed.
    Threaded(Threaded),
}

impl Ran {
    pub(crate) fn journal(&self) -> &Journal
        ensures { result.now ≡ journal_of_run self.now }
    {
        match self {
            Ran::Alone(run) => &run.journal,
            Ran::Threaded(run) => run.sealed.journal(),
        }
    }

    pub(crate) fn rests(&self) -> &[Rest]
        ensures { result.now ≡ rests_of self.now }
    {
        match self {
            Ran::Alone(run) => run.rests.as_slice(),
            Ran::Threaded(run) => run.rests.as_slice(),
        }
    }

    /// Its journal, where it was sealed.
    fn sealed(self) -> Option<Sealed>
        ensures { option_map (λ s. s.journal) result ≡ sealed_in self }
    {
        match self {
            Ran::Alone(_) => None,
            Ran::Threaded(run) => Some(run.sealed),
        }
    }

    /// How a call with this answer on the run ends.
    pub(crate) fn finished(self, status: Status) -> Finished
        ensures status { result.status ≡ status }
        ensures seal { option_map (λ s. s.journal) result.seal ≡ kept_seal status (sealed_in self) }
    {
        let seal = kept_seal(&status, self.sealed());
        Finished { status, seal }
    }
}

/// How a call ended, and the sealed journal of a run with threads that ended by itself.
#[derive(Drop)]
pub struct Finished {
    pub status: Status,
    pub seal: Option<Sealed>,
}

/// The journal, where the call ended as its run did.
pub fn kept_seal(status: &Status, seal: Option<Sealed>) -> Option<Sealed>
    ensures { option_map (λ s. s.journal) result ≡ kept_seal status.now (option_map (λ s. s.journal) seal) }
{
    if status.is_run_ended() { seal } else { None }
}
