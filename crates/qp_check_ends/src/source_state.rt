//! What is left of the records of a source.

ghost use Rattle.std.specs.Prelude.{◌≡◌, ◌+◌, ◌<◌, ⊤, List, [], ◌∷◌, drop, length, if◌then◌else◌, Some, None, IfOk, MatchOption};
ghost use Rattle.std.specs.Option.{option_map};
ghost use Rattle.qp_model.specs.declared.stimulus.Stim.{Stim};
ghost use Rattle.qp_model.specs.declared.bodies.Body.TheVariants.{Stim as the_stim};
ghost use Rattle.qp_model.specs.Told.{Nothing};
ghost use Rattle.qp_model.specs.Sources.{look_may};
ghost use Rattle.qp_check_ends.specs.SourceState.{Between, stim_next, stim_told, is_ready, within_next, source_next, source_after};
ghost use Rattle.qp_check_ends.specs.AsSource.{as_source, source_rest};

use crate::underway::Underway;
use qp_check_calls::{Known, Told};
use qp_model::kernels::may_try;
use qp_model::{Body, Stim, System};
use std::alloc::{AllocError, Global};

/// A source of a run with a kernel: its stimuli, in order.
#[derive(Drop)]
pub struct KernelSource<'a> {
    pub sys: &'a System,
    pub kernel: u8,
    pub stimuli: &'a [Stim],
}

/// What is left of the records of a source: how many stimuli have begun, and what is left of the last of them.
#[derive(Drop)]
pub struct SourceState {
    pub begun: usize,
    pub under: Option<Underway>,
}

/// Whether a `stim` may have this look's number.
fn look_may(kernel: u8, look: u64) -> bool
    ensures { result ≡ look_may kernel look }
{
    !may_try(kernel) || look == 0
}

/// The place and the look of a `stim`.
fn stim_of(told: &Told) -> Option<(u64, u64)>
    ensures { option_map (λ p. (p.0, p.1)) result ≡ stim_told told.now.body told.now.known }
{
    match (&told.body, &told.known) {
        (Body::Stim { i, k }, Known::Nothing) => Some((*i, *k)),
        _ => None,
    }
}

/// The stimulus behind the first `begun`.
pub fn stim_at(stimuli: &[Stim], begun: usize) -> Option<&Stim>
    ensures first { MatchOption result (drop begun stimuli.now ≡ []) (λ s. drop begun stimuli.now ≡ s.now ∷ drop (begun + 1) stimuli.now) }
    ensures inside { MatchOption result ⊤ (λ s. begun < length stimuli.now) }
{
    stimuli.get(begun)
}

impl SourceState {
    /// Whether no stimulus is under way, or it is done.
    fn is_ready(&self, sys: &System) -> bool
        ensures { (ss : List Stim) → result ≡ is_ready (as_source sys.now ss self.now) }
    {
        match &self.under {
            Some(u) => u.is_done(sys),
            None => true,
        }
    }

    /// The next stimulus begins with this `stim`.
    #[tactic(auto, unfolding(crate::specs::SourceState::stim_next))]
    fn begin(
        alloc: Global,
        source: &KernelSource,
        begun: usize,
        i: u64,
        look: u64,
    ) -> Result<Option<SourceState>, AllocError>
        ensures { IfOk result (λ r. option_map (as_source source.now.sys.now source.now.stimuli.now) r ≡ stim_next source.now.sys.now
            source.now.kernel (begun + 1) (drop begun source.now.stimuli.now) (the_stim i look) Nothing) }
    {
        let Some(stim) = stim_at(source.stimuli, begun) else {
            return Ok(None);
        };
        if i != begun as u64 + 1 || !look_may(source.kernel, look) {
            return Ok(None);
        }
        match Underway::begin(alloc, source.sys, stim)? {
            Some(u) => Ok(Some(SourceState {
                begun: begun + 1,
                under: Some(u),
            })),
            None => Ok(None),
        }
    }

    /// The stimulus under way goes on.
    #[tactic(auto, unfolding(crate::specs::SourceState::within_next))]
    fn go_on(self, source: &KernelSource, told: &Told) -> Result<Option<SourceState>, AllocError>
        ensures { IfOk result (λ r. option_map (as_source source.now.sys.now source.now.stimuli.now) r ≡ within_next source.now.sys.now
            source.now.kernel (as_source source.now.sys.now source.now.stimuli.now self) told.now) }
    {
        let SourceState { begun, under } = self;
        let Some(u) = under else { return Ok(None) };
        match u.next(source.sys, source.kernel, told)? {
            Some(u) => Ok(Some(SourceState {
                begun,
                under: Some(u),
            })),
            None => Ok(None),
        }
    }

    /// What is left behind the next record.
    pub fn next(
        self,
        alloc: Global,
        source: &KernelSource,
        told: &Told,
    ) -> Result<Option<SourceState>, AllocError>
        ensures { IfOk result (λ r. option_map (as_source source.now.sys.now source.now.stimuli.now) r ≡ source_next source.now.sys.now
            source.now.kernel (as_source source.now.sys.now source.now.stimuli.now self) told.now) }
    {
        match stim_of(told) {
            Some((i, look)) => {
                if self.is_ready(source.sys) {
                    SourceState::begin(alloc, source, self.begun, i, look)
                } else {
                    Ok(None)
                }
            }
            None => self.go_on(source, told),
        }
    }
}

/// What is left of a source behind these records.
pub fn behind(
    alloc: Global,
    source: &KernelSource,
    told: &[Told],
) -> Result<Option<SourceState>, AllocError>
    ensures { IfOk result (λ r. option_map (as_source source.now.sys.now source.now.stimuli.now) r ≡ source_after source.now.sys.now
        source.now.kernel (Some (Between 1 source.now.stimuli.now)) told.now) }
{
    let mut rest = SourceState {
        begun: 0,
        under: None,
    };
    for t in told {
        match rest.next(alloc, source, t)? {
            Some(next) => rest = next,
            None => return Ok(None),
        }
    }
    Ok(Some(rest))
}
