//! Where the records of a source may end.

ghost use Rattle.std.specs.Prelude.{◌≡◌, ℕ, List, drop, IfOk};
ghost use Rattle.qp_model.specs.declared.stimulus.Stim.{Stim};
ghost use Rattle.qp_model.specs.Sources.{SourceEnd, SourceRuns};
ghost use Rattle.qp_check_calls.specs.Decides.{Decides};
ghost use Rattle.qp_check_ends.specs.SourceState.{Within, source_stops, is_last as last};
ghost use Rattle.qp_check_ends.specs.AsSource.{as_source, as_underway, stops_at, some_may_end};

use crate::source_state::{KernelSource, SourceState, behind, stim_at};
use crate::underway::Underway;
use qp_check_calls::Told;
use qp_model::{Stim, System};
use std::alloc::{AllocError, Global};

/// Where the records of a source may end: every stimulus is done, or before a stimulus, behind a try of a `settle`, at an assertion,
/// or within the records of a stimulus.
#[derive(Clone, Copy, Drop)]
pub struct Stops {
    pub all_done: bool,
    pub before_stimulus: bool,
    pub after_try: bool,
    pub at_assert: bool,
    pub in_stimulus: bool,
}

/// The ends of records that aren't those of the source.
const NONE: Stops = Stops {
    all_done: false,
    before_stimulus: false,
    after_try: false,
    at_assert: false,
    in_stimulus: false,
};

/// Where the records may end within or right behind a stimulus.
fn stops_within(source: &KernelSource, u: &Underway, is_last: bool) -> Stops
    ensures { (k : ℕ) (left : List Stim) (stop : SourceEnd) → is_last ≡ last left → stops_at result stop ≡ source_stops source.now.kernel
        (Within (as_underway source.now.sys.now u.now) k left) stop }
{
    let is_done = u.is_done(source.sys);
    Stops {
        all_done: is_done && is_last,
        before_stimulus: is_done && !is_last,
        after_try: u.is_tried(source.sys, source.kernel),
        at_assert: u.is_asserted(source.sys),
        in_stimulus: u.is_open(source.sys),
    }
}

/// Whether no stimulus is behind the first `begun`.
fn is_last(stimuli: &[Stim], begun: usize) -> bool
    ensures { result ≡ last (drop begun stimuli.now) }
{
    stim_at(stimuli, begun).is_none()
}

fn stops_of(source: &KernelSource, rest: &SourceState) -> Stops
    ensures { (stop : SourceEnd) → stops_at result stop ≡ source_stops source.now.kernel
        (as_source source.now.sys.now source.now.stimuli.now rest.now) stop }
{
    let is_last = is_last(source.stimuli, rest.begun);
    match &rest.under {
        Some(u) => stops_within(source, u, is_last),
        None => Stops {
            all_done: is_last,
            before_stimulus: !is_last,
            ..NONE
        },
    }
}

/// Where these records of a source may end.
pub fn may_stop(
    alloc: Global,
    sys: &System,
    kernel: u8,
    stimuli: &[Stim],
    told: &[Told],
) -> Result<Stops, AllocError>
    ensures { IfOk result (λ s. (stop : SourceEnd) → Decides (stops_at s stop) (SourceRuns sys.now kernel 1 stimuli.now stop told.now)) }
{
    let source = KernelSource {
        sys,
        kernel,
        stimuli,
    };
    match behind(alloc, &source, told)? {
        Some(rest) => Ok(stops_of(&source, &rest)),
        None => Ok(NONE),
    }
}
