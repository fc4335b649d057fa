//! Where a source is.

ghost use Rattle.std.specs.Prelude.{◌≡◌, false, slice_get, [], ◌∷◌};
ghost use Rattle.std.specs.Option.{option_map};
ghost use Rattle.qp_port_lanes.specs.CursorAt.{at_settle_in, begins_settle, left_in, mine};

use qp_model::{Stim, Stimuli};

/// A source of the stimuli, by its number from 1, in the lane with this number: how many of its stimuli have begun, and whether
/// the last of them is a `settle` that isn't done. One at which a turn stopped isn't counted.
#[derive(Drop)]
pub struct Cursor<'a> {
    pub(crate) stim: &'a Stimuli,
    pub(crate) source: u32,
    pub(crate) lane: u32,
    pub(crate) begun: u32,
    pub(crate) settling: bool,
}

fn is_settle(s: &Stim) -> bool
    ensures { result ≡ begins_settle (s.now ∷ []) }
{
    matches!(s, Stim::Settle)
}

impl Cursor<'_> {
    /// A source that has begun nothing.
    pub fn new<'a>(stim: &'a Stimuli, source: u32, lane: u32) -> Cursor<'a>
        ensures stim { result.stim.now ≡ stim.now }
        ensures source { result.source ≡ source }
        ensures lane { result.lane ≡ lane }
        ensures begun { result.begun ≡ 0 }
        ensures settling { result.settling ≡ false }
    {
        Cursor {
            stim,
            source,
            lane,
            begun: 0,
            settling: false,
        }
    }
    /// The stimulus behind those that have begun.
    fn next(&self) -> Option<&Stim>
        ensures { option_map (λ s. s.now) result ≡ slice_get (mine self.now) self.now.begun }
    {
        let stimuli = self.stim;
        let mine = stimuli
            .sources
            .get((self.source as usize).saturating_sub(1))?;
        mine.items.get(self.begun as usize)
    }

    /// Whether a `settle` is under way, or the next stimulus is one.
    pub fn at_settle(&self) -> bool
        ensures { result ≡ at_settle_in self.now }
    {
        if self.settling {
            return true;
        }
        match self.next() {
            Some(s) => is_settle(s),
            None => false,
        }
    }

    /// Whether a `settle` is under way, or a stimulus is left.
    pub fn left(&self) -> bool
        ensures { result ≡ left_in self.now }
    {
        self.settling || self.next().is_some()
    }
}
