//! The sources of a file as its lines are read.

ghost use Rattle.std.specs.Prelude.{◌≡◌, ◌≤◌, ◌^◌, [], length, OnOk, IfOk};
ghost use Rattle.std.specs.Option.{ForNone};

use crate::verdict::LineStep;
use qp_model::{Source, Stimuli};
use std::alloc::{AllocError, Global};

/// The sources so far: those that are whole, and the one that stands.
#[derive(Drop)]
pub struct Sources {
    pub whole: Vec<Source>,
    pub standing: Option<Source>,
    ghost begun: { ForNone standing (whole.items ≡ []) },
}

impl Sources {
    ghost use Rattle.qp_stim.specs.Gathered.{gathered};
    ghost use Rattle.qp_stim.specs.Stimuli.{sources_after};

    pub fn new(alloc: Global) -> Self
        ensures { gathered result ≡ [] }
    {
        Sources {
            whole: Vec::new(alloc),
            standing: None,
        }
    }

    pub fn count(&self) -> usize
        ensures value { result ≡ length (gathered self.now) }
        ensures small { result ≤ 2 ^ 63 }
    {
        self.whole.len() + usize::from(self.standing.is_some())
    }

    /// Does what a line does.
    pub fn take(&mut self, alloc: Global, step: LineStep) -> Result<(), AllocError>
        ensures { OnOk result (gathered self.new ≡ sources_after (gathered self.old) step) }
    {
        match step {
            LineStep::Skips => {}
            LineStep::Opens => {
                let next = Source {
                    items: Vec::new(alloc),
                };
                if let Some(source) = self.standing.replace(next) {
                    self.whole.push(source)?;
                }
            }
            LineStep::Adds(stim) => {
                if let Some(source) = &mut self.standing {
                    source.items.push(stim)?;
                }
            }
        }
        Ok(())
    }

    /// All sources, in order.
    pub fn into_stimuli(self) -> Result<Stimuli, AllocError>
        ensures { IfOk result (λ stimuli. stimuli ≡ gathered self) }
    {
        let Sources {
            mut whole,
            standing,
        } = self;
        if let Some(source) = standing {
            whole.push(source)?;
        }
        Ok(Stimuli { sources: whole })
    }
}
